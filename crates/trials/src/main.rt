// Trials of quoting: texts are taken through their form and back, and forms are damaged by one byte.
#![tactic(auto)]

mod tally;

use basics::slices::up_to;
use quoting::backslash::Backslash;
use quoting::quoter::LawfulQuoter;
use quoting::single::Single;
use random::{Numbers, Plain};
use tally::{Tally, text_byte};

// How many texts of a random length and random bytes are tried, and how many damages of each form.
const RANDOM_TEXTS: u32 = 4000;

const DAMAGES: u32 = 60;

// All texts of one byte and of two bytes that are free of byte 0. Each form of one byte's text is damaged in every way.
fn try_short<Q: LawfulQuoter>(tally: &mut Tally, quoter: &Q) {
    for a in 1..=255u8 {
        tally.try_text(quoter, &[a]);
        tally.try_every_damage(quoter, &[a]);
        for b in 1..=255u8 {
            tally.try_text(quoter, &[a, b]);
        }
    }
}

// Random texts of up to 512 bytes.
fn try_random<Q: LawfulQuoter>(tally: &mut Tally, quoter: &Q, random: &mut impl Numbers) {
    let mut store = [0u8; 512];
    for _ in 0..RANDOM_TEXTS {
        let length = random.below(513);
        for b in store.iter_mut() {
            *b = text_byte(random);
        }
        let text = up_to(&store, length);
        tally.try_text(quoter, text);
        for _ in 0..DAMAGES {
            tally.try_damage(quoter, text, random);
        }
    }
}

fn try_quoter<Q: LawfulQuoter>(name: &'static str, quoter: &Q) -> Tally {
    let mut tally = Tally::new(name);
    let mut random = Plain::new(2463534242);
    tally.try_text(quoter, b"");
    try_short(&mut tally, quoter);
    try_random(&mut tally, quoter, &mut random);
    tally
}

fn main(rt: HostRuntime) -> anyhow::Result<()> {
    println!(rt; "{}", try_quoter("single", &Single))?;
    println!(rt; "{}", try_quoter("backslash", &Backslash))?;
    Ok(())
}
