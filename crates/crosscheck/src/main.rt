// Runs the second reader alone on many texts, and prints how many were read, why others were refused, and how many filled
// templates the second reader itself does not read as it reads their templates. Nothing here is compared with the product.
#![tactic(auto)]

ghost use Rattle.std.specs.Prelude.{false};

use basics::refusal::Refusal;
use comparing::beside::{Beside, Text};
use comparing::families::{Family, Kind};
use comparing::room::Room;
use comparing::run::Run;
use descent_lexer::item::Alias;
use random::Random;
use std::alloc::AllocError;
use std::io;

// Any number will do; another gives other random texts, and other counts.
const SEED: u64 = 20_261_117;

static FAMILIES: [Family; 11] = [
    Family::Rooms(3),
    Family::Strings(5),
    Family::Lists(6),
    Family::Quotes(7),
    Family::Examples,
    Family::Random(Kind::Scripts),
    Family::Random(Kind::DamagedScripts),
    Family::Random(Kind::SplicedScripts),
    Family::Random(Kind::Edges),
    Family::Random(Kind::Templates),
    Family::Random(Kind::DamagedTemplates),
];

// No reader stands beside the second one.
#[derive(Drop)]
struct Nobody;

impl Beside for Nobody {
    ghost all = { false };

    fn takes_all(&self) -> bool {
        false
    }

    fn take_aliases(&mut self, _aliases: &[Alias]) {}

    fn list(
        &mut self,
        script: &Text,
        room: Room,
        _random: &mut Random,
    ) -> Result<Option<Refusal>, AllocError> {
        Ok(room.refusal(script.reading))
    }

    fn check(&mut self, _template: &Text) -> Result<(), AllocError> {
        Ok(())
    }
}

fn main(rt: HostRuntime) -> io::Result<()> {
    let mut run = Run::new(rt.alloc(), SEED, Nobody);
    run.read(&rt, &FAMILIES)?;
    // the last line of every comparison: where nothing is compared, nothing differs
    println!(rt; "0 differ")
}
