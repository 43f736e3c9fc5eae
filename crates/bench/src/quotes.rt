// The speed of quoting.
use crate::clock::{Timing, timed};
use basics::slices::up_to;
use quoting::backslash::Backslash;
use quoting::quoter::Quoter;
use quoting::single::Single;

// How often each text is quoted.
const ROUNDS: u32 = 100000;

// Quotes the text again and again, and tells how many forms fitted the page.
fn quote_often<Q: Quoter>(quoter: &Q, text: &[u8], page: &mut [u8]) -> u32 {
    let mut forms: u32 = 0;
    for _ in 0..ROUNDS {
        if quoter.write(text, page).is_ok() {
            forms = forms.saturating_add(1);
        }
    }
    forms
}

fn time_one<Q: Quoter>(
    rt: &HostRuntime,
    name: &str,
    quoter: &Q,
    text: &[u8],
) -> anyhow::Result<()> {
    let mut page = [0u8; 4096];
    let (forms, spent) = timed(rt, || quote_often(quoter, text, &mut page))?;
    let bytes = text.len();
    let length = quoter.measure(text);
    println!(rt; "{name} {bytes}: {forms} forms of {length} bytes")?;
    let timing = Timing {
        name,
        bytes,
        rounds: ROUNDS,
        spent,
    };
    eprintln!(rt; "{timing}")?;
    Ok(())
}

// A text of one byte over and over, at each of three lengths.
fn time_lengths<Q: Quoter>(
    rt: &HostRuntime,
    name: &str,
    quoter: &Q,
    byte: u8,
) -> anyhow::Result<()> {
    let text = [byte; 512];
    for n in [16, 128, 512] {
        time_one(rt, name, quoter, up_to(&text, n))?;
    }
    Ok(())
}

pub fn time_quoters(rt: &HostRuntime) -> anyhow::Result<()> {
    time_lengths(rt, "single, plain", &Single, b'a')?;
    time_lengths(rt, "single, apostrophes", &Single, b'\'')?;
    time_lengths(rt, "backslash, plain", &Backslash, b'a')?;
    time_lengths(rt, "backslash, apostrophes", &Backslash, b'\'')
}
