// The speed of quoting: nanoseconds a byte to standard error, and counts alone to standard output. `bench lists` times lists too, and
// `bench script FAMILY` writes the script that is listed, so that a shell can be timed on the same bytes.
#![tactic(auto)]

mod clock;
mod lists;
mod quotes;
mod scripts;

use scripts::Family;
use std::env;
use std::io::Write;

// The longest script that may be listed, of a family.
fn show(rt: &HostRuntime, name: &str) -> anyhow::Result<()> {
    if let Some(family) = Family::ALL.iter().find(|family| family.name == name) {
        let script = family.script(rt.alloc(), 4096)?;
        rt.stdout().write_all(&script)?;
    }
    Ok(())
}

fn run(rt: &HostRuntime) -> anyhow::Result<()> {
    let mut words = env::args(rt)?;
    words.next();
    let Some(_) = words.next() else {
        return quotes::time_quoters(rt);
    };
    match words.next() {
        Some(name) => show(rt, name.as_str()),
        None => {
            quotes::time_quoters(rt)?;
            lists::time_lists(rt)
        }
    }
}

fn main(rt: HostRuntime) -> anyhow::Result<()> {
    run(&rt)
}
