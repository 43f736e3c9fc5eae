// The speed of listing scripts and of checking a template.
use crate::clock::{Timing, timed};
use crate::scripts::Family;
use aliases::table::AliasTable;
use listing::check::check_template;
use listing::list::list;
use listing::record::{Counts, Record, Sheet};

// The slots that a script's list takes.
fn slots_of(rt: &HostRuntime, script: &[u8]) -> anyhow::Result<Counts> {
    let aliases = AliasTable::new();
    let mut records = vec![in rt.alloc(); Record::default(); script.len()]?;
    let mut letters = vec![in rt.alloc(); 0u16; script.len()]?;
    let mut sheet = Sheet::new(&mut records, &mut letters);
    let _ = list(script, &aliases, &mut sheet);
    Ok(sheet.counts)
}

// Lists the script again and again, each time on an empty sheet, and tells how many records were added in all.
fn list_often(rounds: u32, script: &[u8], records: &mut [Record], letters: &mut [u16]) -> u64 {
    let aliases = AliasTable::new();
    let mut added: u64 = 0;
    for _ in 0..rounds {
        let mut sheet = Sheet::new(records, letters);
        if let Ok(n) = list(script, &aliases, &mut sheet) {
            added = added.saturating_add(n as u64);
        }
    }
    added
}

// The sheet has just enough room.
fn time_list(rt: &HostRuntime, family: &Family, bytes: usize, rounds: u32) -> anyhow::Result<()> {
    let script = family.script(rt.alloc(), bytes)?;
    let slots = slots_of(rt, &script)?;
    let mut records = vec![in rt.alloc(); Record::default(); slots.records]?;
    let mut letters = vec![in rt.alloc(); 0u16; slots.letters]?;
    let (added, spent) = timed(
        rt,
        || list_often(rounds, &script, &mut records, &mut letters),
    )?;
    let name = family.name;
    println!(rt; "{name} {bytes}: {added} records in {rounds} lists")?;
    let timing = Timing {
        name,
        bytes,
        rounds,
        spent,
    };
    eprintln!(rt; "{timing}")?;
    Ok(())
}

// How many of the checks accept the template.
fn check_often(rounds: u32, template: &[u8]) -> usize {
    let aliases = AliasTable::new();
    (0..rounds)
        .filter(|_| check_template(template, &aliases).is_ok())
        .count()
}

fn time_check(rt: &HostRuntime, rounds: u32) -> anyhow::Result<()> {
    let template = b"print article @{0} lot=@{1} >>\"$log\" $(stamp @{2}) | send @{3}";
    let bytes = template.len();
    let (accepted, spent) = timed(rt, || check_often(rounds, template))?;
    println!(rt; "template {bytes}: {accepted} of {rounds} checks accepted")?;
    let timing = Timing {
        name: "template",
        bytes,
        rounds,
        spent,
    };
    eprintln!(rt; "{timing}")?;
    Ok(())
}

pub fn time_lists(rt: &HostRuntime) -> anyhow::Result<()> {
    for family in &Family::ALL {
        time_list(rt, family, 16, 500_000)?;
        time_list(rt, family, 256, 40_000)?;
        time_list(rt, family, 4096, 2_500)?;
    }
    time_check(rt, 100_000)
}
