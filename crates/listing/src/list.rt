// Lists a script's items on a sheet.
ghost use Rattle.std.specs.Prelude.{◌≡◌, ◌+◌, ◌^◌, ◌<◌, ◌≤◌, length, take, Some};
ghost use Rattle.aliases.specs.Tables.{aliases_of};
ghost use Rattle.basics.specs.Checks.{answer, or_else, refusal};
ghost use Rattle.basics.specs.declared.refusal.Reason.TheVariants.{NoRoom};
ghost use Rattle.reading.specs.Laid.{and};
ghost use Rattle.reading.specs.Listed.{script_reading};
ghost use Rattle.listing.specs.Listing.{script_check, on_slots, taken, counting, filled, filling, Within, unless_refused, left, held, after, listed_on, Lists};

use crate::clear::clear;
use crate::places::Places;
use crate::read::read;
use crate::record::{Counts, Record, Sheet};
use crate::text::check_text;
use crate::written::{Fill, SheetOutput};
use aliases::table::AliasTable;
use basics::refusal::{Reason, Refusal};
use source::alias::AliasSource;
use source::script::{SCRIPT_LIMIT, ScriptSource};

// What stands in a slot that is not used.
pub const NO_RECORD: Record = Record {
    kind: 0,
    code: 0,
    depth: 0,
    first: 0,
    count: 0,
    place: 0,
};

// A script is not too long, and has no byte 0.
pub fn check_script(script: &[u8]) -> Result<(), Refusal>
    ensures { result ≡ answer (script_check script.now) tt }
{
    check_text(script, SCRIPT_LIMIT)
}

// Writes a script's items on free slots, behind that many letters of the sheet, and tells how many slots they take.
// Stays: the free slots are parameters. A struct of them was tried in three ways: passed by value it is not covered; by `&mut` a
// slice in it is not known to keep its length where the reading is refused; with a fact about its slices it hides what they end as.
fn write_items(
    script: &[u8],
    aliases: &AliasTable,
    before: usize,
    records: &mut [Record],
    letters: &mut [u16],
) -> Result<Counts, Refusal>
    requires { before + length letters.old < 2 ^ 64 }
    ensures { taken result records.new letters.new ≡ and (on_slots before (length records.old) (length letters.old) (script_reading (aliases_of aliases.now).named (take 4096 script.now))) counting }
{
    let mut source = AliasSource::new(ScriptSource::new(script), aliases);
    let mut out = SheetOutput {
        places: Places::new(),
        fill: Fill {
            given: Counts {
                records: 0,
                letters: 0,
            },
            waiting: Some(0),
        },
        before,
        records,
        letters,
    };
    read(&mut source, &mut out)?;
    Ok(out.fill.given)
}

// The same for a script that is to be checked first.
fn write_checked(
    script: &[u8],
    aliases: &AliasTable,
    before: usize,
    records: &mut [Record],
    letters: &mut [u16],
) -> Result<Counts, Refusal>
    requires { before + length letters.old < 2 ^ 64 }
    ensures { taken result records.new letters.new ≡ and (unless_refused (script_check script.now) (on_slots before (length records.old) (length letters.old) (script_reading (aliases_of aliases.now).named script.now))) counting }
{
    check_script(script)?;
    write_items(script, aliases, before, records, letters)
}

// The same, and zeros in the slots that stay free.
fn fill_slots(
    script: &[u8],
    aliases: &AliasTable,
    before: usize,
    records: &mut [Record],
    letters: &mut [u16],
) -> Result<Counts, Refusal>
    requires { before + length letters.old < 2 ^ 64 }
    ensures filled { filled result records.new letters.new ≡ filling (length records.old) (length letters.old) (unless_refused (script_check script.now) (on_slots before (length records.old) (length letters.old) (script_reading (aliases_of aliases.now).named script.now))) }
    ensures within { Within result (length records.old) (length letters.old) }
{
    let answer = write_checked(script, aliases, before, records, letters);
    let used = answer.unwrap_or_default();
    clear(records, used.records, NO_RECORD);
    clear(letters, used.letters, 0);
    answer
}

// Puts the counts of a sheet, which a list claims while it is written, back on every way out, unless the list was accepted.
struct CountGuard<'c> {
    counts: &'c mut Counts,
    before: Counts,
}

impl Drop for CountGuard<'_> {
    fn drop(self)
        ensures { self.exit.0.now ≡ self.entry.before }
    {
        *self.counts = self.before;
        let CountGuard {
            counts: _,
            before: _,
        } = self;
    }
}

impl CountGuard<'_> {
    // The list is accepted, and these are the counts.
    fn accept(self, counts: Counts)
        ensures { self.exit.0.now ≡ counts }
    {
        *self.counts = counts;
        let CountGuard {
            counts: _,
            before: _,
        } = self;
    }
}

// All slots are the list's while it is written: whoever looks at the sheet then finds no room on it.
fn claim(counts: &mut Counts, records: usize, letters: usize)
    ensures { counts.new ≡ record { records = records; letters = letters } }
{
    *counts = Counts { records, letters };
}

// Lists on a good sheet.
fn list_behind(
    script: &[u8],
    aliases: &AliasTable,
    counts: &mut Counts,
    records: &mut [Record],
    letters: &mut [u16],
) -> Result<usize, Refusal>
    requires records_in_bounds { counts.old.records ≤ length records.old }
    requires letters_in_bounds { counts.old.letters ≤ length letters.old }
    ensures { left result (held counts.new records.new letters.new) ≡ after (held counts.old records.old letters.old) (listed_on (aliases_of aliases.now).named script.now (held counts.old records.old letters.old)) }
{
    let before = *counts;
    let (first_record, first_letter) = (before.records, before.letters);
    let guard = CountGuard { counts, before };
    claim(guard.counts, records.len(), letters.len());
    let added = fill_slots(
        script,
        aliases,
        first_letter,
        &mut records[first_record..],
        &mut letters[first_letter..],
    )?;
    guard.accept(Counts {
        records: first_record + added.records,
        letters: first_letter + added.letters,
    });
    Ok(added.records)
}

// A bad sheet is refused after a bad script.
fn refuse_sheet(script: &[u8]) -> Result<usize, Refusal>
    ensures { result ≡ answer (or_else (script_check script.now) (Some (refusal NoRoom 0))) 0 }
{
    check_script(script)?;
    Err(Reason::NoRoom.at(0))
}

// Lists a script's items, under the aliases, behind the counts of a sheet, and tells how many records it added.
pub fn list(script: &[u8], aliases: &AliasTable, sheet: &mut Sheet) -> Result<usize, Refusal>
    ensures { Lists (aliases_of aliases.now).named script.now sheet.old sheet.new result }
{
    let Sheet {
        counts,
        records,
        letters,
    } = sheet;
    if counts.records <= records.len() && counts.letters <= letters.len() {
        list_behind(script, aliases, counts, records, letters)
    } else {
        refuse_sheet(script)
    }
}
