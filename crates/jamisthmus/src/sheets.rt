// Lists, each made on new slots of its own.
use aliases::table::AliasTable;
use basics::refusal::Refusal;
use journal::listed::Listed;
use listing::list::{NO_RECORD, list};
use listing::record::{Counts, Sheet};
use std::alloc::{AllocError, Global};
use thiserror::Error;

// More slots than a list can use. A script has 4,096 bytes at most, and 64 replacements of at most 64 bytes each may be
// read in it; no byte gives more than four items, nor more than one letter.
const MOST_RECORDS: usize = 33_000;

const MOST_LETTERS: usize = 8_200;

// Why a script is not listed.
#[derive(Debug, Drop, Error)]
pub enum Unlisted {
    #[error("refused {0}")]
    Refused(#[from] Refusal),
    #[error(transparent)]
    Memory(#[from(alloc)] AllocError),
}

// So many slots, or as many as a list can use.
pub fn new_slots(heap: Global, records: usize, letters: usize) -> Result<Listed, AllocError> {
    Ok(Listed {
        records: vec![in heap; NO_RECORD; records.min(MOST_RECORDS)]?,
        letters: vec![in heap; 0u16; letters.min(MOST_LETTERS)]?,
    })
}

// A sheet on these slots.
pub fn sheet_on(slots: &mut Listed) -> Sheet<'_, '_> {
    Sheet::new(slots.records.as_mut_slice(), slots.letters.as_mut_slice())
}

// Keeps only the slots that are used.
pub fn cut(slots: &mut Listed, used: Counts) {
    slots.records.truncate(used.records);
    slots.letters.truncate(used.letters);
}

// Lists a script on as many slots as it can use.
pub fn list_script(heap: Global, script: &[u8], aliases: &AliasTable) -> Result<Listed, Unlisted> {
    let mut slots = new_slots(heap, MOST_RECORDS, MOST_LETTERS)?;
    let mut sheet = sheet_on(&mut slots);
    list(script, aliases, &mut sheet)?;
    let used = sheet.counts;
    cut(&mut slots, used);
    Ok(slots)
}
