// How much room a sheet has.
ghost use Rattle.std.specs.Prelude.{◌≡◌, ◌+◌, ◌^◌, ◌<◌, ◌≤◌, max, IsSome, None, vec_len};
ghost use Rattle.comparing.specs.Counting.{plus};

use basics::refusal::{Reason, Refusal};
use descent_lexer::item::Reading;
use listing::record::Counts;
use random::Numbers;

// Where a script is listed: on a good sheet with so many free slots, or on a bad one, whose counts lie beyond its slots.
#[derive(Clone, Copy)]
pub enum Room {
    Free(Counts),
    Bad,
}

impl Room {
    // The refusal that a list of this reading is to have there. A script that may not be read at all is refused for that,
    // before its sheet.
    pub fn refusal(self, reading: &Reading) -> Option<Refusal>
        ensures fits { result ≡ None → (free : _) × (self ≡ Room.Free free) × (vec_len reading.now.items ≤ free.records) }
        ensures bad { self ≡ Room.Bad → IsSome result }
    {
        match self {
            Room::Free(free) => reading.refusal_within(free.records, free.letters),
            Room::Bad => Some(refusal_on_bad_sheet(reading)),
        }
    }
}

fn refusal_on_bad_sheet(reading: &Reading) -> Refusal {
    match reading.refusal {
        Some(refusal) if matches!(refusal.reason, Reason::TooLong | Reason::ZeroByte) => refusal,
        _ => Reason::NoRoom.at(0),
    }
}

// As much room as a reading's items take.
pub fn room_of(reading: &Reading) -> Counts
    ensures { result.records ≡ vec_len reading.now.items }
{
    Counts {
        records: reading.items.len(),
        letters: reading.letters(),
    }
}

pub fn sum(a: Counts, b: Counts) -> Counts
    ensures records { result.records ≡ plus a.records b.records }
    ensures letters { result.letters ≡ plus a.letters b.letters }
{
    Counts {
        records: a.records.saturating_add(b.records),
        letters: a.letters.saturating_add(b.letters),
    }
}

// Counts below others, or 0 where there are none.
pub fn below<R: Numbers>(random: &mut R, limit: Counts) -> Counts
    ensures records { result.records < max limit.records 1 }
    ensures letters { result.letters < max limit.letters 1 }
{
    Counts {
        records: random.below(limit.records),
        letters: random.below(limit.letters),
    }
}

// Counts of which one, or both, lie beyond so many slots.
pub fn beyond<R: Numbers>(random: &mut R, all: Counts) -> Counts
    ensures records { all.records ≤ result.records }
    ensures letters { all.letters ≤ result.letters }
    ensures beyond { all.records + all.letters + 1 < 2 ^ 64 → all.records + all.letters < result.records + result.letters }
{
    let mut counts = all;
    let which = random.below(3);
    if which != 0 {
        counts.records = all.records.saturating_add(1 + random.below(3));
    }
    if which != 1 {
        counts.letters = all.letters.saturating_add(1 + random.below(3));
    }
    counts
}
