// Sheets to list on, with anything in their slots, so that what is left or changed there shows.
ghost use Rattle.std.specs.Prelude.{IfOk, ◌<◌};
ghost use Rattle.readercheck.specs.Sheets.{IsLaidOut};

use comparing::room::{Room, below, beyond, sum};
use comparing::slots::Slots;
use listing::record::Counts;
use random::{Numbers, Random};
use std::alloc::{AllocError, Global};

const FEW: Counts = Counts {
    records: 4,
    letters: 4,
};

// How many slots are used before a list: mostly none.
fn some_used(random: &mut Random) -> Counts
    ensures records { result.records < 4 }
    ensures letters { result.letters < 4 }
{
    if random.once_in(4) {
        below(random, FEW)
    } else {
        Counts::default()
    }
}

// A good sheet with these free slots, behind used ones at times, or a bad one.
pub fn lay_out(heap: Global, random: &mut Random, room: Room) -> Result<Slots, AllocError>
    ensures { IfOk result (IsLaidOut room) }
{
    let (counts, all) = match room {
        Room::Free(free) => {
            let used = some_used(random);
            (used, sum(used, free))
        }
        Room::Bad => {
            let all = below(random, FEW);
            (beyond(random, all), all)
        }
    };
    Slots::with_anything(heap, random, counts, all)
}
