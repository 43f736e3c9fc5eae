// A sheet: the caller's slots for records and letters, with a count of each.

// One item. Numbers, so that a caller in another language can read them.
#[repr(C)]
#[derive(Clone, Copy, Debug, Default, PartialEq, Eq)]
pub struct Record {
    pub kind: u8,
    // the role of a word, the operator's code, else 0
    pub code: u8,
    // how many frames are open
    pub depth: usize,
    // how many letters of the sheet stand before its own, and how many are its own
    pub first: usize,
    pub count: usize,
    // where it starts in the script
    pub place: usize,
}

// How many slots are used.
#[repr(C)]
#[derive(Clone, Copy, Debug, Default, PartialEq, Eq)]
pub struct Counts {
    pub records: usize,
    pub letters: usize,
}

// Each reference has a lifetime of its own.
#[derive(Drop)]
pub struct Sheet<'r, 'l> {
    pub counts: Counts,
    pub records: &'r mut [Record],
    pub letters: &'l mut [u16],
}

impl<'r, 'l> Sheet<'r, 'l> {
    ghost use Rattle.std.specs.Prelude.{◌≡◌};
    ghost use Rattle.listing.specs.Listing.{no_counts};

    // A sheet of these slots, of which none is used.
    pub fn new(records: &'r mut [Record], letters: &'l mut [u16]) -> Self
        ensures counts { result.counts ≡ no_counts }
        ensures records { result.records ≡ records.entry }
        ensures letters { result.letters ≡ letters.entry }
    {
        Sheet {
            counts: Counts::default(),
            records,
            letters,
        }
    }
}
