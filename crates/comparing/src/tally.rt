// Counts of what was read.
ghost use Rattle.std.specs.Prelude.{◌≡◌, None, IsSome, vec_len};
ghost use Rattle.comparing.specs.Counting.{plus};

use basics::refusal::Refusal;
use descent_lexer::item::Reading;
use std::fmt;

#[derive(Clone, Copy)]
pub struct Tally {
    pub readings: u64,
    pub faultless: u64,
    // of those without fault
    pub items: u64,
    pub letters: u64,
}

impl Tally {
    pub fn new() -> Self
        ensures { result ≡ record { readings = 0; faultless = 0; items = 0; letters = 0 } }
    {
        Tally {
            readings: 0,
            faultless: 0,
            items: 0,
            letters: 0,
        }
    }

    // Counts one reading, which is refused or not in the room that it was given.
    pub fn add(&mut self, reading: &Reading, refusal: Option<Refusal>)
        ensures readings { self.new.readings ≡ plus self.old.readings 1 }
        ensures faultless { refusal ≡ None → self.new.faultless ≡ plus self.old.faultless 1 }
        ensures items { refusal ≡ None → self.new.items ≡ plus self.old.items (vec_len reading.now.items) }
        ensures refused { IsSome refusal → self.new ≡ record self.old { readings = plus self.old.readings 1 } }
    {
        self.readings = self.readings.saturating_add(1);
        if refusal.is_none() {
            self.faultless = self.faultless.saturating_add(1);
            self.items = self.items.saturating_add(reading.items.len() as u64);
            self.letters = self.letters.saturating_add(reading.letters() as u64);
        }
    }
}

impl fmt::Display for Tally {
    fn fmt<W: fmt::Write>(&self, f: &mut fmt::Formatter<W>) -> fmt::Result {
        write!(
            f,
            "{} readings, {} without fault, with {} items and {} letters",
            self.readings, self.faultless, self.items, self.letters
        )
    }
}
