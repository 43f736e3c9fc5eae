// How often readings and calls are refused for each reason.
ghost use Rattle.std.specs.Prelude.{◌≡◌, ℕ, List, slice_index, slice_set, replicate};
ghost use Rattle.basics.specs.Refusals.{number_of};
ghost use Rattle.comparing.specs.Counting.{plus};

use basics::refusal::Reason;
use std::marker::Model;

// All reasons, by their numbers.
pub static REASONS: [Reason; 20] = [
    Reason::TooLong,
    Reason::ZeroByte,
    Reason::BadAlias,
    Reason::BadHole,
    Reason::OpenQuote,
    Reason::ExpansionNotTaken,
    Reason::TooDeep,
    Reason::HoleNotTaken,
    Reason::OutOfPlace,
    Reason::Unfinished,
    Reason::HereDocument,
    Reason::NoRoom,
    Reason::TooManyReplacements,
    Reason::TemplateLoaded,
    Reason::NoTemplate,
    Reason::TooManyAliases,
    Reason::NoSuchAlias,
    Reason::Unbound,
    Reason::NoSuchHole,
    Reason::ScriptTooLong,
];

#[derive(Drop)]
pub struct Refusals {
    // by the number of the reason
    times: [u64; 28],
}

impl Model for Refusals {
    ghost Value = { List ℕ };

    ghost view = { λ r. r.times };
}

impl Refusals {
    pub fn new() -> Self
        ensures { result ≡ replicate 28 0 }
    {
        Refusals { times: [0; 28] }
    }

    pub fn add(&mut self, reason: Reason)
        ensures { self.new ≡ slice_set self.old (number_of reason) (plus (slice_index self.old (number_of reason)) 1) }
    {
        let n = usize::from(u8::from(reason));
        self.times[n] = self.times[n].saturating_add(1);
    }

    // How often this one was given.
    pub fn times(&self, reason: Reason) -> u64
        ensures { result ≡ slice_index self.now (number_of reason) }
    {
        self.times[usize::from(u8::from(reason))]
    }
}
