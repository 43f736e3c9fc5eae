// The script source: the caller's bytes, read where they lie.
ghost use Rattle.std.specs.Prelude.{◌≡◌, ◌≤◌, length, take, drop};
ghost use Rattle.source.specs.Symbols.{script};

use crate::source::Source;
use crate::symbol::{Sign, Symbol};
use basics::slices::up_to;

// The most bytes that a script may have.
pub const SCRIPT_LIMIT: usize = 4096;

#[derive(Drop)]
pub struct ScriptSource<'a> {
    text: &'a [u8],
    at: usize,
    ghost short: { length text.now ≤ 4096 },
}

impl<'a> ScriptSource<'a> {
    // The symbols of a script, from its start. Past the bytes that a script may have, nothing is read.
    pub fn new(text: &'a [u8]) -> Self
        ensures text { result.text.now ≡ take 4096 text.now }
        ensures at { result.at ≡ 0 }
    {
        ScriptSource {
            text: up_to(text, SCRIPT_LIMIT),
            at: 0,
        }
    }
}

impl Source for ScriptSource<'_> {
    ghost coming = { λ s. script (drop s.at s.text.now) s.at };

    ghost end = { λ s. length s.text.now };

    fn look(&self) -> Option<Symbol> {
        let byte = self.text.get(self.at)?;
        Some(Symbol {
            sign: Sign::Byte(*byte),
            place: self.at as u16,
        })
    }

    fn take(&mut self) {
        if self.at < self.text.len() {
            self.at += 1;
        }
    }

    fn end_place(&self) -> u16 {
        self.text.len() as u16
    }
}
