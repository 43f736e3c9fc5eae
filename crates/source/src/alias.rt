// The alias source: the values of replaced words in front of what any other source gives.
ghost use Rattle.std.specs.Prelude.{◌≡◌, ℕ, ◌+◌, ◌≤◌, true, List, length, IsSome};
ghost use Rattle.std.specs.List.{list_any};
ghost use Rattle.std.specs.Str.{bytes_eq};
ghost use Rattle.aliases.specs.Tables.{aliases_of};
ghost use Rattle.source.specs.Replacing.{is_listed, replace_answer};
ghost use Rattle.source.specs.Opened.{first_of};
ghost use Rattle.source.specs.Fronts.{front, value_for, replaced, onward};

use crate::source::Source;
use crate::symbol::{Sign, Symbol};
use aliases::table::{ALIAS_LIMIT, AliasTable};
use arrayvec::ArrayVec;
use basics::refusal::{Reason, Refusal};
use std::marker::Model;

// The most words that are replaced in one reading.
pub const REPLACEMENT_LIMIT: usize = 64;

// A replaced word whose end is still to come: the name of its alias, what is left of the value, and the word's place.
#[derive(Clone, Copy, Default)]
struct Replacement<'a> {
    name: &'a [u8],
    rest: &'a [u8],
    place: u16,
}

impl Replacement<'_> {
    // The next byte of the value, or its end.
    fn first(&self) -> Symbol
        ensures { result ≡ first_of self.now }
    {
        Symbol {
            sign: match self.rest {
                [b, ..] => Sign::Byte(*b),
                [] => Sign::AliasEnd,
            },
            place: self.place,
        }
    }
}

// Whether one of them is of this name.
fn is_among(name: &[u8], opened: &[Replacement<'_>]) -> bool
    ensures { result ≡ list_any (λ r. bytes_eq name.now r.name.now) opened.now }
{
    opened.iter().any(|inner| name == inner.name)
}

// The open replacements, the innermost last. No two are of the same alias, so there is room for one of each alias.
// Values are read where they lie in the table.
// What is open and what may still be replaced are 64 together at most, since each replacement takes one of these.
#[derive(Drop)]
pub struct AliasSource<'a, S: Source> {
    below: S,
    table: &'a AliasTable,
    opened: ArrayVec<Replacement<'a>, ALIAS_LIMIT>,
    left: usize,
}

// Seen as what it gives and what may still be replaced.
impl<'a, S: Source> Model for AliasSource<'a, S> {
    ghost use Rattle.std.specs.Prelude.{◌+◌, ◌≤◌, length};
    ghost use Rattle.source.specs.Front.{Front};
    ghost use Rattle.source.specs.Opened.{AreOpen, open_names, seen};

    ghost Value = { Front };

    ghost view = { λ p. seen p.opened.items (S.Source.coming p.below) (S.Source.end p.below) p.left p.table.now };

    ghost invariant = { λ p. AreOpen p.table.now (open_names p.opened.items) × (length (open_names p.opened.items) + p.left ≤ 64) };
}

impl<'a, S: Source> AliasSource<'a, S> {
    // The source below, with no word replaced yet.
    pub fn new(below: S, table: &'a AliasTable) -> Self
        ensures { result ≡ front (S.Source.coming below) (S.Source.end below) table.now }
    {
        AliasSource {
            below,
            table,
            opened: ArrayVec::new(),
            left: REPLACEMENT_LIMIT,
        }
    }

    // Whether the end of this name's alias is still to come.
    pub fn is_open(&self, name: &[u8]) -> bool
        ensures is { result ≡ is_listed name.now self.now.names }
        ensures few { length self.now.names ≤ 8 }
        ensures bounded { length self.now.names + self.now.left ≤ 64 }
        ensures ends { length self.now.names ≤ length self.now.coming }
        ensures known { (n : List ℕ) → is_listed n self.now.names ≡ true → IsSome ((aliases_of self.now.table).named n) }
    {
        is_among(name, &self.opened)
    }

    // Replaces a word by the value of its alias, and says whether it does; the 65th replacement is refused. The word's
    // place goes to each symbol of the value, so a word in a value has the place of the outermost replaced word.
    pub fn replace(&mut self, word: &[u8], place: u16) -> Result<bool, Refusal>
        ensures said { result ≡ replace_answer (value_for self.old word.now) self.old.left place }
        ensures after { self.new ≡ replaced (value_for self.old word.now) self.old word.now place }
        ensures grows { length self.new.coming ≤ length self.old.coming + 65 }
        ensures few { length self.old.names ≤ 8 }
        ensures bounded { length self.old.names + self.old.left ≤ 64 }
    {
        let Some(index) = self.table.find(word) else {
            return Ok(false);
        };
        if self.is_open(word) {
            return Ok(false);
        }
        if self.left == 0 {
            return Err(Reason::TooManyReplacements.at(usize::from(place)));
        }
        self.left -= 1;
        self.opened.push(Replacement {
            name: self.table.name_at(index),
            rest: self.table.value_at(index),
            place,
        });
        Ok(true)
    }
}

impl<S: Source> Source for AliasSource<'_, S> {
    ghost coming = { λ p. p.coming };

    ghost end = { λ p. p.end };

    fn look(&self) -> Option<Symbol> {
        match self.opened.last() {
            Some(inner) => Some(inner.first()),
            None => self.below.look(),
        }
    }

    fn take(&mut self)
        ensures { self.new ≡ onward self.old }
    {
        match self.opened.pop() {
            Some(inner) => {
                if let [_, rest @ ..] = inner.rest {
                    self.opened.push(Replacement { rest, ..inner });
                }
            }
            None => self.below.take(),
        }
    }

    fn end_place(&self) -> u16 {
        self.below.end_place()
    }
}
