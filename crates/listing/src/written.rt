// What the reader writes on the free slots of a sheet.
ghost use Rattle.std.specs.Prelude.{◌+◌, ◌^◌, ◌<◌, unwrap_or};

use crate::places::Places;
use crate::record::{Counts, Record};
use basics::refusal::{Reason, Refusal};
use commands::item::Kind;
use reader::sink::Sink;
use reading::act::{Act, Fault};
use tokens::letter::Letter;

// How far the free slots are filled. Letters are written as they come, and count once their item is given.
#[derive(Clone, Copy)]
pub struct Fill {
    // the slots of the items given
    pub(crate) given: Counts,
    // the letters behind those, which wait for their item; none once a letter came for which there was no slot
    pub(crate) waiting: Option<usize>,
    ghost counted: { given.letters + unwrap_or waiting 0 < 2 ^ 64 },
}

#[derive(Drop)]
pub struct SheetOutput<'r, 'l> {
    pub(crate) places: Places,
    pub(crate) fill: Fill,
    // the letters of the sheet that stand before the free slots
    pub(crate) before: usize,
    pub(crate) records: &'r mut [Record],
    pub(crate) letters: &'l mut [u16],
}

impl SheetOutput<'_, '_> {
    ghost use Rattle.std.specs.Prelude.{◌≡◌};
    ghost use Rattle.reading.specs.Listed.{placing};
    ghost use Rattle.reader.specs.Held.{result_of};
    ghost use Rattle.listing.specs.Noting.{entered, places_of};
    ghost use Rattle.listing.specs.Writing.{slots_of, with_letter, with_item, without_letters, entry};

    fn letter(&mut self, letter: Letter)
        ensures left { slots_of self.new ≡ with_letter letter (slots_of self.old) }
        ensures places { places_of self.new.places ≡ places_of self.old.places }
    {
        if let Some(n) = self.fill.waiting {
            let at = self.fill.given.letters + n;
            // Stays: the index is tested by hand, since behind a lent slot a proof knows the slice's length and no element
            if at < self.letters.len() {
                self.letters[at] = u16::from(letter);
                self.fill.waiting = Some(n + 1);
            } else {
                self.fill.waiting = None;
            }
        }
    }

    fn item(&mut self, kind: Kind, depth: usize, place: usize) -> Result<(), Refusal>
        ensures left { result_of result (slots_of self.new) ≡ with_item kind depth place (slots_of self.old) }
        ensures places { places_of self.new.places ≡ places_of self.old.places }
    {
        match self.fill.waiting {
            Some(count) if self.fill.given.records < self.records.len() => {
                self.records[self.fill.given.records] = Record {
                    kind: kind.number(),
                    code: kind.code(),
                    depth,
                    first: self.before.saturating_add(self.fill.given.letters),
                    count,
                    place,
                };
                self.fill = Fill {
                    given: Counts {
                        records: self.fill.given.records + 1,
                        letters: self.fill.given.letters + count,
                    },
                    waiting: Some(0),
                };
                Ok(())
            }
            _ => Err(Reason::NoRoom.at(0)),
        }
    }

    // The letters since the last item are a replaced word's.
    fn forget(&mut self)
        ensures left { slots_of self.new ≡ without_letters (slots_of self.old) }
        ensures places { places_of self.new.places ≡ places_of self.old.places }
    {
        self.fill.waiting = Some(0);
    }

    fn write(&mut self, act: Act, place: u16) -> Result<(), Refusal>
        ensures left { result_of result (slots_of self.new) ≡ entered entry (placing.gives act place (places_of self.old.places)) (slots_of self.old) }
        ensures places { places_of self.new.places ≡ places_of self.old.places }
    {
        match act {
            Act::Letter(letter) => {
                self.letter(letter);
                Ok(())
            }
            Act::Item(kind, depth, at) => {
                let start = self.places.place_of(at, place);
                self.item(kind, depth, start)
            }
            Act::Forget => {
                self.forget();
                Ok(())
            }
            Act::WordHere
            | Act::WordAtBackslash
            | Act::WordAtDollar
            | Act::BackslashHere
            | Act::DollarHere
            | Act::OperatorHere
            | Act::BodyNext => Ok(()),
        }
    }
}

impl<'r, 'l> Sink for SheetOutput<'r, 'l> {
    ghost use Rattle.listing.specs.Noting.{Noted};
    ghost use Rattle.listing.specs.Laying.{noting};
    ghost use Rattle.listing.specs.Writing.{Slots, sheet_of, entry, no_hole};

    ghost Sheet = { Noted Slots };

    ghost sheet = { λ o. sheet_of o };

    ghost writes = { noting entry no_hole };

    fn put(&mut self, act: Act, place: u16) -> Result<(), Refusal> {
        self.write(act, place)?;
        self.places.note(act, place);
        Ok(())
    }

    fn put_letter(&mut self, letter: Letter, place: u16) -> Result<(), Refusal> {
        self.letter(letter);
        Ok(())
    }

    fn refusal(&self, fault: Fault, place: u16) -> Refusal {
        self.places.refusal(fault, place)
    }

    fn put_hole(&mut self, digit: u8) -> Result<(), Refusal> {
        Ok(())
    }

    fn word_place(&self) -> u16 {
        self.places.word_place()
    }
}
