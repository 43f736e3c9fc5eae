// The holes that a template has.
ghost use Rattle.std.specs.Prelude.{◌≡◌, ℕ};
ghost use Rattle.listing.specs.Noting.{Noted};
ghost use Rattle.listing.specs.Laying.{noting};
ghost use Rattle.listing.specs.Masks.{mask_of, keep, take_hole};

use crate::places::Places;
use basics::refusal::Refusal;
use reader::sink::Sink;
use reading::act::{Act, Fault};
use tokens::letter::Letter;

// A bit for each hole met, hole 0 the lowest; nothing else is kept.
#[derive(Drop)]
pub struct HoleMask {
    pub(crate) places: Places,
    pub(crate) mask: u16,
}

impl Sink for HoleMask {
    ghost Sheet = { Noted ℕ };

    ghost sheet = { λ o. mask_of o };

    ghost writes = { noting keep take_hole };

    fn put(&mut self, act: Act, place: u16) -> Result<(), Refusal> {
        self.places.note(act, place);
        Ok(())
    }

    fn put_letter(&mut self, letter: Letter, place: u16) -> Result<(), Refusal> {
        Ok(())
    }

    fn refusal(&self, fault: Fault, place: u16) -> Refusal {
        self.places.refusal(fault, place)
    }

    fn put_hole(&mut self, digit: u8) -> Result<(), Refusal> {
        if digit < 10 {
            self.mask |= 1 << digit;
        }
        Ok(())
    }

    fn word_place(&self) -> u16 {
        self.places.word_place()
    }
}
