// A sink takes what the reader writes: letters, items and notes of places. What it holds, and what an act makes of that, each sink says for itself.
ghost use Rattle.std.specs.Prelude.{◌≡◌, ℕ, Result};
ghost use Rattle.reading.specs.declared.act.Act.TheVariants as act;
ghost use Rattle.tokens.specs.Letters.{marked};
ghost use Rattle.reading.specs.Steps.{fault};
ghost use Rattle.reader.specs.Held.{result_of};
ghost use Rattle.reader.specs.Sheets.{Sheets};

use basics::refusal::{Reason, Refusal};
use reading::act::{Act, At, Fault};
use tokens::letter::{Letter, Mark};

pub trait Sink {
    // what it holds
    ghost Sheet: { Type 0 };

    ghost sheet: { Self → Sheet };
    // what the calls below make of it
    ghost writes: { Sheets Sheet };

    fn put(&mut self, act: Act, place: u16) -> Result<(), Refusal>
        ensures { result_of result (sheet self.new) ≡ writes.written act place (sheet self.old) };

    // The same for a letter: the act that is most frequent, so that a sink may have a shorter way for it.
    fn put_letter(&mut self, letter: Letter, place: u16) -> Result<(), Refusal>
        ensures { result_of result (sheet self.new) ≡ writes.written (act.Letter letter) place (sheet self.old) }
    {
        self.put(Act::Letter(letter), place)
    }

    fn refusal(&self, fault: Fault, place: u16) -> Refusal
        ensures { result ≡ writes.placed fault place (sheet self.now) };

    fn put_hole(&mut self, digit: u8) -> Result<(), Refusal>
        ensures { result_of result (sheet self.new) ≡ writes.filled digit (sheet self.old) };

    fn word_place(&self) -> u16
        ensures { result ≡ writes.word (sheet self.now) };
}

// A sink, and the place at which is written.
#[derive(Drop)]
pub struct Pen<'w, W> {
    pub out: &'w mut W,
    pub place: u16,
}

impl<W: Sink> Pen<'_, W> {
    ghost use Rattle.reading.specs.States.{State};
    ghost use Rattle.reading.specs.Steps.{writes, done};
    ghost use Rattle.reading.specs.Laid.{held};
    ghost use Rattle.reader.specs.Pens.{page_of, put_on, fill_on, refused_on, step_on, SamePen};

    pub fn put(&mut self, act: Act) -> Result<(), Refusal>
        ensures laid { result_of result (page_of W.Sink.sheet self.new) ≡ put_on W.Sink.writes act (page_of W.Sink.sheet self.old) }
        ensures pen { SamePen self.old self.new }
    {
        self.out.put(act, self.place)
    }

    pub fn letter(&mut self, mark: Mark, byte: u8) -> Result<(), Refusal>
        ensures laid { result_of result (page_of W.Sink.sheet self.new) ≡ put_on W.Sink.writes (act.Letter (marked mark byte)) (page_of W.Sink.sheet self.old) }
        ensures pen { SamePen self.old self.new }
    {
        self.out.put_letter(Letter { mark, byte }, self.place)
    }

    // Letters of one mark, one after another.
    pub fn letters(&mut self, mark: Mark, bytes: &[u8]) -> Result<(), Refusal>
        ensures laid { (i : State) → result_of result (held i (page_of W.Sink.sheet self.new)) ≡ step_on W.Sink.writes (writes mark bytes.now (done i)) (page_of W.Sink.sheet self.old) }
        ensures pen { SamePen self.old self.new }
    {
        for &byte in bytes {
            self.letter(mark, byte)?;
        }
        Ok(())
    }

    // The letter of a hole.
    pub fn hole(&mut self, digit: u8) -> Result<(), Refusal>
        ensures laid { result_of result (page_of W.Sink.sheet self.new) ≡ fill_on W.Sink.writes digit (page_of W.Sink.sheet self.old) }
        ensures pen { SamePen self.old self.new }
    {
        self.out.put_hole(digit)
    }

    pub fn refusal(&self, reason: Reason, at: At) -> Refusal
        ensures { result ≡ refused_on W.Sink.writes (fault reason at) (page_of W.Sink.sheet self.now) }
    {
        self.out.refusal(Fault { reason, at }, self.place)
    }
}
