// The slots of a sheet, and what is to stand there after a list, by what the second reader read.
ghost use Rattle.std.specs.Prelude.{◌≡◌, ◌<◌, ◌≤◌, ◌-◌, true, false, vec_len, OnOk, IfOk, IsErr};

use super::room::Room;
use basics::refusal::Refusal;
use descent_lexer::item::{Item, Reading};
use listing::record::{Counts, Record, Sheet};
use random::Numbers;
use std::alloc::{AllocError, Global};

// What a list leaves in a free slot.
// Stays: the product has the same constant; the comparison shares nothing with what it compares.
const NO_RECORD: Record = Record {
    kind: 0,
    code: 0,
    depth: 0,
    first: 0,
    count: 0,
    place: 0,
};

// What a list says: how many records it added, or why it is refused.
pub type Answer = Result<usize, Refusal>;

#[derive(Clone, PartialEq, Drop)]
pub struct Slots {
    pub counts: Counts,
    pub records: Vec<Record>,
    pub letters: Vec<u16>,
}

fn any_letter<R: Numbers>(random: &mut R) -> u16 {
    (random.next() & 0xffff) as u16
}

fn any_record<R: Numbers>(random: &mut R) -> Record {
    let bits = random.next();
    Record {
        kind: (bits & 0xff) as u8,
        code: (bits >> 8 & 0xff) as u8,
        depth: (bits >> 16 & 0xff) as usize,
        first: (bits >> 24 & 0xfff) as usize,
        count: (bits >> 36 & 0xfff) as usize,
        place: (bits >> 48) as usize,
    }
}

impl Slots {
    ghost use Rattle.std.specs.Prelude.{[], ◌∷◌, ◌+◌, ◌++◌};
    ghost use Rattle.comparing.specs.Slots.{is_good, record_of, letters_of, given, IsFilled};

    // So many slots, with anything in them, under these counts.
    pub fn with_anything<R: Numbers>(
        heap: Global,
        random: &mut R,
        counts: Counts,
        all: Counts,
    ) -> Result<Slots, AllocError>
        ensures counts { IfOk result (λ s. s.counts ≡ counts) }
        ensures records { IfOk result (λ s. vec_len s.records ≡ all.records) }
        ensures letters { IfOk result (λ s. vec_len s.letters ≡ all.letters) }
    {
        let mut records = Vec::new(heap);
        records.resize_with(all.records, || any_record(random))?;
        let mut letters = Vec::new(heap);
        letters.resize_with(all.letters, || any_letter(random))?;
        Ok(Slots {
            counts,
            records,
            letters,
        })
    }

    // Lends the slots as a sheet. Its counts are its own: whoever fills it puts them back.
    pub fn sheet(&mut self) -> Sheet<'_, '_>
        ensures { result.counts ≡ self.old.counts }
    {
        Sheet {
            counts: self.counts,
            records: self.records.as_mut_slice(),
            letters: self.letters.as_mut_slice(),
        }
    }

    // How many there are.
    pub fn all(&self) -> Counts
        ensures records { result.records ≡ vec_len self.now.records }
        ensures letters { result.letters ≡ vec_len self.now.letters }
    {
        Counts {
            records: self.records.len(),
            letters: self.letters.len(),
        }
    }

    fn is_good(&self) -> bool
        ensures { result ≡ is_good self.now }
    {
        self.counts.records <= self.records.len() && self.counts.letters <= self.letters.len()
    }

    fn room(&self) -> Room
        ensures free { is_good self.now ≡ true → result ≡ Room.Free (record { records = vec_len self.now.records - self.now.counts.records; letters = vec_len self.now.letters - self.now.counts.letters }) }
        ensures bad { is_good self.now ≡ false → result ≡ Room.Bad }
    {
        if self.is_good() {
            Room::Free(Counts {
                records: self.records.len() - self.counts.records,
                letters: self.letters.len() - self.counts.letters,
            })
        } else {
            Room::Bad
        }
    }

    // What a list of this reading is to say, and to leave on these slots: all of its items or, where it is refused, none.
    pub fn receive(&mut self, reading: &Reading) -> Result<Answer, AllocError>
        ensures accepted { IfOk result (λ answer. IfOk answer (λ added. added ≡ vec_len reading.now.items)) }
        ensures fits { is_good self.old ≡ true → IfOk result (λ answer. IfOk answer (λ added. self.old.counts.records + added ≤ vec_len self.old.records)) }
        ensures filled { is_good self.old ≡ true → IfOk result (λ answer. IsFilled self.old (given answer reading.now) self.new) }

        // A bad sheet is left as it is.
        ensures refused { is_good self.old ≡ false → IfOk result (λ answer. IsErr answer) }
        ensures kept { is_good self.old ≡ false → self.new ≡ self.old }
    {
        let refusal = self.room().refusal(reading);
        if self.is_good() {
            let items = reading.items.as_slice();
            self.put_behind(if refusal.is_none() { items } else { &[] })?;
        }
        Ok(refusal.map_or(Ok(reading.items.len()), Err))
    }

    // Puts items behind the counts, and zeros in the slots that stay free.
    fn put_behind(&mut self, items: &[Item]) -> Result<(), AllocError>
        requires { is_good self.old ≡ true }
        ensures { OnOk result (IsFilled self.old items.now self.new) }
    {
        let all = self.all();
        self.records.truncate(self.counts.records);
        self.letters.truncate(self.counts.letters);
        for item in items {
            self.put(item)?;
        }
        self.counts = self.all();
        self.records.resize(all.records, NO_RECORD)?;
        self.letters.resize(all.letters, 0)
    }

    fn put(&mut self, item: &Item) -> Result<(), AllocError>
        ensures counts { self.new.counts ≡ self.old.counts }
        ensures records { OnOk result (self.new.records.items ≡ self.old.records.items ++ record_of (vec_len self.old.letters) item.now ∷ []) }
        ensures letters { OnOk result (self.new.letters.items ≡ self.old.letters.items ++ letters_of item.now) }
        ensures before { OnOk result (vec_len self.new.letters ≡ vec_len self.old.letters + vec_len item.now.letters) }
    {
        self.records.push(Record {
            kind: item.kind.number(),
            code: item.kind.code(),
            depth: item.depth,
            first: self.letters.len(),
            count: item.letters.len(),
            place: item.place,
        })?;
        for letter in item.letters.iter() {
            self.letters.push(u16::from(*letter))?;
        }
        Ok(())
    }
}
