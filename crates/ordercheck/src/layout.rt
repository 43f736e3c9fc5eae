// Lays out what calls write on, with anything in the slots, so that what is left or changed there shows.
use super::desk::OwnDesk;
use super::draw::Draw;
use comparing::room::{below, beyond, sum};
use comparing::slots::Slots;
use listing::record::Counts;
use orders::outcome::{Done, Outcome};
use random::Numbers;
use std::alloc::AllocError;

fn each(count: usize) -> Counts {
    Counts {
        records: count,
        letters: count,
    }
}

impl Draw {
    // For so many calls, with about as many free slots as their lists need.
    pub fn desk(&mut self, calls: usize, need: Counts) -> Result<OwnDesk, AllocError> {
        let slots = self.slots(need)?;
        let page = self.page()?;
        let count = self.outcome_count(calls);
        let outcomes = self.outcomes(count)?;
        Ok(OwnDesk {
            page,
            slots,
            outcomes,
        })
    }

    // For so many calls, with a slot for what each says and just the slots that their lists need.
    pub fn enough(&mut self, calls: usize, need: Counts) -> Result<OwnDesk, AllocError> {
        let slots = Slots::with_anything(
            self.heap,
            &mut self.scripts.random,
            Counts::default(),
            need,
        )?;
        let page = self.page()?;
        let outcomes = self.outcomes(calls)?;
        Ok(OwnDesk {
            page,
            slots,
            outcomes,
        })
    }

    fn slots(&mut self, need: Counts) -> Result<Slots, AllocError> {
        let used = self.used();
        let all = sum(used, self.free(need));
        let random = &mut self.scripts.random;
        let mut slots = Slots::with_anything(self.heap, random, used, all)?;
        if random.once_in(12) {
            slots.counts = beyond(random, all);
        }
        Ok(slots)
    }

    // How many slots are used before.
    fn used(&mut self) -> Counts {
        let most = if self.once_in(2) { 1 } else { 5 };
        below(&mut self.scripts.random, each(most))
    }

    // How many slots are free: mostly enough for both, and at times too few for one or both.
    fn free(&mut self, need: Counts) -> Counts {
        let mut free = sum(need, below(&mut self.scripts.random, each(3)));
        let short = self.below(8);
        if short == 0 || short == 1 {
            free.records = self.below(need.records.saturating_add(1));
        }
        if short == 1 || short == 2 {
            free.letters = self.below(need.letters.saturating_add(1));
        }
        free
    }

    fn page(&mut self) -> Result<Vec<u8>, AllocError> {
        let mut page = Vec::new(self.heap);
        let random = &mut self.scripts.random;
        page.resize_with(random.below(20), || (random.next() & 0xff) as u8)?;
        Ok(page)
    }

    // Mostly one for each call, and at times fewer or more.
    fn outcome_count(&mut self, calls: usize) -> usize {
        match self.below(6) {
            0 => self.below(calls),
            1 => calls.saturating_add(self.below(3)),
            _ => calls,
        }
    }

    // Slots with what no call says so far.
    fn outcomes(&mut self, count: usize) -> Result<Vec<Outcome>, AllocError> {
        let mut outcomes = Vec::new(self.heap);
        outcomes.resize_with(count, || Ok(Done::Rendered(self.below(4096))))?;
        Ok(outcomes)
    }
}
