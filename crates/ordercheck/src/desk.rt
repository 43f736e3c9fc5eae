// What calls are given to write on: a page, a sheet, and slots for what they say. The product's calls are made here.
use comparing::slots::Slots;
use orders::call::Call;
use orders::desk::Desk;
use orders::order::Order;
use orders::outcome::Outcome;
use orders::run::replay;
use quoting::quoter::Quoter;

// A desk with memory of its own.
#[derive(Clone, PartialEq, Drop)]
pub struct OwnDesk {
    pub page: Vec<u8>,
    pub slots: Slots,
    pub outcomes: Vec<Outcome>,
}

impl OwnDesk {
    // Lends it as the product takes it.
    fn lend<A, F: FnOnce(&mut Desk, &mut [Outcome]) -> A>(&mut self, work: F) -> A
        requires { F.IsAlwaysCallable work }
    {
        let mut sheet = self.slots.sheet();
        let mut desk = Desk {
            page: self.page.as_mut_slice(),
            sheet: &mut sheet,
        };
        let answer = work(&mut desk, self.outcomes.as_mut_slice());
        let counts = sheet.counts;
        self.slots.counts = counts;
        answer
    }

    // Has the product make an order, and these calls on it.
    pub fn replay<Q: Quoter + Drop>(&mut self, quoter: Q, calls: &[Call]) -> Order<Q> {
        self.lend(|desk, outcomes| replay(quoter, calls, desk, outcomes))
    }

    // Has it make these calls on an order.
    pub fn run<Q: Quoter>(&mut self, order: &mut Order<Q>, calls: &[Call]) {
        self.lend(|desk, outcomes| order.run(calls, desk, outcomes))
    }

    // The same, one by one.
    pub fn make_each<Q: Quoter>(&mut self, order: &mut Order<Q>, calls: &[Call]) {
        for (i, call) in calls.iter().enumerate() {
            let outcome = self.lend(|desk, _| order.make(call, desk));
            self.note(i, outcome);
        }
    }

    // Puts what a call says into the slot of its number, if there is one.
    pub fn note(&mut self, i: usize, outcome: Outcome) {
        if let Some(slot) = self.outcomes.get_mut(i) {
            *slot = outcome;
        }
    }
}
