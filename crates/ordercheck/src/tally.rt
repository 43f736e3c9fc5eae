// Counts of what calls say.
use super::request::CallKind;
use comparing::refusals::{REASONS, Refusals};
use orders::outcome::Outcome;
use std::alloc::{AllocError, Global};
use std::collections::BTreeMap;
use std::io;

// What calls of one kind said.
#[derive(Drop)]
struct KindTally {
    accepted: u64,
    refused: Refusals,
}

impl KindTally {
    fn new() -> Self {
        KindTally {
            accepted: 0,
            refused: Refusals::new(),
        }
    }

    fn add(&mut self, outcome: Outcome) {
        match outcome {
            Ok(_) => self.accepted = self.accepted.saturating_add(1),
            Err(refusal) => self.refused.add(refusal.reason),
        }
    }

    fn show(&self, rt: &HostRuntime, kind: CallKind) -> io::Result<()> {
        println!(rt; "{kind}: {} accepted", self.accepted)?;
        for reason in REASONS {
            let times = self.refused.times(reason);
            if times > 0 {
                println!(rt;
                    "{kind}: {times} refused {} {}",
                    u8::from(reason),
                    reason.words()
                )?;
            }
        }
        Ok(())
    }
}

#[derive(Drop)]
pub struct Tally {
    pub orders: u64,
    calls: u64,
    // calls that had no slot for what they said
    unheard: u64,
    // names that were listed after an order's calls
    names: u64,
    kinds: BTreeMap<CallKind, KindTally>,
}

impl Tally {
    pub fn new(heap: Global) -> Tally {
        Tally {
            orders: 0,
            calls: 0,
            unheard: 0,
            names: 0,
            kinds: BTreeMap::new(heap),
        }
    }

    // Counts an order, and the names that were listed after its calls.
    pub fn add_order(&mut self, names: usize) {
        self.orders = self.orders.saturating_add(1);
        self.names = self.names.saturating_add(names as u64);
    }

    // Counts a call and what it said.
    pub fn add(&mut self, kind: CallKind, outcome: Outcome) -> Result<(), AllocError> {
        self.calls = self.calls.saturating_add(1);
        let of_kind = self.kinds.entry(kind)?.or_insert(KindTally::new());
        of_kind.add(outcome);
        Ok(())
    }

    // Counts calls that had no slot.
    pub fn add_unheard(&mut self, calls: usize) {
        self.unheard = self.unheard.saturating_add(calls as u64);
    }

    pub fn show(&self, rt: &HostRuntime) -> io::Result<()> {
        println!(rt;
            "{} orders, {} calls, {} of them without a slot for what they say",
            self.orders, self.calls, self.unheard
        )?;
        println!(rt;
            "{} of the lists are of one name each, after an order's other calls",
            self.names
        )?;
        for (kind, tally) in self.kinds.iter() {
            tally.show(rt, *kind)?;
        }
        Ok(())
    }
}
