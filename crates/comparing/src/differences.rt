// Where a reading is not as it is to be: how often, and the first few.
ghost use Rattle.std.specs.Prelude.{◌≡◌, ◌+◌, ◌^◌, ◌<◌};

use basics::refusal::Refusal;
use std::alloc::{AllocError, Global};
use std::{fmt, io};

// So many are kept to be looked at.
const KEPT: usize = 3;

// What a reader or an order says, to be shown.
#[derive(Clone, Copy)]
pub struct Said<T>(pub Result<T, Refusal>);

impl<T: fmt::Display> fmt::Display for Said<T> {
    fn fmt<W: fmt::Write>(&self, f: &mut fmt::Formatter<W>) -> fmt::Result {
        match &self.0 {
            Ok(done) => write!(f, "{done}"),
            Err(refusal) => write!(f, "refused {refusal}"),
        }
    }
}

#[derive(Drop)]
pub struct Differences<D> {
    pub count: u64,
    first: Vec<D>,
}

impl<D: Drop> Differences<D> {
    pub fn new(heap: Global) -> Self
        ensures { result.count ≡ 0 }
    {
        Differences {
            count: 0,
            first: Vec::new(heap),
        }
    }

    // Counts a difference, and makes what is shown of it if it is one of the first few.
    pub fn add<F: FnOnce() -> Result<D, AllocError> + Drop>(
        &mut self,
        make: F,
    ) -> Result<(), AllocError>
        requires { F.IsAlwaysCallable make }
        ensures { self.old.count + 1 < 2 ^ 64 → self.new.count ≡ self.old.count + 1 }
    {
        self.count = self.count.saturating_add(1);
        if self.first.len() < KEPT {
            self.first.push(make()?)?;
        }
        Ok(())
    }
}

impl<D: fmt::Display> Differences<D> {
    // The first few, for whoever looks on, and how many there are.
    pub fn show(&self, rt: &HostRuntime) -> io::Result<()> {
        for difference in self.first.iter() {
            eprintln!(rt; "{difference}")?;
        }
        println!(rt; "{} differ", self.count)
    }
}
