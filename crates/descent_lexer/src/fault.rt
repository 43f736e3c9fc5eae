// Why reading stopped: the text is refused, or there was no memory.
ghost use Rattle.std.specs.Prelude.{◌≡◌, Ok, Err};
ghost use Rattle.basics.specs.Checks.{refusal};
ghost use Rattle.basics.specs.declared.refusal.Refusal.{Refusal as ARefusal};

use basics::refusal::{Reason, Refusal};
use std::alloc::{AllocError, AllocFailed};

#[derive(Clone, Copy)]
pub enum Fault {
    Refused(Refusal),
    Memory(AllocError),
}

pub fn refused(reason: Reason, place: usize) -> Fault
    ensures { result ≡ Fault.Refused (refusal reason place) }
{
    Fault::Refused(Refusal { reason, place })
}

impl Fault {
    // The refusal, unless there was no memory.
    pub fn refusal(self) -> Result<Refusal, AllocError>
        ensures refused { (f : ARefusal) → self ≡ Fault.Refused f → result ≡ Ok f }
        ensures memory { (e : AllocError) → self ≡ Fault.Memory e → result ≡ Err e }
    {
        match self {
            Fault::Refused(refusal) => Ok(refusal),
            Fault::Memory(e) => Err(e),
        }
    }
}

impl From<AllocError> for Fault {
    fn from(e: AllocError) -> Fault {
        Fault::Memory(e)
    }
}

impl<T: Drop> From<AllocFailed<T>> for Fault {
    fn from(e: AllocFailed<T>) -> Fault {
        Fault::Memory(AllocError::from(e))
    }
}
