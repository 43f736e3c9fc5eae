// What an order holds, apart from its quoter. It has no invariant of its own, so that a text can be lent where it lies.
ghost use Rattle.std.specs.Prelude.{⊤, ◌≡◌};
ghost use Rattle.basics.specs.Checks.{answer};
ghost use Rattle.orders.specs.Book.{none_loaded};
ghost use Rattle.orders.specs.Holding.{book_of};

use crate::template::Template;
use crate::text::Text;
use aliases::table::AliasTable;
use basics::refusal::{Reason, Refusal};
use std::alloc::AllocError;

// How many holes there may be: one for each digit.
pub const HOLES: usize = 10;

#[derive(Copy)]
pub struct Contents {
    pub(crate) aliases: AliasTable,
    // Stays: a flag beside the template, and no Option, since no enum crosses to C.
    pub(crate) loaded: bool,
    pub(crate) template: Template,
    pub(crate) texts: [Text; HOLES],
    // a bit for each hole that has a text, hole 0 the lowest
    pub(crate) bound: u16,
}

impl Contents {
    // A call that changes the aliases, or loads a template, is refused where one is loaded.
    pub(crate) fn none_loaded(&self) -> Result<(), Refusal>
        ensures { result ≡ answer (none_loaded (book_of self.now)) tt }
    {
        if self.loaded {
            return Err(Reason::TemplateLoaded.at(0));
        }
        Ok(())
    }
}

impl Clone for Contents {
    ghost is_clone = { λ t u. u ≡ t };

    ghost is_infallible = { λ _. ⊤ };

    fn clone(&self) -> Result<Self, AllocError> {
        Ok(*self)
    }
}
