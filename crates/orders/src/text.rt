// A hole's text, in the order's own memory.
ghost use Rattle.std.specs.Prelude.{⊤, ◌≡◌, ◌≤◌, [], length};

use std::alloc::AllocError;

// The most bytes that a text may have.
pub const TEXT_LIMIT: usize = 128;

// Stays: an array with its length, since it is copied as a number is and crosses to C, and an `ArrayVec` does neither.
#[derive(Copy)]
pub struct Text {
    pub(crate) bytes: [u8; TEXT_LIMIT],
    pub(crate) len: usize,
    ghost within: { (len ≤ 128) × (length bytes ≡ 128) },
}

impl Text {
    ghost use Rattle.orders.specs.Holding.{text_of};

    pub(crate) fn empty() -> Text
        ensures { text_of result ≡ [] }
    {
        Text {
            bytes: [0; TEXT_LIMIT],
            len: 0,
        }
    }
}

impl Clone for Text {
    ghost is_clone = { λ t u. u ≡ t };

    ghost is_infallible = { λ _. ⊤ };

    fn clone(&self) -> Result<Self, AllocError> {
        Ok(*self)
    }
}
