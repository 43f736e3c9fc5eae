// A template, in the order's own memory, and the mask of its holes.
ghost use Rattle.std.specs.Prelude.{⊤, ◌≡◌, ◌≤◌, [], length, take};
ghost use Rattle.listing.specs.Checking.{template_mask};

use std::alloc::AllocError;

// Stays: an array with its length, as in a hole's text.
#[derive(Copy)]
pub struct Template {
    pub(crate) bytes: [u8; 1024],
    pub(crate) len: usize,
    // a bit for each hole that stands in it, hole 0 the lowest
    pub(crate) holes: u16,
    ghost within: { (len ≤ 1024) × (length bytes ≡ 1024) },
    ghost marked: { holes ≡ template_mask (take len bytes) },
}

// Copies the text to the start of the space.
fn copy_front(space: &mut [u8], text: &[u8])
    requires { length text.now ≤ length space.old }
    ensures { take (length text.now) space.new ≡ text.now }
{
    let n = text.len();
    space[..n].copy_from_slice(text);
}

impl Template {
    ghost use Rattle.orders.specs.Holding.{template_text};

    pub(crate) fn empty() -> Template
        ensures { template_text result ≡ [] }
    {
        Template {
            bytes: [0; 1024],
            len: 0,
            holes: 0,
        }
    }

    // Keeps a template, of which the mask of holes is known.
    pub(crate) fn keep(&mut self, text: &[u8], holes: u16)
        requires text_len_bound { length text.now ≤ 1024 }
        requires holes_value { holes ≡ template_mask text.now }
        ensures text { template_text self.new ≡ text.now }
        ensures holes { self.new.holes ≡ holes }
    {
        copy_front(&mut self.bytes, text);
        self.len = text.len();
        self.holes = holes;
    }
}

impl Clone for Template {
    ghost is_clone = { λ t u. u ≡ t };

    ghost is_infallible = { λ _. ⊤ };

    fn clone(&self) -> Result<Self, AllocError> {
        Ok(*self)
    }
}
