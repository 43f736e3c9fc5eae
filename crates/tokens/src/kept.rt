// The first bytes of a plain word, or the letters of a delimiter: 33 at most, one more than any that is asked for.
ghost use Rattle.std.specs.Prelude.{◌≡◌, ◌≤◌, [], ◌∷◌, length};
ghost use Rattle.tokens.specs.Openings.{kept};
ghost use Rattle.tokens.specs.Expansions.{among};

use crate::bytes::contains;

// Stays: the reader copies a delimiter's letters into the queue, in a call that cannot fail, so this is `Copy`; an `ArrayVec` is
// copied by a clone that answers with a Result.
#[derive(Clone, Copy)]
pub struct Kept {
    bytes: [u8; 33],
    len: usize,
    ghost within: { (len ≤ 33) × (length bytes ≡ 33) },
}

impl Kept {
    ghost use Rattle.tokens.specs.Keeping.{kept_bytes};

    pub fn new() -> Self
        ensures { kept_bytes result ≡ [] }
    {
        Kept {
            bytes: [0; 33],
            len: 0,
        }
    }

    // One byte more, while there is room.
    pub fn push(&mut self, b: u8)
        ensures { kept_bytes self.new ≡ kept (kept_bytes self.old) b }
    {
        if self.len < 33 {
            self.bytes[self.len] = b;
            self.len += 1;
        }
    }

    // This byte alone.
    pub fn begin(&mut self, b: u8)
        ensures { kept_bytes self.new ≡ b ∷ [] }
    {
        self.clear();
        self.push(b);
    }

    pub fn clear(&mut self)
        ensures { kept_bytes self.new ≡ [] }
    {
        self.len = 0;
    }

    pub fn text(&self) -> &[u8]
        ensures { result.now ≡ kept_bytes self.now }
    {
        &self.bytes[0..self.len]
    }

    pub fn len(&self) -> usize
        ensures { result ≡ length (kept_bytes self.now) }
    {
        self.len
    }

    // The byte is among them.
    pub fn has(&self, b: u8) -> bool
        ensures { result ≡ among b (kept_bytes self.now) }
    {
        contains(self.text(), b)
    }
}

// Stays: by hand, since no Default is derived over a ghost field.
impl Default for Kept {
    ghost use Rattle.tokens.specs.Keeping.{kept_bytes};

    ghost is_default = { λ k. kept_bytes k ≡ [] };

    fn default() -> Self {
        Kept::new()
    }
}
