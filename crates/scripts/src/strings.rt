// Every string of up to so many bytes over an alphabet, the shorter ones first.
ghost use Rattle.std.specs.Prelude.{◌≡◌, ◌≤◌, IfOk, IsTrue, length, vec_len, nat_le};

use std::alloc::{AllocError, Global};

#[derive(Drop)]
pub struct Strings {
    alphabet: Vec<u8>,
    longest: usize,
    // the next string, by the places of its bytes in the alphabet
    digits: Vec<usize>,
}

impl Strings {
    pub fn new(heap: Global, alphabet: &str, longest: usize) -> Result<Strings, AllocError>
        ensures { IfOk result (λ s. (s.alphabet.items ≡ alphabet.now) × (s.longest ≡ longest) × (vec_len s.digits ≡ 0)) }
    {
        Ok(Strings {
            alphabet: Vec::from_slice(heap, alphabet.as_bytes())?,
            longest,
            digits: Vec::new(heap),
        })
    }

    // Puts the next string in `out`, and says whether there was one.
    pub fn next(&mut self, out: &mut Vec<u8>) -> Result<bool, AllocError>
        ensures more { IfOk result (λ more. more ≡ nat_le (vec_len self.old.digits) self.old.longest) }
        ensures short { IfOk result (λ more. IsTrue more → vec_len out.new ≤ self.old.longest) }
        ensures longest { self.new.longest ≡ self.old.longest }
    {
        out.clear();
        if self.digits.len() > self.longest {
            return Ok(false);
        }
        for digit in self.digits.iter() {
            if let Some(b) = self.alphabet.get(*digit) {
                out.push(*b)?;
            }
        }
        self.advance()?;
        Ok(true)
    }

    // Calls `visit` on every string that is left, in order; it only has to take strings of up to the greatest length.
    pub fn each<F: FnMut(&[u8]) -> Result<(), AllocError>>(
        &mut self,
        heap: Global,
        mut visit: F,
    ) -> Result<(), AllocError>
        requires { (state : F) (text : _) → length text.now ≤ self.old.longest → F.pre state text }
        ensures { self.new.longest ≡ self.old.longest }
    {
        let mut text = Vec::new(heap);
        // Stays: a count, and no `while`, whose measure would be how many strings are left; no run comes to this count
        for _ in 0..u64::MAX {
            if !self.next(&mut text)? {
                break;
            }
            visit(text.as_slice())?;
        }
        Ok(())
    }

    // Counts on by one, from the last byte up; past the last string of a length comes the first of the next.
    fn advance(&mut self) -> Result<(), AllocError>
        ensures { self.new.longest ≡ self.old.longest }
    {
        let count = self.alphabet.len();
        for digit in self.digits.iter_mut().rev() {
            let next = digit.saturating_add(1);
            if next < count {
                *digit = next;
                return Ok(());
            }
            *digit = 0;
        }
        self.digits.push(0)?;
        Ok(())
    }
}
