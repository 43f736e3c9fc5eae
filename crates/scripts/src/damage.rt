// Damage to a text: bytes dropped, changed, swapped or put in, its end cut off, or a part of another text put in.
use super::grammar::Scripts;
use random::Numbers;
use std::alloc::AllocError;

// The bytes that mean something to a reader.
const TELLING: &[u8] = b"a1 \t\n'\"\\$(){}`&|;<>#=-@!";

impl Scripts {
    // Damages `out` in one to three ways.
    pub fn damage(&mut self, out: &mut Vec<u8>) -> Result<(), AllocError> {
        for _ in 0..=self.random.below(3) {
            self.damage_once(out)?;
        }
        Ok(())
    }

    // Puts a part of `piece` into `out`.
    pub fn splice(&mut self, out: &mut Vec<u8>, piece: &[u8]) -> Result<(), AllocError> {
        let from = self.random.below(piece.len());
        let most = self.random.below(40);
        for b in piece.iter().skip(from).take(most) {
            let at = self.random.below(out.len());
            if self.random.once_in(4) && at < out.len() {
                out.insert(at, *b)?;
            } else {
                out.push(*b)?;
            }
        }
        Ok(())
    }

    // Puts a text to fill a hole with in `out`: a few bytes, most of them telling ones, and none of them 0.
    pub fn text(&mut self, out: &mut Vec<u8>) -> Result<(), AllocError> {
        out.clear();
        for _ in 0..self.random.below(9) {
            let b = if self.random.once_in(4) {
                1 + self.random.below(255) as u8
            } else {
                self.telling()
            };
            out.push(b)?;
        }
        Ok(())
    }

    fn telling(&mut self) -> u8 {
        *self.random.pick(TELLING)
    }

    fn damage_once(&mut self, out: &mut Vec<u8>) -> Result<(), AllocError> {
        let at = self.random.below(out.len());
        let b = self.telling();
        if out.is_empty() {
            out.push(b)?;
            return Ok(());
        }
        // Stays: a match on the number that was drawn, as in the grammar.
        match self.random.below(6) {
            0 => {
                let _ = out.remove(at);
            }
            1 => out.insert(at, b)?,
            2 => out.truncate(at),
            3 => {
                let other = self.random.below(out.len());
                out.swap(at, other);
            }
            _ => out[at] = b,
        }
        Ok(())
    }
}
