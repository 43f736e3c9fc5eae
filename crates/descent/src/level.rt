// How deep in frames a reader is.
ghost use Rattle.std.specs.Prelude.{◌≡◌, ◌+◌, ◌≤◌, IfOk};

use basics::refusal::Reason;
use descent_lexer::fault::{Fault, refused};

// At most so many frames stand open at a time.
const MOST_FRAMES: usize = 32;

// What was opened last: nothing, `( )`, `$( )` or quotes.
#[derive(Clone, Copy, PartialEq, Eq)]
pub enum Frame {
    Bottom,
    Group,
    Substitution,
    Quotes,
}

#[derive(Clone, Copy)]
pub struct Level {
    pub frame: Frame,
    // how many frames stand open
    pub depth: usize,
}

impl Level {
    pub fn bottom() -> Level {
        Level {
            frame: Frame::Bottom,
            depth: 0,
        }
    }

    // One frame further in, unless as many as may stand open do; `place` is where the frame begins.
    pub fn within(self, frame: Frame, place: usize) -> Result<Level, Fault>
        ensures depth { IfOk result (λ inner. inner.depth ≡ self.depth + 1) }
        ensures most { IfOk result (λ inner. inner.depth ≤ 32) }
    {
        if self.depth >= MOST_FRAMES {
            return Err(refused(Reason::TooDeep, place));
        }
        Ok(Level {
            frame,
            depth: self.depth + 1,
        })
    }
}
