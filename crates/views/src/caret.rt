// A refusal, with the line of the text that it is about and a caret under the place.
ghost use Rattle.std.specs.Prelude.{◌≡◌, length, IfOk};
ghost use Rattle.std.specs.Str.{chars};
ghost use Rattle.views.specs.Carets.{Points};

use crate::lines::{Line, line_at};
use basics::refusal::{Reason, Refusal};
use std::alloc::{AllocError, Global};
use std::fmt;

// Of a long line, the characters that are shown before the place, and in all.
const BEFORE: usize = 60;

const WIDTH: usize = 76;

#[derive(Drop)]
pub struct Pointed {
    refusal: Refusal,
    // the lines above its own, its own, and the characters of it that stand before the place
    above: usize,
    line: String,
    column: usize,
}

fn char_count(text: &str) -> usize
    ensures { result ≡ length (chars text.now) }
{
    text.chars().count()
}

impl Pointed {
    pub fn new(heap: Global, refusal: Refusal, text: &[u8]) -> Result<Pointed, AllocError>
        ensures { IfOk result (λ p. Points text.now refusal p) }
    {
        let Line {
            above,
            bytes,
            before,
        } = line_at(text, refusal.place);
        let before = String::from_utf8_lossy(heap, before)?;
        let column = char_count(before.as_str());
        let line = String::from_utf8_lossy(heap, bytes)?;
        Ok(Pointed {
            refusal,
            above,
            line,
            column,
        })
    }
}

// What stands for a character that a terminal would not show in one column.
fn shown(c: char) -> char {
    match c {
        '\t' => ' ',
        _ if c.is_control() => '?',
        _ => c,
    }
}

impl Pointed {
    // Whether the refusal is about a place in the text at all.
    fn has_place(&self) -> bool {
        !matches!(self.refusal.reason, Reason::TooLong | Reason::NoRoom)
    }

    // The line, from the character where what is shown of it begins.
    fn write_line<W: fmt::Write>(&self, f: &mut fmt::Formatter<W>, from: usize) -> fmt::Result {
        f.write_str(if from > 0 { "  ..." } else { "  " })?;
        for c in self.line.as_str().chars().skip(from).take(WIDTH).map(shown) {
            write!(f, "{c}")?;
        }
        f.write_str("\n")
    }

    fn write_caret<W: fmt::Write>(&self, f: &mut fmt::Formatter<W>, from: usize) -> fmt::Result {
        f.write_str(if from > 0 { "     " } else { "  " })?;
        let before = self.column.saturating_sub(from);
        writeln!(f, "{:before$}^", "")
    }
}

impl fmt::Display for Pointed {
    fn fmt<W: fmt::Write>(&self, f: &mut fmt::Formatter<W>) -> fmt::Result {
        let refusal = self.refusal;
        writeln!(f, "refused {refusal}")?;
        if !self.has_place() {
            return Ok(());
        }
        let number = self.above.saturating_add(1);
        let column = self.column.saturating_add(1);
        writeln!(f, "line {number}, column {column}:")?;
        let from = self.column.saturating_sub(BEFORE);
        self.write_line(f, from)?;
        self.write_caret(f, from)
    }
}
