// Here-documents' bodies, byte by byte. No line is kept: what is read of a line that may be the delimiter is the delimiter's own beginning.
ghost use Rattle.std.specs.Prelude.{◌≡◌};
ghost use Rattle.commands.specs.Bodies.{read, compared, line_byte, line_is};
ghost use Rattle.commands.specs.Queues.{seen};

use crate::line::{Gives, Line, LineByte};

// A here-document that waits for its body, as it is looked at: whether leading tabs are dropped, and the delimiter's letters.
#[derive(Clone, Copy)]
pub struct Document<'d> {
    pub dash: bool,
    pub delimiter: &'d [u8],
}

fn read(gives: Gives, line: Line) -> LineByte
    ensures { result ≡ read gives line }
{
    LineByte { gives, line }
}

impl<'d> Document<'d> {
    // The byte b, where the line so far is the delimiter's first n bytes.
    fn compare(self, n: usize, b: u8) -> LineByte
        ensures { result ≡ compared n self.entry.delimiter.now b }
    {
        match self.delimiter.get(n) {
            Some(_) if b == b'\n' => read(Gives::Letters(n), Line::Fresh),
            None if b == b'\n' => read(Gives::Ends, Line::Fresh),
            Some(&next) if b == next => read(Gives::Nothing, Line::Same(n + 1)),
            _ => read(Gives::Letters(n), Line::Other),
        }
    }

    // One byte of the body.
    pub fn line_byte(self, line: Line, b: u8) -> LineByte
        ensures { result ≡ line_byte (seen self.entry) line b }
    {
        match line {
            Line::Fresh | Line::Tabs if self.dash && b == b'\t' => {
                read(Gives::Nothing, Line::Tabs)
            }
            Line::Fresh | Line::Tabs => self.compare(0, b),
            Line::Same(n) => self.compare(n, b),
            Line::Other if b == b'\n' => read(Gives::Letters(0), Line::Fresh),
            Line::Other => read(Gives::Letters(0), Line::Other),
        }
    }

    // The line is the delimiter, so the text may end in it.
    pub fn line_is(self, line: Line) -> bool
        ensures { result ≡ line_is (seen self.entry) line }
    {
        match line {
            Line::Fresh | Line::Other => false,
            Line::Tabs => self.delimiter.is_empty(),
            Line::Same(n) => self.delimiter.len() <= n,
        }
    }
}
