// The here-documents that wait for their bodies, in order.
ghost use Rattle.std.specs.Prelude.{◌≡◌, ◌≤◌, length};

use crate::body::Document;
use crate::line::{Line, LineByte};
use arrayvec::ArrayVec;
use basics::stack::Full;
use tokens::kept::Kept;

// Whether leading tabs are dropped, and the delimiter's letters.
#[derive(Clone, Copy, Default)]
pub struct Waiting {
    pub dash: bool,
    pub delimiter: Kept,
}

impl Waiting {
    ghost use Rattle.commands.specs.Queues.{document_of, seen};

    fn document(&self) -> Document<'_>
        ensures { seen result ≡ document_of self.now }
    {
        Document {
            dash: self.dash,
            delimiter: self.delimiter.text(),
        }
    }
}

// In contracts a queue is the list of the here-documents that wait, at most 8 of them.
#[derive(Drop)]
pub struct Queue {
    held: ArrayVec<Waiting, 8>,
    ghost within: { length held.items ≤ 8 },
}

impl Queue {
    ghost use Rattle.std.specs.Prelude.{◌↔◌, ◌<◌, [], ◌∷◌, ◌++◌, take, IsOk, OnOk, OnErr, slice_index_or};
    ghost use Rattle.commands.specs.Bodies.{no_document, line_byte, line_is};
    ghost use Rattle.commands.specs.Queues.{document_of, seen, waiting_of};

    pub fn new() -> Self
        ensures { waiting_of result ≡ [] }
    {
        Queue {
            held: ArrayVec::new(),
        }
    }

    // One more at the end, unless 8 wait.
    pub fn push(&mut self, w: Waiting) -> Result<(), Full>
        ensures fits { IsOk result ↔ (length (waiting_of self.old) < 8) }
        ensures queued { OnOk result (waiting_of self.new ≡ waiting_of self.old ++ document_of w ∷ []) }
        ensures kept { OnErr result (waiting_of self.new ≡ waiting_of self.old) }
    {
        self.held.try_push(w).map_err(|_| Full)
    }

    // Those from the n-th on were read.
    pub fn cut(&mut self, n: usize)
        ensures { waiting_of self.new ≡ take n (waiting_of self.old) }
    {
        self.held.truncate(n);
    }

    pub fn count(&self) -> usize
        ensures value { result ≡ length (waiting_of self.now) }
        ensures fits { result ≤ 8 }
    {
        self.held.len()
    }

    // The n-th, or one without a delimiter.
    fn document(&self, n: usize) -> Document<'_>
        ensures { seen result ≡ slice_index_or (waiting_of self.now) n no_document }
    {
        let none = Document {
            dash: false,
            delimiter: b"",
        };
        self.held.get(n).map_or(none, Waiting::document)
    }

    // One byte of the n-th's body.
    pub fn line_byte(&self, n: usize, line: Line, b: u8) -> LineByte
        ensures { result ≡ line_byte (slice_index_or (waiting_of self.now) n no_document) line b }
    {
        self.document(n).line_byte(line, b)
    }

    // The line is the n-th's delimiter.
    pub fn line_is(&self, n: usize, line: Line) -> bool
        ensures { result ≡ line_is (slice_index_or (waiting_of self.now) n no_document) line }
    {
        self.document(n).line_is(line)
    }

    // The n-th's delimiter.
    pub fn delimiter(&self, n: usize) -> &[u8]
        ensures { result.now ≡ (slice_index_or (waiting_of self.now) n no_document).delimiter }
    {
        self.document(n).delimiter
    }
}
