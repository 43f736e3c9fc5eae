// The lines of a text.
ghost use Rattle.std.specs.Prelude.{◌≡◌};
ghost use Rattle.basics.specs.Searches.{first_where};
ghost use Rattle.views.specs.Lines.{is_newline, FindsLastNewline, last_start, first_line, lines_above, line_of, before_place};

use basics::bytes::count;
use basics::slices::{behind, up_to};

// The line in which a place stands. The end behind a last newline stands in the line that the newline ends.
#[derive(Clone, Copy)]
pub struct Line<'a> {
    // how many lines stand above it
    pub above: usize,
    pub bytes: &'a [u8],
    // those of its bytes that stand before the place
    pub before: &'a [u8],
}

// Where the last line of a text begins.
fn last_start(text: &[u8]) -> usize
    ensures { result ≡ last_start text.now }
{
    match last_newline(text) {
        Some(i) => i + 1,
        None => 0,
    }
}

fn last_newline(text: &[u8]) -> Option<usize>
    ensures { FindsLastNewline text.now result }
{
    text.iter().rposition(|b| *b == b'\n')
}

// A text up to its first newline.
fn first_line(text: &[u8]) -> &[u8]
    ensures { result.now ≡ first_line text.now }
{
    match first_newline(text) {
        Some(end) => up_to(text, end),
        None => text,
    }
}

fn first_newline(text: &[u8]) -> Option<usize>
    ensures { result ≡ first_where is_newline text.now }
{
    text.iter().position(|b| *b == b'\n')
}

pub fn line_at(text: &[u8], place: usize) -> Line<'_>
    ensures above { result.above ≡ lines_above text.now place }
    ensures bytes { result.bytes.now ≡ line_of text.now place }
    ensures before { result.before.now ≡ before_place text.now place }
{
    let front = up_to(text, place.min(text.len().saturating_sub(1)));
    let start = last_start(front);
    let bytes = first_line(behind(text, start));
    Line {
        above: count(front, b'\n'),
        bytes,
        before: up_to(bytes, place.saturating_sub(start)),
    }
}
