// The bytes that a word of a journal stands for.
ghost use Rattle.std.specs.Prelude.{◌≡◌, IfOk, vec_items};
ghost use Rattle.std.specs.Option.{option_map};
ghost use Rattle.journal.specs.Escapes.{digit_value, piece, unescaped};

use crate::escape::is_plain;
use std::alloc::{AllocError, Global};

// Where a word is being read: outside an escape, after its `%`, or after its first digit.
#[derive(Clone, Copy)]
pub enum Place {
    Outside,
    Percent,
    High(u8),
}

// What a byte of a word does: it leads on inside an escape, or gives a byte and leaves the escape.
#[derive(Clone, Copy)]
pub enum Piece {
    Leads(Place),
    Gives(u8),
}

// The number of a hexadecimal digit in upper case.
// Stays: `char::to_digit` takes digits in lower case too, which no word of a journal has.
fn digit_value(d: u8) -> Option<u8>
    ensures { result ≡ digit_value d }
{
    match d {
        b'0'..=b'9' => Some(d - b'0'),
        b'A'..=b'F' => Some(d - b'A' + 10),
        _ => None,
    }
}

impl Place {
    // None where the byte may not stand.
    fn piece(self, b: u8) -> Option<Piece>
        ensures { result ≡ piece self b }
    {
        match self {
            Place::Outside if b == b'%' => Some(Piece::Leads(Place::Percent)),
            Place::Outside if is_plain(b) => Some(Piece::Gives(b)),
            Place::Outside => None,
            Place::Percent => digit_value(b).map(|high| Piece::Leads(Place::High(high))),
            Place::High(high) => {
                digit_value(b).map(|low| Piece::Gives(high % 16 * 16 + low % 16))
            }
        }
    }
}

// None where the word is not written as a word of a journal is.
pub fn unescape(heap: Global, word: &[u8]) -> Result<Option<Vec<u8>>, AllocError>
    ensures { IfOk result (λ o. option_map vec_items o ≡ unescaped word.now) }
{
    let mut bytes = Vec::new(heap);
    let mut place = Place::Outside;
    for b in word {
        let Some(step) = place.piece(*b) else {
            return Ok(None);
        };
        match step {
            Piece::Leads(next) => place = next,
            Piece::Gives(byte) => {
                bytes.push(byte)?;
                place = Place::Outside;
            }
        }
    }
    match place {
        Place::Outside => Ok(Some(bytes)),
        _ => Ok(None),
    }
}
