// Backslash: a backslash before each byte.
ghost use Rattle.quoting.specs.Backslashes.{backslashed, brink, escaped};
ghost use Rattle.quoting.specs.Backslashed.{backslashed_lawful, backslashed_pieced, backslashed_short};

use crate::pieces::Pieces;
use crate::quoter::LawfulQuoter;
use basics::bytes::count;
use basics::page::put;

// Writes a backslash before each byte, but a newline as ' newline ', and the empty text as ''.
#[derive(Clone, Copy, Debug, Default, PartialEq, Eq, Hash)]
pub struct Backslash;

impl Pieces for Backslash {
    ghost form = { backslashed };

    ghost edge = { brink };

    ghost piece = { escaped };

    ghost WIDEST = { 3 };

    const WIDEST: u8 = 3;

    fn edge(text: &[u8]) -> &'static [u8] {
        if text.is_empty() { b"'" } else { b"" }
    }

    fn put_piece(part: &mut [u8], at: usize, byte: u8) -> usize {
        if byte == b'\n' {
            put(part, at, b"'\n'")
        } else {
            put(part, at, &[b'\\', byte])
        }
    }

    fn form_length(text: &[u8]) -> u128 {
        if text.is_empty() {
            return 2;
        }
        2 * text.len() as u128 + count(text, b'\n') as u128
    }

    ghost is_pieced = { backslashed_pieced };

    ghost short = { backslashed_short };
}

impl LawfulQuoter for Backslash {
    ghost lawful = { λ q. backslashed_lawful };
}
