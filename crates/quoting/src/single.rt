// Single: the text in single quotes.
ghost use Rattle.std.specs.Prelude.{codes};
ghost use Rattle.quoting.specs.Singles.{inside, single};
ghost use Rattle.quoting.specs.Singly.{single_lawful, single_pieced, single_short};

use crate::pieces::Pieces;
use crate::quoter::LawfulQuoter;
use basics::bytes::count;
use basics::page::put;

// Writes ', the text with each ' as '\'', then '.
#[derive(Clone, Copy, Debug, Default, PartialEq, Eq, Hash)]
pub struct Single;

impl Pieces for Single {
    ghost form = { single };

    ghost edge = { λ _. codes "'" };

    ghost piece = { inside };

    ghost WIDEST = { 4 };

    const WIDEST: u8 = 4;

    fn edge(_text: &[u8]) -> &'static [u8] {
        b"'"
    }

    fn put_piece(part: &mut [u8], at: usize, byte: u8) -> usize {
        if byte == b'\'' {
            put(part, at, b"'\\''")
        } else {
            put(part, at, &[byte])
        }
    }

    fn form_length(text: &[u8]) -> u128 {
        text.len() as u128 + 3 * count(text, b'\'') as u128 + 2
    }

    ghost is_pieced = { single_pieced };

    ghost short = { single_short };
}

impl LawfulQuoter for Single {
    ghost lawful = { λ q. single_lawful };
}
