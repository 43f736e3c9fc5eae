// Quoters whose forms are made piece by piece, one for each byte of the text.
ghost use Rattle.std.specs.Prelude.{◌≡◌, ℕ, ◌+◌, ◌*◌, ◌≤◌, List, length, nat_le};
ghost use Rattle.basics.specs.Pages.{pasted, written};
ghost use Rattle.quoting.specs.Pieces.{pieced};
ghost use Rattle.quoting.specs.Rooms.{fitted};

use crate::quoter::{NoRoom, Quoter};
use basics::bytes::tell;
use basics::page::put;

// The edge, which may hang on the text, stands before the pieces and behind them.
pub trait Pieces {
    ghost form: { List ℕ → List ℕ };

    ghost edge: { List ℕ → List ℕ };

    ghost piece: { ℕ → List ℕ };

    ghost WIDEST: { ℕ };

    // The most bytes of a piece.
    const WIDEST: u8;

    fn edge(text: &[u8]) -> &'static [u8]
        ensures { result.now ≡ edge text.now };

    // Puts the byte's piece into the part at `at`, and tells where it ends.
    fn put_piece(part: &mut [u8], at: usize, byte: u8) -> usize
        requires { at + length (piece byte) ≤ length part.old }
        ensures end { result ≡ at + length (piece byte) }
        ensures put { part.new ≡ pasted at (piece byte) part.old };

    // The form's length, which a `usize` may be too small for.
    fn form_length(text: &[u8]) -> u128
        ensures { result ≡ length (form text.now) };

    ghost is_pieced: { (text : List ℕ) → form text ≡ pieced edge piece text };

    ghost short: { (text : List ℕ) → length (form text) ≤ WIDEST * length text + 2 };
}

// Whether the form fits into that much room. Ample room is told without a look at the text.
fn has_room<P: Pieces>(text: &[u8], room: usize) -> bool
    ensures { result ≡ nat_le (length (P.form text.now)) room }
{
    let room = room as u128;
    P::WIDEST as u128 * text.len() as u128 + 2 <= room || P::form_length(text) <= room
}

impl<P: Pieces> Quoter for P {
    ghost form = { λ _ text. P.form text };

    fn measure(&self, text: &[u8]) -> usize {
        tell(P::form_length(text))
    }

    fn write(&self, text: &[u8], part: &mut [u8]) -> Result<usize, NoRoom> {
        if !has_room::<P>(text, part.len()) {
            return Err(NoRoom);
        }
        let edge = P::edge(text);
        let mut at = put(part, 0, edge);
        for b in text {
            at = P::put_piece(part, at, *b);
        }
        Ok(put(part, at, edge))
    }
}
