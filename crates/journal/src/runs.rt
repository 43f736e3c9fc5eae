// Letters, which are numbers: those of one mark that follow one another, and the byte of each.
ghost use Rattle.std.specs.Prelude.{◌≡◌, ◌/◌, ◌==◌};
ghost use Rattle.std.specs.Option.{option_map};
ghost use Rattle.tokens.specs.Letters.{letter_of};
ghost use Rattle.journal.specs.Numbers.{run_mark};

use std::fmt;
use tokens::letter::{Letter, Mark};

// Whether letters, which are numbers, have one mark: the high byte.
pub fn of_one_mark(a: &u16, b: &u16) -> bool
    ensures { result ≡ (a.now / 256 == b.now / 256) }
{
    *a / 256 == *b / 256
}

// The mark of a run of letters; none of a run that is empty or whose numbers are no letters.
pub fn mark_of(run: &[u16]) -> Option<Mark>
    ensures { result ≡ run_mark run.now }
{
    let first = run.first()?;
    Mark::try_from(*first / 256).ok()
}

// The byte of a letter; none of a number that is no letter.
pub fn byte_of(number: u16) -> Option<u8>
    ensures { result ≡ option_map (λ letter. letter.byte) (letter_of number) }
{
    Letter::try_from(number).ok().map(|letter| letter.byte)
}
