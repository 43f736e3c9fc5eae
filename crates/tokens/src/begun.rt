// What is begun and may go on with the next byte.
ghost use Rattle.std.specs.Prelude.{◌≡◌};
ghost use Rattle.tokens.specs.Expansions.{goes_on, is_dollar, is_nothing};

use crate::bytes::{is_name_byte, is_name_start, is_special};
use crate::class::class_of;
use crate::operator::Operator;
use crate::table::lengthen;

// Stays: nothing is one of seven cases that are taken side by side; an Option would put Some round the six others in each match.
#[derive(Clone, Copy, Debug, PartialEq, Eq)]
pub enum Begun {
    Nothing,
    // `$`
    Dollar,
    // `$(`
    Paren,
    // `$` and a name so far
    Name,
    // `${`
    Brace,
    // `${` and a name so far
    BraceName,
    Operator(Operator),
}

impl Begun {
    // The byte belongs to what is begun.
    pub fn goes_on(self, b: u8) -> bool
        ensures { result ≡ goes_on self b }
    {
        match self {
            Begun::Nothing => false,
            Begun::Dollar => b == b'(' || b == b'{' || is_name_start(b) || is_special(b),
            Begun::Paren => b == b'(',
            Begun::Name => is_name_byte(b),
            Begun::Brace | Begun::BraceName => true,
            Begun::Operator(o) => lengthen(o, class_of(b)).is_some(),
        }
    }

    pub fn is_dollar(self) -> bool
        ensures { result ≡ is_dollar self }
    {
        matches!(self, Begun::Dollar)
    }

    pub fn is_nothing(self) -> bool
        ensures { result ≡ is_nothing self }
    {
        matches!(self, Begun::Nothing)
    }
}
