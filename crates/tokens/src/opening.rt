// How a word opens, as far as it is bare: all digits, a name, a name and `=`, or anything else.
ghost use Rattle.std.specs.Prelude.{◌≡◌};
ghost use Rattle.tokens.specs.Openings.{opened, further, is_assign, is_number};

use crate::bytes::{is_digit, is_name_byte, is_name_start};

#[derive(Clone, Copy, Debug, PartialEq, Eq)]
pub enum Opening {
    // all of it is digits so far
    Digits,
    // all of it is a name so far
    Name,
    // it began with a name and `=`
    Assign,
    Other,
}

impl Opening {
    // With the word's first byte.
    pub fn of(b: u8) -> Self
        ensures { result ≡ opened b }
    {
        if is_digit(b) {
            Opening::Digits
        } else if is_name_start(b) {
            Opening::Name
        } else {
            Opening::Other
        }
    }

    // With a further bare byte.
    pub fn further(self, b: u8) -> Self
        ensures { result ≡ further self b }
    {
        match self {
            Opening::Digits if is_digit(b) => Opening::Digits,
            Opening::Name if is_name_byte(b) => Opening::Name,
            Opening::Name if b == b'=' => Opening::Assign,
            Opening::Assign => Opening::Assign,
            _ => Opening::Other,
        }
    }

    pub fn is_assign(self) -> bool
        ensures { result ≡ is_assign self }
    {
        matches!(self, Opening::Assign)
    }

    pub fn is_number(self) -> bool
        ensures { result ≡ is_number self }
    {
        matches!(self, Opening::Digits)
    }
}
