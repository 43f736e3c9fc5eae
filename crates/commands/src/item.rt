// Items: what a script is listed as.
ghost use Rattle.std.specs.Prelude.{◌≡◌};
ghost use Rattle.commands.specs.Kinds.{kind_number, kind_code};

use crate::role::Role;
use tokens::operator::Operator;

#[derive(Clone, Copy, Debug, PartialEq, Eq)]
pub enum Kind {
    // at `$(`, the word's letters so far
    Part,
    // `$(`
    Open,
    // its `)`
    Close,
    Word(Role),
    Operator(Operator),
    // a here-document's body
    Body,
}

impl Kind {
    // Stays: a match, since what a kind holds leaves it no number by `as`, and it has a second number besides.
    pub fn number(self) -> u8
        ensures { result ≡ kind_number self }
    {
        match self {
            Kind::Part => 1,
            Kind::Open => 2,
            Kind::Close => 3,
            Kind::Word(_) => 4,
            Kind::Operator(_) => 5,
            Kind::Body => 6,
        }
    }

    // The role of a word, the operator's code, else 0.
    pub fn code(self) -> u8
        ensures { result ≡ kind_code self }
    {
        match self {
            Kind::Word(r) => u8::from(r),
            Kind::Operator(o) => u8::from(o),
            _ => 0,
        }
    }
}
