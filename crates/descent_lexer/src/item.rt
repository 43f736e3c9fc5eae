// What a reading gives: items in order, and the refusal that ended it, if one did.
// Stays: kinds, roles, operators and their numbers stand here as in the product, with which the second reader shares nothing but
// the refusals.
ghost use Rattle.std.specs.Prelude.{◌≡◌, ◌^◌, ◌<◌, ◌≤◌, None, vec_len};
ghost use Rattle.descent_lexer.specs.Kinds.{kind_number, code_number};

use basics::refusal::{Reason, Refusal};

// An alias: where its name would be a command's name, its value is read in its place.
#[derive(Drop)]
pub struct Alias {
    pub name: Vec<u8>,
    pub value: Vec<u8>,
}

// What a word is there for, under the number that a record gives it.
#[derive(Clone, Copy, PartialEq, Eq)]
pub enum Role {
    Name = 1,
    Arg = 2,
    Assign = 3,
    Target = 4,
    Delim = 5,
    Number = 6,
}

impl From<Role> for u8 {
    ghost use Rattle.descent_lexer.specs.Roles.{role_number};

    ghost from_gives = { λ role n. n ≡ role_number role };

    fn from(role: Role) -> u8 {
        role as u8
    }
}

// The operators, under the numbers that records give them.
#[derive(Clone, Copy, PartialEq, Eq)]
pub enum Operator {
    Newline = 1,
    And = 2,
    AndIf = 3,
    Pipe = 4,
    OrIf = 5,
    Semicolon = 6,
    DoubleSemicolon = 7,
    Open = 8,
    Close = 9,
    Less = 10,
    Great = 11,
    HereDocument = 12,
    Append = 13,
    LessAnd = 14,
    GreatAnd = 15,
    ReadWrite = 16,
    HereDocumentTabs = 17,
    Clobber = 18,
}

impl From<Operator> for u8 {
    ghost use Rattle.descent_lexer.specs.Operators.{operator_number};

    ghost from_gives = { λ operator n. n ≡ operator_number operator };

    fn from(operator: Operator) -> u8 {
        operator as u8
    }
}

#[derive(Clone, Copy, PartialEq, Eq)]
pub enum Kind {
    Part,
    Open,
    Close,
    Word(Role),
    Operator(Operator),
    Body,
}

// A letter: a byte under its mark, or a hole of a template by its digit.
#[derive(Clone, Copy, PartialEq, Eq)]
pub enum Letter {
    Bare(u8),
    Quoted(u8),
    Expansion(u8),
    Body(u8),
    Hole(u8),
}

impl Kind {
    pub fn number(self) -> u8
        ensures { result ≡ kind_number self }
    {
        match self {
            Kind::Part => 1,
            Kind::Open => 2,
            Kind::Close => 3,
            Kind::Word(_) => 4,
            Kind::Operator(_) => 5,
            Kind::Body => 6,
        }
    }

    // The number of the role or operator, else 0.
    pub fn code(self) -> u8
        ensures { result ≡ code_number self }
    {
        match self {
            Kind::Word(role) => u8::from(role),
            Kind::Operator(operator) => u8::from(operator),
            Kind::Part | Kind::Open | Kind::Close | Kind::Body => 0,
        }
    }
}

// As a sheet has it: the mark's number times 256, and the byte. A script has no holes.
impl From<Letter> for u16 {
    ghost use Rattle.descent_lexer.specs.Letters.{letter_number};

    ghost from_gives = { λ letter n. n ≡ letter_number letter };

    fn from(letter: Letter) -> u16 {
        match letter {
            Letter::Bare(b) => u16::from(b),
            Letter::Quoted(b) => 256 + u16::from(b),
            Letter::Expansion(b) => 512 + u16::from(b),
            Letter::Body(b) => 768 + u16::from(b),
            Letter::Hole(digit) => 1024 + u16::from(digit),
        }
    }
}

impl Letter {
    // The hole's bit in a mask of ten, or 0.
    fn hole_bit(self) -> u16
        ensures { result < 2 ^ 10 }
    {
        match self {
            Letter::Hole(digit) if digit < 10 => 1 << u16::from(digit),
            _ => 0,
        }
    }
}

#[derive(Drop)]
pub struct Item {
    pub kind: Kind,
    pub depth: usize,
    pub letters: Vec<Letter>,
    pub place: usize,
}

#[derive(Drop)]
pub struct Reading {
    pub items: Vec<Item>,
    pub refusal: Option<Refusal>,
}

impl Reading {
    // The refusal of a list with this room: there is none for the first item that does not fit, whatever follows it.
    pub fn refusal_within(&self, records: usize, letters: usize) -> Option<Refusal>
        ensures { result ≡ None → vec_len self.now.items ≤ records }
    {
        if self.items.len() > records || self.letters() > letters {
            return Some(Reason::NoRoom.at(0));
        }
        self.refusal
    }

    // How many letters its items have.
    pub fn letters(&self) -> usize {
        self.items.iter().fold(
            0,
            |count: usize, item| count.saturating_add(item.letters.len()),
        )
    }

    // The holes among the letters, as a mask: hole 0 is the lowest bit.
    pub fn holes(&self) -> u16
        ensures { result < 2 ^ 10 }
    {
        let mut mask = 0;
        for item in self.items.iter() {
            for letter in item.letters.iter() {
                mask |= letter.hole_bit();
            }
        }
        mask
    }
}
