// Letters: the bytes of words and bodies, each with how it came there.
ghost use Rattle.std.specs.Prelude.{◌≡◌, ◌/◌};
ghost use Rattle.std.specs.Option.{ok_or};
ghost use Rattle.tokens.specs.Letters.{mark_number, letter_number, mark_of, letter_of};

#[derive(Clone, Copy, Debug, PartialEq, Eq)]
pub enum Mark {
    Bare = 0,
    Quoted = 1,
    // of an expansion such as `$x`
    Expansion = 2,
    // of a here-document's body
    Body = 3,
}

#[derive(Clone, Copy, Debug, PartialEq, Eq)]
pub struct Letter {
    pub mark: Mark,
    pub byte: u8,
}

// A number that is no mark's.
#[derive(Clone, Copy, Debug, PartialEq, Eq)]
pub struct UnknownMark(pub u16);

impl From<Mark> for u16 {
    ghost from_gives = { λ mark number. number ≡ mark_number mark };

    fn from(mark: Mark) -> u16 {
        mark as u16
    }
}

impl TryFrom<u16> for Mark {
    type Error = UnknownMark;

    ghost try_from_gives = { λ number r. r ≡ ok_or (mark_of number) (record { 0 = number }) };

    fn try_from(number: u16) -> Result<Self, UnknownMark> {
        match number {
            0 => Ok(Mark::Bare),
            1 => Ok(Mark::Quoted),
            2 => Ok(Mark::Expansion),
            3 => Ok(Mark::Body),
            _ => Err(UnknownMark(number)),
        }
    }
}

// The letter as one number: the mark in the high byte.
impl From<Letter> for u16 {
    ghost from_gives = { λ letter number. number ≡ letter_number letter };

    fn from(letter: Letter) -> u16 {
        u16::from(letter.mark) * 256 + u16::from(letter.byte)
    }
}

impl TryFrom<u16> for Letter {
    type Error = UnknownMark;

    ghost try_from_gives = { λ number r. r ≡ ok_or (letter_of number) (record { 0 = number / 256 }) };

    fn try_from(number: u16) -> Result<Self, UnknownMark> {
        let mark = Mark::try_from(number / 256)?;
        let byte = (number % 256) as u8;
        Ok(Letter { mark, byte })
    }
}
