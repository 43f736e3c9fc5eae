// The holes of a template, in words.
ghost use Rattle.std.specs.Prelude.{◌≡◌};
ghost use Rattle.views.specs.Holes.{has_hole, hole_count, holes_of};

use arrayvec::ArrayVec;
use std::fmt;

// A mask: hole 0 is the lowest bit.
#[derive(Clone, Copy)]
pub struct Holes(pub u16);

impl Holes {
    pub fn has(self, digit: u16) -> bool
        ensures { result ≡ has_hole self.0 digit }
    {
        digit < 10 && (self.0 >> digit) % 2 == 1
    }

    pub fn count(self) -> u32
        ensures { result ≡ hole_count self.0 }
    {
        (self.0 % 1024).count_ones()
    }

    // The lowest first.
    pub fn digits(self) -> ArrayVec<u16, 10>
        ensures { result.items ≡ holes_of self.0 }
    {
        let mut digits = ArrayVec::new();
        for digit in 0..10u16 {
            if self.has(digit) {
                digits.push(digit);
            }
        }
        digits
    }
}

// Numbers, with a text between each two.
#[derive(Clone, Copy)]
pub struct Joined<'a> {
    pub numbers: &'a [u16],
    pub by: &'static str,
}

impl fmt::Display for Joined<'_> {
    fn fmt<W: fmt::Write>(&self, f: &mut fmt::Formatter<W>) -> fmt::Result {
        let mut before = "";
        for number in self.numbers {
            write!(f, "{before}{number}")?;
            before = self.by;
        }
        Ok(())
    }
}

impl fmt::Display for Holes {
    fn fmt<W: fmt::Write>(&self, f: &mut fmt::Formatter<W>) -> fmt::Result {
        let digits = self.digits();
        match (self.count(), digits.as_slice()) {
            (0, _) | (_, []) => f.write_str("no holes"),
            (1, [digit, ..]) => write!(f, "hole {digit}"),
            (_, [front @ .., last]) => {
                let front = Joined {
                    numbers: front,
                    by: ", ",
                };
                write!(f, "holes {front} and {last}")
            }
        }
    }
}
