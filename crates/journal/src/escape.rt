// Bytes as a journal has them: a byte from `!` to `~` but `%` as it is, any other as `%` and two digits.
ghost use Rattle.std.specs.Prelude.{◌≡◌, Some};
ghost use Rattle.journal.specs.Escapes.{is_plain, escaped_byte};

use std::fmt;

// Whether a byte stands for itself.
pub fn is_plain(b: u8) -> bool
    ensures { result ≡ is_plain b }
{
    b.is_ascii_graphic() && b != b'%'
}

#[derive(Clone, Copy)]
pub struct EscapedByte(pub u8);

impl fmt::Display for EscapedByte {
    ghost output = { λ x. Some (escaped_byte x.0) };

    fn fmt<W: fmt::Write>(&self, f: &mut fmt::Formatter<W>) -> fmt::Result {
        let b = self.0;
        if is_plain(b) {
            let c = char::from(b);
            write!(f, "{c}")
        } else {
            write!(f, "%{b:02X}")
        }
    }
}
