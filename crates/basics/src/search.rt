// Searches of a text. What asks another question of its bytes takes `Iterator::position`, whose clause is `first_where`.
ghost use Rattle.std.specs.Prelude.{◌≡◌, nat_eq};
ghost use Rattle.basics.specs.Searches.{first_where, first_zero};

// The index of the first byte of this value.
pub fn first_of(text: &[u8], byte: u8) -> Option<usize>
    ensures { result ≡ first_where (λ b. nat_eq b byte) text.now }
{
    text.iter().position(|b| *b == byte)
}

// The index of the first byte 0.
pub fn first_zero(text: &[u8]) -> Option<usize>
    ensures { result ≡ first_zero text.now }
{
    text.iter().position(|b| *b == 0)
}
