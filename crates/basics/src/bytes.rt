// Counts of bytes, and lengths as a `usize` tells them.
ghost use Rattle.std.specs.Prelude.{◌≡◌};
ghost use Rattle.basics.specs.Bytes.{occurrences, told};

// How often a byte stands in a text.
pub fn count(text: &[u8], byte: u8) -> usize
    ensures { result ≡ occurrences byte text.now }
{
    text.iter().filter(|b| **b == byte).count()
}

// A length as a `usize` tells it: the largest number stands for all that is longer.
pub fn tell(length: u128) -> usize
    ensures { result ≡ told length }
{
    usize::try_from(length).unwrap_or(usize::MAX)
}
