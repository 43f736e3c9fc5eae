// What a byte may be in a name, a number or an expansion.
ghost use Rattle.std.specs.Prelude.{◌≡◌};
ghost use Rattle.tokens.specs.Bytes.{is_digit, is_name_start, is_name_byte};
ghost use Rattle.tokens.specs.Expansions.{among, is_special, is_quotable};

pub fn is_digit(b: u8) -> bool
    ensures { result ≡ is_digit b }
{
    b.is_ascii_digit()
}

// An ASCII letter or `_`.
pub fn is_name_start(b: u8) -> bool
    ensures { result ≡ is_name_start b }
{
    b.is_ascii_alphabetic() || b == b'_'
}

pub fn is_name_byte(b: u8) -> bool
    ensures { result ≡ is_name_byte b }
{
    is_name_start(b) || is_digit(b)
}

// A parameter of one byte, as in `$1` and `$@`.
pub fn is_special(b: u8) -> bool
    ensures { result ≡ is_special b }
{
    matches!(
        b,
        b'0'..=b'9' | b'@' | b'*' | b'#' | b'?' | b'-' | b'$' | b'!'
    )
}

// A byte that a backslash quotes in double quotes.
pub fn is_quotable(b: u8) -> bool
    ensures { result ≡ is_quotable b }
{
    matches!(b, b'$' | b'`' | b'"' | b'\\')
}

// The byte is in the text.
pub fn contains(text: &[u8], b: u8) -> bool
    ensures { result ≡ among b text.now }
{
    text.contains(&b)
}
