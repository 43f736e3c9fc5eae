// Which bytes are which.
ghost use Rattle.std.specs.Prelude.{◌≡◌};
ghost use Rattle.descent_lexer.specs.Bytes.{is_blank, begins_name, is_in_name, begins_operator, is_parameter};

pub fn is_blank(b: u8) -> bool
    ensures { result ≡ is_blank b }
{
    matches!(b, b' ' | b'\t')
}

pub fn begins_name(b: u8) -> bool
    ensures { result ≡ begins_name b }
{
    b == b'_' || b.is_ascii_alphabetic()
}

pub fn is_in_name(b: u8) -> bool
    ensures { result ≡ is_in_name b }
{
    begins_name(b) || b.is_ascii_digit()
}

// A byte that begins an operator, the newline too.
pub fn begins_operator(b: u8) -> bool
    ensures { result ≡ begins_operator b }
{
    matches!(b, b'\n' | b'&' | b'|' | b';' | b'(' | b')' | b'<' | b'>')
}

// A byte that, after `$`, is an expansion by itself.
pub fn is_parameter(b: u8) -> bool
    ensures { result ≡ is_parameter b }
{
    matches!(
        b,
        b'@' | b'*' | b'#' | b'?' | b'-' | b'$' | b'!' | b'0'..=b'9'
    )
}
