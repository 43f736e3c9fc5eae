// How the names and the values of aliases are spelled.
ghost use Rattle.std.specs.Prelude.{◌≡◌, not};
ghost use Rattle.std.specs.List.{list_all};
ghost use Rattle.basics.specs.Checks.{answer};
ghost use Rattle.basics.specs.Searches.{first_where};
ghost use Rattle.aliases.specs.Spelling.{is_name_byte, is_value_byte, is_blank, name_check, value_check};

use basics::refusal::{Reason, Refusal};

// A letter, a digit, or one of some marks.
fn is_name_byte(byte: u8) -> bool
    ensures { result ≡ is_name_byte byte }
{
    matches!(
        byte,
        b'a'..=b'z' | b'A'..=b'Z' | b'0'..=b'9' | b'_' | b'!' | b'%' | b',' | b'@'
    )
}

// A byte that does not end the word, quote, or begin something.
// Stays: arms and no `matches!`, in which each of the fifteen bytes would take a line.
fn is_value_byte(byte: u8) -> bool
    ensures { result ≡ is_value_byte byte }
{
    match byte {
        0 | b'\n' => false,
        b'|' | b'&' | b';' | b'<' | b'>' | b'(' | b')' => false,
        b'$' | b'`' | b'\\' | b'"' | b'\'' | b'#' => false,
        _ => true,
    }
}

// The place of the first byte that is none of a name's.
fn first_outside_name(name: &[u8]) -> Option<usize>
    ensures { result ≡ first_where (λ b. not (is_name_byte b)) name.now }
{
    name.iter().position(|b| !is_name_byte(*b))
}

// The place of the first byte that is none of a value's.
fn first_outside_value(value: &[u8]) -> Option<usize>
    ensures { result ≡ first_where (λ b. not (is_value_byte b)) value.now }
{
    value.iter().position(|b| !is_value_byte(*b))
}

fn is_all_blank(value: &[u8]) -> bool
    ensures { result ≡ list_all is_blank value.now }
{
    value.iter().all(|b| *b == b' ' || *b == b'\t')
}

pub(crate) fn check_name(name: &[u8]) -> Result<(), Refusal>
    ensures { result ≡ answer (name_check name.now) tt }
{
    match first_outside_name(name) {
        Some(place) => Err(Reason::BadAlias.at(place)),
        None if name.is_empty() => Err(Reason::BadAlias.at(0)),
        None => Ok(()),
    }
}

pub(crate) fn check_value(value: &[u8]) -> Result<(), Refusal>
    ensures { result ≡ answer (value_check value.now) tt }
{
    match first_outside_value(value) {
        Some(place) => Err(Reason::BadAlias.at(place)),
        None if is_all_blank(value) => Err(Reason::BadAlias.at(0)),
        None => Ok(()),
    }
}
