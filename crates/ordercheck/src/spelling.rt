// The checks of an alias's name and value, for the second book.
use basics::refusal::Reason;
use descent_lexer::fault::{Fault, refused};

const LONGEST_NAME: usize = 16;

const LONGEST_VALUE: usize = 64;

// What a name may have besides letters and digits.
const NAME_MARKS: &[u8] = b"_!%,@";

// What no value may have.
const NO_VALUE: &[u8] = b"\0\n|&;<>()$`\\\"'#";

// The first byte that no name has, or the start of an empty one.
fn bad_in_name(name: &[u8]) -> Option<usize> {
    if name.is_empty() {
        return Some(0);
    }
    name.iter()
        .position(|b| !b.is_ascii_alphanumeric() && !NAME_MARKS.contains(b))
}

// The first byte that no value has, or the start of one that is blank.
fn bad_in_value(value: &[u8]) -> Option<usize> {
    if value.iter().all(|b| matches!(b, b' ' | b'\t')) {
        return Some(0);
    }
    value.iter().position(|b| NO_VALUE.contains(b))
}

// Too long comes first, then a bad name, then a bad value.
pub fn check_alias(name: &[u8], value: &[u8]) -> Result<(), Fault> {
    if name.len() > LONGEST_NAME || value.len() > LONGEST_VALUE {
        return Err(refused(Reason::TooLong, 0));
    }
    match bad_in_name(name).or(bad_in_value(value)) {
        Some(place) => Err(refused(Reason::BadAlias, place)),
        None => Ok(()),
    }
}
