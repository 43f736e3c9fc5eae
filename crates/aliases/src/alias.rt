// One alias: a name, and the value that replaces it.
ghost use Rattle.std.specs.Prelude.{◌≡◌, ◌<◌, ◌≤◌, length, take, None, Some, MatchResult};
ghost use Rattle.basics.specs.Checks.{refusal};
ghost use Rattle.basics.specs.declared.refusal.Reason.TheVariants.{TooLong};
ghost use Rattle.aliases.specs.Spelling.{spelling_check};

use crate::spelling::{check_name, check_value};
use basics::refusal::{Reason, Refusal};

// The most bytes that a name and a value may have.
pub const NAME_LIMIT: usize = 16;

pub const VALUE_LIMIT: usize = 64;

// Stays: arrays with their lengths, since an alias is copied as a number is and crosses to C, and an `ArrayVec` does neither.
#[derive(Clone, Copy)]
pub struct Alias {
    name: [u8; 16],
    name_len: usize,
    value: [u8; 64],
    value_len: usize,
    ghost within: { (name_len ≤ 16) × (length name ≡ 16) × (value_len ≤ 64) × (length value ≡ 64) },
}

// The text at the start of memory of a fixed size, where there is room for it.
fn kept<const N: usize>(text: &[u8]) -> Result<[u8; N], Refusal>
    ensures { MatchResult result (λ bytes. (take (length text.now) bytes ≡ text.now) × (length text.now ≤ N) × (length bytes ≡ N)) (λ refused. (refused ≡ refusal TooLong 0) × (N < length text.now)) }
{
    let len = text.len();
    if N < len {
        return Err(Reason::TooLong.at(0));
    }
    let mut bytes = [0; N];
    bytes[..len].copy_from_slice(text);
    Ok(bytes)
}

impl Alias {
    ghost use Rattle.aliases.specs.Rows.{entry, name_of, value_of};

    // The alias, where it is spelled as it should be.
    pub(crate) fn new(name: &[u8], value: &[u8]) -> Result<Alias, Refusal>
        ensures { MatchResult result (λ alias. (spelling_check name.now value.now ≡ None) × (entry alias ≡ (name.now, value.now))) (λ refused. spelling_check name.now value.now ≡ Some refused) }
    {
        let alias = Alias {
            name: kept(name)?,
            name_len: name.len(),
            value: kept(value)?,
            value_len: value.len(),
        };
        check_name(name)?;
        check_value(value)?;
        Ok(alias)
    }

    pub(crate) fn name(&self) -> &[u8]
        ensures is { result.now ≡ name_of (entry self.now) }
        ensures short { length result.now ≤ 16 }
    {
        &self.name[..self.name_len]
    }

    pub(crate) fn value(&self) -> &[u8]
        ensures is { result.now ≡ value_of (entry self.now) }
        ensures short { length result.now ≤ 64 }
    {
        &self.value[..self.value_len]
    }
}

// No name, and no value.
impl Default for Alias {
    fn default() -> Self {
        Alias {
            name: [0; 16],
            name_len: 0,
            value: [0; 64],
            value_len: 0,
        }
    }
}
