// Reading a form back into its text.
ghost use Rattle.std.specs.Prelude.{◌≡◌, ◌≤◌, length, Some};
ghost use Rattle.basics.specs.Pages.{over};
ghost use Rattle.quoting.specs.declared.form.State.TheVariants.{Bare};
ghost use Rattle.quoting.specs.Forms.{delivered, ended, unquoted};
ghost use Rattle.quoting.specs.Unquoting.{answered, concluded, counted, left, text_of};

use crate::form::{State, Step};
use crate::quoter::NoRoom;

// Why a form was not read: it is unlawful, from a place on, or its text is longer than the part.
#[derive(Clone, Copy, Debug, PartialEq, Eq, Hash)]
pub enum Unread {
    Unlawful(usize),
    NoRoom,
}

impl From<NoRoom> for Unread {
    ghost use Rattle.quoting.specs.declared.unquote.Unread.TheVariants.{NoRoom};

    ghost from_gives = { λ _ e. e ≡ NoRoom };

    fn from(_short: NoRoom) -> Unread {
        Unread::NoRoom
    }
}

// The answer at the end of a form of `len` bytes, of which n were delivered.
fn conclude(state: State, n: usize, len: usize) -> Result<usize, Unread>
    ensures { result ≡ concluded len n (ended state) len }
{
    let longest = n.saturating_mul(4).saturating_add(2);
    match state {
        State::Bare if len <= longest => Ok(n),
        State::Bare => Err(Unread::Unlawful(longest)),
        State::Escaped | State::SingleQuoted => Err(Unread::Unlawful(len)),
    }
}

// The length of the text that a form delivers, or the place of the first byte that makes it unlawful.
fn judge(form: &[u8]) -> Result<usize, Unread>
    ensures { result ≡ counted (unquoted form.now) }
{
    if form.is_empty() {
        return Err(Unread::Unlawful(0));
    }
    let mut state = State::Bare;
    let mut n: usize = 0;
    for (i, b) in form.iter().enumerate() {
        match state.step(*b).ok_or(Unread::Unlawful(i))? {
            Step::Passes(next) => state = next,
            Step::Delivers(next) => {
                n += 1;
                state = next;
            }
        }
    }
    conclude(state, n, form.len())
}

// Puts the text that a form delivers at the start of the part.
fn deliver(form: &[u8], part: &mut [u8])
    requires form_value { delivered Bare form.now ≡ Some (text_of (unquoted form.now)) }
    requires form_in_bounds { length (text_of (unquoted form.now)) ≤ length part.old }
    ensures { part.new ≡ over (text_of (unquoted form.now)) part.old }
{
    let mut state = State::Bare;
    // Stays: the part's own iterator would serve, but behind its borrow a proof knows the slice's length and no element.
    let mut at: usize = 0;
    for b in form {
        let Some(step) = state.step(*b) else {
            return;
        };
        match step {
            Step::Passes(next) => state = next,
            Step::Delivers(next) => {
                part[at] = *b;
                at += 1;
                state = next;
            }
        }
    }
}

// Reads a form into the start of the part and tells the text's length. On a refusal nothing is changed.
pub fn unquote(form: &[u8], part: &mut [u8]) -> Result<usize, Unread>
    ensures said { result ≡ answered (unquoted form.now) (length part.old) }
    ensures put { part.new ≡ left (unquoted form.now) part.old }
{
    let n = judge(form)?;
    if n > part.len() {
        return Err(Unread::NoRoom);
    }
    deliver(form, part);
    Ok(n)
}
