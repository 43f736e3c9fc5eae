// What a script and a template are first checked for.
ghost use Rattle.std.specs.Prelude.{◌≡◌};
ghost use Rattle.basics.specs.Checks.{answer};
ghost use Rattle.listing.specs.Listing.{text_check};

use basics::refusal::{Reason, Refusal};
use basics::search::first_zero;

// A text has at most so many bytes, and no byte 0.
pub(crate) fn check_text(text: &[u8], limit: usize) -> Result<(), Refusal>
    ensures { result ≡ answer (text_check limit text.now) tt }
{
    if text.len() > limit {
        return Err(Reason::TooLong.at(0));
    }
    match first_zero(text) {
        Some(place) => Err(Reason::ZeroByte.at(place)),
        None => Ok(()),
    }
}
