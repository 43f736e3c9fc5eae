// There and back: a text's form is written, and read back.
ghost use Rattle.std.specs.Prelude.{◌≡◌};
ghost use Rattle.basics.specs.Pages.{written};
ghost use Rattle.quoting.specs.Forms.{Lawful, UnquotingTakesLawfulForms};
ghost use Rattle.quoting.specs.Trips.{Returns, left_back, told_back};

use crate::quoter::Quoter;
use crate::unquote::{Unread, unquote};

// Writes the form of a text at the start of the page, reads it back into the start of a part, and tells the length of what came back.
// A page too short for the form, and a part too short for the text, are left as they were. With a lawful quoter the text comes back.
pub fn round_trip<Q: Quoter>(
    quoter: &Q,
    text: &[u8],
    page: &mut [u8],
    part: &mut [u8],
) -> Result<usize, Unread>
    ensures said { result ≡ told_back (Q.Quoter.form quoter.now text.now) page.old part.old }
    ensures wrote { page.new ≡ written (Q.Quoter.form quoter.now text.now) page.old }
    ensures read { part.new ≡ left_back (Q.Quoter.form quoter.now text.now) page.old part.old }
    ensures returns { Lawful (Q.Quoter.form quoter.now)
        → Returns (Q.Quoter.form quoter.now) text.now page.old part.old part.new result }
{
    let n = quoter.write(text, page)?;
    unquote(&page[..n], part)
}

// Reading back takes exactly the lawful forms, each as its text.
pub fn unquoting_takes_lawful_forms()
    ensures { UnquotingTakesLawfulForms }
{}
