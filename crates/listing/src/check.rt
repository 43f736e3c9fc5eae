// Checks a template, and tells its holes.
ghost use Rattle.std.specs.Prelude.{◌≡◌, take};
ghost use Rattle.aliases.specs.Tables.{aliases_of};
ghost use Rattle.basics.specs.Checks.{answer};
ghost use Rattle.reading.specs.Listed.{template_reading};
ghost use Rattle.listing.specs.Checking.{template_check, holes_of, template_holes, masked_holes};

use crate::mask::HoleMask;
use crate::places::Places;
use crate::read::read;
use crate::text::check_text;
use aliases::table::AliasTable;
use basics::refusal::{Reason, Refusal};
use source::alias::AliasSource;
use source::template::{TEMPLATE_LIMIT, TemplateSource, first_bad_hole};

// A template is not too long, has no byte 0, and no bad hole.
fn check_bytes(template: &[u8]) -> Result<(), Refusal>
    ensures { result ≡ answer (template_check template.now) tt }
{
    check_text(template, TEMPLATE_LIMIT)?;
    match first_bad_hole(template) {
        Some(place) => Err(Reason::BadHole.at(place)),
        None => Ok(()),
    }
}

// The mask of the holes of a template that is as long as one may be.
fn read_holes(template: &[u8], aliases: &AliasTable) -> Result<u16, Refusal>
    ensures { result ≡ holes_of (template_reading (aliases_of aliases.now).named (take 1024 template.now)) }
{
    let mut source = AliasSource::new(TemplateSource::new(template), aliases);
    let mut out = HoleMask {
        places: Places::new(),
        mask: 0,
    };
    read(&mut source, &mut out)?;
    Ok(out.mask)
}

// Reads a template under the aliases, and tells its holes: a bit for each, hole 0 the lowest. Those that its reading meets
// are those among its symbols.
pub fn check_template(template: &[u8], aliases: &AliasTable) -> Result<u16, Refusal>
    ensures met { result ≡ template_holes (aliases_of aliases.now).named template.now }
    ensures masked { result ≡ masked_holes (aliases_of aliases.now).named template.now }
{
    check_bytes(template)?;
    read_holes(template, aliases)
}
