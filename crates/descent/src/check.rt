// Reading a whole script or template, with the checks before it.
ghost use Rattle.std.specs.Prelude.{◌≡◌, ◌<◌, length, IfOk, Some, Err, vec_len};
ghost use Rattle.basics.specs.Checks.{refusal};
ghost use Rattle.basics.specs.declared.refusal.Reason.TheVariants.{TooLong};
ghost use Rattle.basics.specs.declared.refusal.Refusal.{Refusal as ARefusal};
ghost use Rattle.descent_lexer.specs.declared.fault.Fault.TheVariants.{Refused};

use super::level::Level;
use super::reader::Reader;
use basics::refusal::Reason;
use descent_lexer::fault::{Fault, refused};
use descent_lexer::item::{Alias, Reading};
use descent_lexer::text::Text;
use std::alloc::{AllocError, Global};

const LONGEST_SCRIPT: usize = 4096;

const LONGEST_TEMPLATE: usize = 1024;

// The items of a script under these aliases, and the refusal that ended them.
pub fn read_script(heap: Global, script: &[u8], aliases: &[Alias]) -> Result<Reading, AllocError>
    ensures { 4096 < length script.now → IfOk result (λ x. (x.refusal ≡ Some (refusal TooLong 0)) × (vec_len x.items ≡ 0)) }
{
    let text = text_of(heap, script, LONGEST_SCRIPT, Text::of_script);
    read(heap, text, aliases)
}

// The same of a template, in which `@{` and a digit and `}` are a hole.
pub fn read_template(
    heap: Global,
    template: &[u8],
    aliases: &[Alias],
) -> Result<Reading, AllocError>
    ensures { 1024 < length template.now → IfOk result (λ x. (x.refusal ≡ Some (refusal TooLong 0)) × (vec_len x.items ≡ 0)) }
{
    let text = text_of(heap, template, LONGEST_TEMPLATE, Text::of_template);
    read(heap, text, aliases)
}

// The text that `make` makes of the bytes, where they may be read.
fn text_of<F: FnOnce(Global, &[u8]) -> Result<Text, Fault>>(
    heap: Global,
    bytes: &[u8],
    longest: usize,
    make: F,
) -> Result<Text, Fault>
    requires { F.IsAlwaysCallable make }
    ensures { longest < length bytes.now → result ≡ Err (Refused (refusal TooLong 0)) }
{
    admissible(bytes, longest)?;
    make(heap, bytes)
}

// Not too long, and free of byte 0.
fn admissible(bytes: &[u8], longest: usize) -> Result<(), Fault>
    ensures { longest < length bytes.now → result ≡ Err (Refused (refusal TooLong 0)) }
{
    if bytes.len() > longest {
        return Err(refused(Reason::TooLong, 0));
    }
    match bytes.iter().position(|b| *b == 0) {
        Some(place) => Err(refused(Reason::ZeroByte, place)),
        None => Ok(()),
    }
}

// Reads the text, unless it was refused already: then there are no items.
fn read(heap: Global, text: Result<Text, Fault>, aliases: &[Alias]) -> Result<Reading, AllocError>
    ensures { (f : ARefusal) → text ≡ Err (Refused f) → IfOk result (λ x. (x.refusal ≡ Some f) × (vec_len x.items ≡ 0)) }
{
    let mut reader = match text {
        Ok(text) => Reader::new(heap, text, aliases),
        Err(fault) => {
            return Ok(Reading {
                items: Vec::new(heap),
                refusal: Some(fault.refusal()?),
            });
        }
    };
    let refusal = match reader.commands(Level::bottom()) {
        Ok(_) => None,
        Err(fault) => Some(fault.refusal()?),
    };
    let Reader { items, .. } = reader;
    Ok(Reading { items, refusal })
}
