// A template's holes filled with texts: its script, with a form of the text in each hole, and its items, with the text itself.
use descent_lexer::item::{Item, Letter, Reading};
use std::alloc::{AllocError, Global};

// The two forms of a text, as the rules have them, apart from the product's quoters.
pub(crate) fn put_single(out: &mut Vec<u8>, text: &[u8]) -> Result<(), AllocError> {
    out.push(b'\'')?;
    for b in text {
        match b {
            b'\'' => out.extend_from_slice(b"'\\''")?,
            _ => out.push(*b)?,
        }
    }
    out.push(b'\'')?;
    Ok(())
}

pub(crate) fn put_backslash(out: &mut Vec<u8>, text: &[u8]) -> Result<(), AllocError> {
    if text.is_empty() {
        return out.extend_from_slice(b"''");
    }
    for b in text {
        match b {
            b'\n' => out.extend_from_slice(b"'\n'")?,
            _ => out.extend_from_slice(&[b'\\', *b])?,
        }
    }
    Ok(())
}

// The text for a hole; there are ten.
fn text_of(texts: &[Vec<u8>], digit: usize) -> &[u8] {
    texts.get(digit).map_or(&[], |text| text.as_slice())
}

// The script of a template whose holes are all good ones.
pub(crate) fn script_of<F: Fn(&mut Vec<u8>, &[u8]) -> Result<(), AllocError>>(
    heap: Global,
    template: &[u8],
    texts: &[Vec<u8>],
    put_form: F,
) -> Result<Vec<u8>, AllocError>
    requires { F.IsAlwaysCallable put_form }
{
    let mut script = Vec::new(heap);
    let mut rest = template;
    while let Some((b, behind)) = rest.split_first() {
        rest = match (b, behind) {
            (b'@', [b'{', digit, b'}', after @ ..]) => {
                put_form(&mut script, text_of(texts, usize::from(digit & 15)))?;
                after
            }
            _ => {
                script.push(*b)?;
                behind
            }
        };
    }
    Ok(script)
}

fn filled(heap: Global, letters: &[Letter], texts: &[Vec<u8>]) -> Result<Vec<Letter>, AllocError> {
    let mut all = Vec::new(heap);
    for letter in letters {
        match *letter {
            Letter::Hole(digit) => {
                for b in text_of(texts, usize::from(digit)) {
                    all.push(Letter::Quoted(*b))?;
                }
            }
            other => all.push(other)?,
        }
    }
    Ok(all)
}

// Whether the script's items are the template's, filled; places are not compared.
pub(crate) fn reads_alike(
    heap: Global,
    template: &Reading,
    texts: &[Vec<u8>],
    script: &Reading,
) -> Result<bool, AllocError> {
    if script.refusal.is_some() || template.items.len() != script.items.len() {
        return Ok(false);
    }
    for (item, shown) in template.items.iter().zip(script.items.iter()) {
        if !alike(heap, item, texts, shown)? {
            return Ok(false);
        }
    }
    Ok(true)
}

fn alike(heap: Global, item: &Item, texts: &[Vec<u8>], shown: &Item) -> Result<bool, AllocError> {
    let letters = filled(heap, item.letters.as_slice(), texts)?;
    Ok(item.kind == shown.kind && item.depth == shown.depth && letters == shown.letters)
}
