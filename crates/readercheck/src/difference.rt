// Texts that the readers do not agree on.
use basics::refusal::Refusal;
use comparing::beside::Text;
use comparing::differences::Said;
use descent_lexer::item::Alias;
use std::alloc::{AllocError, Global};
use std::fmt;

#[derive(Clone, Copy)]
pub enum ReadAs {
    Script,
    Template,
}

impl fmt::Display for ReadAs {
    fn fmt<W: fmt::Write>(&self, f: &mut fmt::Formatter<W>) -> fmt::Result {
        f.write_str(match self {
            ReadAs::Script => "script",
            ReadAs::Template => "template",
        })
    }
}

// What a reader said of a text, as far as it is shown.
pub type Verdict = Said<&'static str>;

pub fn verdict<T: Drop>(answer: Result<T, Refusal>) -> Verdict {
    Said(answer.map(|_| "accepted"))
}

#[derive(Drop)]
pub struct Difference {
    read_as: ReadAs,
    text: Vec<u8>,
    aliases: Vec<u8>,
    second: Verdict,
    product: Verdict,
}

impl Difference {
    pub fn new(
        heap: Global,
        read_as: ReadAs,
        text: &Text,
        second: Verdict,
        product: Verdict,
    ) -> Result<Self, AllocError> {
        Ok(Difference {
            read_as,
            text: Vec::from_slice(heap, text.bytes)?,
            aliases: written(heap, text.aliases)?,
            second,
            product,
        })
    }
}

impl fmt::Display for Difference {
    fn fmt<W: fmt::Write>(&self, f: &mut fmt::Formatter<W>) -> fmt::Result {
        write!(
            f,
            "{} \"{}\" under \"{}\": the second reader: {}; the product: {}",
            self.read_as,
            self.text.as_slice().escape_ascii(),
            self.aliases.as_slice().escape_ascii(),
            self.second,
            self.product
        )
    }
}

// Each by its name and value, up to a `;`, which no value has.
fn written(heap: Global, aliases: &[Alias]) -> Result<Vec<u8>, AllocError> {
    let mut all = Vec::new(heap);
    for alias in aliases {
        all.extend_from_slice(alias.name.as_slice())?;
        all.push(b'=')?;
        all.extend_from_slice(alias.value.as_slice())?;
        all.push(b';')?;
    }
    Ok(all)
}
