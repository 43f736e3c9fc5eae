// The families of texts, each with a tally of its own.
use super::beside::Beside;
use super::run::Run;
use super::tally::Tally;
use scripts::{EXAMPLES, Strings};
use std::alloc::{AllocError, Global};
use std::fmt;

#[derive(Clone, Copy)]
pub enum Family {
    // every string of up to so many bytes that mean something, in every room, and with and without aliases
    Rooms(usize),
    Strings(usize),
    // of bytes of lists and redirections, and of quotes and substitutions
    Lists(usize),
    Quotes(usize),
    // every template of up to so many symbols
    Holes(usize),
    Examples,
    Random(Kind),
}

// What random texts are.
#[derive(Clone, Copy)]
pub enum Kind {
    Scripts,
    DamagedScripts,
    SplicedScripts,
    Edges,
    Templates,
    DamagedTemplates,
}

// The bytes that mean something to a reader.
const TELLING: &str = "a1 \n'\"\\$(){}`&|;<>#=-@!";
// A few of them, for longer strings: of lists and redirections, and of quotes and substitutions.
const LISTING: &str = "a \n;&|<>(";

const QUOTING: &str = "a\n'\"\\$()";

// Those that matter beside a hole, which stands where this has `@`.
const HOLDING: &str = "a1 \n'\"\\$(){}&;<>#=@";

impl fmt::Display for Family {
    fn fmt<W: fmt::Write>(&self, f: &mut fmt::Formatter<W>) -> fmt::Result {
        match self {
            Family::Rooms(longest) => write!(f, "strings of up to {longest} bytes, in every room"),
            Family::Strings(longest) => write!(f, "strings of up to {longest} bytes"),
            Family::Lists(longest) => write!(f, "strings of up to {longest} bytes, of lists"),
            Family::Quotes(longest) => write!(f, "strings of up to {longest} bytes, of quotes"),
            Family::Holes(longest) => write!(f, "templates of up to {longest} symbols"),
            Family::Examples => write!(f, "examples, in every room"),
            Family::Random(kind) => write!(f, "{kind}"),
        }
    }
}

impl fmt::Display for Kind {
    fn fmt<W: fmt::Write>(&self, f: &mut fmt::Formatter<W>) -> fmt::Result {
        f.write_str(match self {
            Kind::Scripts => "scripts",
            Kind::DamagedScripts => "damaged scripts",
            Kind::SplicedScripts => "scripts with parts of others",
            Kind::Edges => "texts at the edges",
            Kind::Templates => "templates",
            Kind::DamagedTemplates => "damaged templates",
        })
    }
}

impl Kind {
    // How many of them are read.
    fn count(self) -> usize {
        match self {
            Kind::Edges => 10_000,
            _ => 40_000,
        }
    }
}

impl<B: Beside> Run<B> {
    // Reads the texts of one family.
    pub(crate) fn read_family(&mut self, family: Family) -> Result<Tally, AllocError> {
        self.tally = Tally::new();
        match family {
            Family::Rooms(longest) => self.rooms(longest)?,
            Family::Strings(longest) => self.strings(TELLING, longest)?,
            Family::Lists(longest) => self.strings(LISTING, longest)?,
            Family::Quotes(longest) => self.strings(QUOTING, longest)?,
            Family::Holes(longest) => self.holes(longest)?,
            Family::Examples => self.examples()?,
            Family::Random(kind) => self.texts(kind)?,
        }
        Ok(self.tally)
    }

    // Every string of up to `longest` bytes, in every room.
    fn rooms(&mut self, longest: usize) -> Result<(), AllocError> {
        self.under_entwined()?;
        let mut strings = Strings::new(self.heap, TELLING, longest)?;
        strings.each(self.heap, |text| self.try_rooms(text))
    }

    // Every string of up to `longest` bytes, under no aliases and under the fixed ones.
    fn strings(&mut self, alphabet: &str, longest: usize) -> Result<(), AllocError> {
        self.without_aliases();
        self.each_string(alphabet, longest)?;
        self.under_entwined()?;
        self.each_string(alphabet, longest)
    }

    fn each_string(&mut self, alphabet: &str, longest: usize) -> Result<(), AllocError> {
        let mut strings = Strings::new(self.heap, alphabet, longest)?;
        strings.each(self.heap, |text| self.try_text(text))
    }

    // Every string of up to `longest` symbols with a hole among them, under the fixed aliases.
    fn holes(&mut self, longest: usize) -> Result<(), AllocError> {
        self.under_entwined()?;
        let mut strings = Strings::new(self.heap, HOLDING, longest)?;
        strings.each(self.heap, |text| {
            if text.contains(&b'@') {
                let template = with_holes(self.heap, text)?;
                self.try_template(template.as_slice())?;
            }
            Ok(())
        })
    }

    fn examples(&mut self) -> Result<(), AllocError> {
        self.under_entwined()?;
        for text in &EXAMPLES {
            self.try_rooms(text.as_bytes())?;
            self.try_template(text.as_bytes())?;
        }
        Ok(())
    }

    // Random texts, each under aliases of its own.
    fn texts(&mut self, kind: Kind) -> Result<(), AllocError> {
        let mut text = Vec::new(self.heap);
        for _ in 0..kind.count() {
            self.under_others()?;
            self.make(kind, &mut text)?;
            self.try_text(text.as_slice())?;
        }
        Ok(())
    }

    fn make(&mut self, kind: Kind, text: &mut Vec<u8>) -> Result<(), AllocError> {
        match kind {
            Kind::Scripts => self.scripts.script(text),
            Kind::DamagedScripts => {
                self.scripts.script(text)?;
                self.scripts.damage(text)
            }
            Kind::SplicedScripts => {
                let mut other = Vec::new(self.heap);
                self.scripts.script(&mut other)?;
                self.scripts.script(text)?;
                self.scripts.splice(text, other.as_slice())
            }
            Kind::Edges => self.scripts.edge(text),
            Kind::Templates => self.scripts.template(text),
            Kind::DamagedTemplates => {
                self.scripts.template(text)?;
                self.scripts.damage(text)
            }
        }
    }
}

// A template with a hole for each `@`.
fn with_holes(heap: Global, text: &[u8]) -> Result<Vec<u8>, AllocError> {
    let mut template = Vec::new(heap);
    for b in text {
        match b {
            b'@' => template.extend_from_slice(b"@{0}")?,
            _ => template.push(*b)?,
        }
    }
    Ok(template)
}
