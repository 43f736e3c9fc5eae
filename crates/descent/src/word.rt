// A word while it is read.
use descent_lexer::bytes::{begins_name, is_in_name};
use descent_lexer::fault::Fault;
use descent_lexer::item::Letter;
use std::alloc::Global;

// The words that no command may begin with.
static RESERVED: [&str; 15] = [
    "!", "{", "}", "if", "then", "elif", "else", "fi", "while", "until", "do", "done", "for",
    "case", "esac",
];

#[derive(Drop)]
pub struct Word {
    // those since its last substitution
    pub letters: Vec<Letter>,
    // where it began, and where its letters did
    pub start: usize,
    pub place: usize,
    // no quote mark, backslash, expansion or hole occurred in it
    pub plain: bool,
    // it began with a bare name and `=`
    pub assign: bool,
}

// A name: a letter or `_`, then letters, digits and `_`, all bare.
fn is_name(letters: &[Letter]) -> bool {
    matches!(letters, [Letter::Bare(first), ..] if begins_name(*first))
        && letters.iter().all(|letter| matches!(letter, Letter::Bare(b) if is_in_name(*b)))
}

impl Word {
    pub fn new(heap: Global, start: usize) -> Word {
        Word {
            letters: Vec::new(heap),
            start,
            place: start,
            plain: true,
            assign: false,
        }
    }

    pub fn bare(&mut self, b: u8) -> Result<(), Fault> {
        if b == b'=' && self.plain && is_name(self.letters.as_slice()) {
            self.assign = true;
        }
        self.letters.push(Letter::Bare(b))?;
        Ok(())
    }

    // A letter that a quote mark, a backslash, an expansion or a hole made.
    pub fn put(&mut self, letter: Letter) -> Result<(), Fault> {
        self.plain = false;
        self.letters.push(letter)?;
        Ok(())
    }

    pub fn is_number(&self) -> bool {
        self.plain
            && self.letters.iter().all(
                |letter| matches!(letter, Letter::Bare(b) if b.is_ascii_digit()),
            )
    }

    // Whether it is plain, and these bytes.
    pub fn spells(&self, bytes: &[u8]) -> bool {
        let bare = bytes.iter().map(|b| Letter::Bare(*b));
        self.plain && self.letters.iter().copied().eq(bare)
    }

    // A word that no command may begin with.
    pub fn is_reserved(&self) -> bool {
        RESERVED
            .iter()
            .any(|reserved| self.spells(reserved.as_bytes()))
    }
}
