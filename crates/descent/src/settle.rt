// What a word is, once it has ended: its role, or the alias that stands for it.
ghost use Rattle.std.specs.Prelude.{◌≡◌, ◌≤◌, OnOk};

use super::command::{Awaited, Pending, Stage};
use super::level::Level;
use super::reader::Reader;
use super::word::Word;
use basics::refusal::Reason;
use descent_lexer::bytes::is_blank;
use descent_lexer::fault::{Fault, refused};
use descent_lexer::item::{Alias, Kind, Letter, Role};
use std::alloc::Global;

const MOST_REPLACED: usize = 64;

const MOST_PENDING: usize = 8;

const LONGEST_DELIM: usize = 32;

impl<'a> Reader<'a> {
    fn give_word(&mut self, word: Word, role: Role, level: Level) -> Result<(), Fault>
        ensures text { self.new.text ≡ self.old.text }
        ensures replaced { self.new.replaced ≡ self.old.replaced }
    {
        let Word { letters, place, .. } = word;
        self.give(Kind::Word(role), level, letters, place)
    }

    // An IO number: digits directly before `<` or `>`.
    pub fn settle_number(&mut self, word: Word, level: Level) -> Result<(), Fault>
        ensures { self.new.text ≡ self.old.text }
    {
        if self.command.awaited.is_some() {
            return Err(refused(Reason::OutOfPlace, word.start));
        }
        self.give_word(word, Role::Number, level)
    }

    // Gives any other word its role, or reads the value of the alias that stands for it.
    #[cycle(replace_settle)]
    pub fn settle(&mut self, word: Word, level: Level) -> Result<(), Fault>
        ensures text { OnOk result (self.new.text ≡ self.old.text) }
        ensures replaced { OnOk result (self.old.replaced ≤ self.new.replaced) }
    {
        if let Some(awaited) = self.command.awaited.take() {
            return self.settle_awaited(awaited, word, level);
        }
        match self.command.stage {
            Stage::Done => return Err(refused(Reason::OutOfPlace, word.start)),
            Stage::Args => return self.give_word(word, Role::Arg, level),
            Stage::Start | Stage::Must => {
                if word.is_reserved() {
                    return Err(refused(Reason::OutOfPlace, word.start));
                }
            }
            Stage::Head => {}
        }
        if word.assign {
            self.command.stage = Stage::Head;
            return self.give_word(word, Role::Assign, level);
        }
        if let Some((index, alias)) = self.alias_of(&word) {
            return self.replace(index, alias, word.start, level);
        }
        self.command.stage = Stage::Args;
        self.give_word(word, Role::Name, level)
    }

    // The alias that stands for the word, and its number, unless its value is being read.
    fn alias_of(&self, word: &Word) -> Option<(usize, &'a Alias)> {
        let mut numbered = self.aliases.iter().enumerate();
        numbered.find(|(index, alias)| {
            word.spells(alias.name.as_slice()) && !self.expanding.contains(index)
        })
    }

    // The words of the alias's value in the place of the word at `place`.
    #[cycle(replace_settle)]
    fn replace(
        &mut self,
        index: usize,
        alias: &Alias,
        place: usize,
        level: Level,
    ) -> Result<(), Fault>
        ensures text { OnOk result (self.new.text ≡ self.old.text) }
        ensures replaced { OnOk result (self.old.replaced ≤ self.new.replaced) }
    {
        if self.replaced >= MOST_REPLACED {
            return Err(refused(Reason::TooManyReplacements, place));
        }
        self.replaced += 1;
        self.expanding.push(index)?;
        for word in words_of(self.heap, alias.value.as_slice(), place)? {
            self.settle(word, level)?;
        }
        let _ = self.expanding.pop();
        Ok(())
    }

    // The word that a redirection awaited.
    fn settle_awaited(&mut self, awaited: Awaited, word: Word, level: Level) -> Result<(), Fault>
        ensures text { self.new.text ≡ self.old.text }
        ensures replaced { self.new.replaced ≡ self.old.replaced }
    {
        match awaited {
            Awaited::Target => self.give_word(word, Role::Target, level),
            Awaited::Delimiter { tabs } => {
                if self.pending >= MOST_PENDING {
                    return Err(refused(Reason::HereDocument, word.start));
                }
                let delim = delim_of(self.heap, &word)?;
                self.pending += 1;
                self.command.pending.push(Pending { delim, tabs })?;
                self.give_word(word, Role::Delim, level)
            }
        }
    }
}

// The bytes of a delimiter: few enough, and none of them a newline.
fn delim_of(heap: Global, word: &Word) -> Result<Vec<u8>, Fault> {
    let mut delim = Vec::new(heap);
    if word.letters.len() > LONGEST_DELIM {
        return Err(refused(Reason::HereDocument, word.start));
    }
    for letter in word.letters.iter() {
        match *letter {
            Letter::Bare(b) | Letter::Quoted(b) if b != b'\n' => delim.push(b)?,
            _ => return Err(refused(Reason::HereDocument, word.start)),
        }
    }
    Ok(delim)
}

// The words of an alias's value, all at the place of the word that they stand for.
fn words_of(heap: Global, value: &[u8], place: usize) -> Result<Vec<Word>, Fault> {
    let mut words = Vec::new(heap);
    for bytes in value.split(|b| is_blank(*b)) {
        if !bytes.is_empty() {
            words.push(word_of(heap, bytes, place)?)?;
        }
    }
    Ok(words)
}

fn word_of(heap: Global, bytes: &[u8], place: usize) -> Result<Word, Fault> {
    let mut word = Word::new(heap, place);
    for b in bytes {
        word.bare(*b)?;
    }
    Ok(word)
}
