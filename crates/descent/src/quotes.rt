// Single quotes and backslashes.
ghost use Rattle.std.specs.Prelude.{◌-◌, ◌≤◌, OnOk};
ghost use Rattle.descent_lexer.specs.Text.{left};

use super::level::{Frame, Level};
use super::reader::Reader;
use super::word::Word;
use basics::refusal::Reason;
use descent_lexer::fault::{Fault, refused};
use descent_lexer::item::Letter;

impl<'a> Reader<'a> {
    // Single quotes, from the opening one to the closing one.
    pub fn single_quotes(&mut self, word: &mut Word, level: Level) -> Result<(), Fault>
        ensures { OnOk result (left self.new.text ≤ left self.old.text - 1) }
    {
        level.within(Frame::Quotes, self.text.place())?;
        self.text.skip();
        word.plain = false;
        while let Some(b) = self.text.take_byte()? {
            if b == b'\'' {
                return Ok(());
            }
            word.put(Letter::Quoted(b))?;
        }
        Err(refused(Reason::OpenQuote, self.text.end()))
    }

    // A backslash in command text, and the byte that it quotes.
    pub fn backslash(&mut self, word: &mut Word) -> Result<(), Fault>
        ensures { OnOk result (left self.new.text ≤ left self.old.text - 1) }
    {
        self.text.skip();
        match self.text.take_byte()? {
            Some(b) => word.put(Letter::Quoted(b)),
            None => Err(refused(Reason::OpenQuote, self.text.end())),
        }
    }

    // A backslash in double quotes: it quotes the bytes that mean something there, and is itself a letter before others.
    pub fn backslash_in_quotes(&mut self, word: &mut Word) -> Result<(), Fault>
        ensures { OnOk result (left self.new.text ≤ left self.old.text - 1) }
    {
        self.text.skip();
        match self.text.byte()? {
            Some(b @ (b'$' | b'`' | b'"' | b'\\')) => {
                self.text.skip();
                word.put(Letter::Quoted(b))
            }
            Some(_) => word.put(Letter::Quoted(b'\\')),
            None => Err(refused(Reason::OpenQuote, self.text.end())),
        }
    }
}
