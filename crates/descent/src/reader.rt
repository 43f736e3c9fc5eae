// The reader: commands, words, quotes, expansions and substitutions, each by a function that calls the others.
// Each says how much of the text it leaves, so that the loops over what is left are seen to end.
ghost use Rattle.std.specs.Prelude.{◌≡◌, ◌-◌, ◌≤◌, OnOk};
ghost use Rattle.descent_lexer.specs.Text.{left};

use super::command::{Command, Stage};
use super::level::{Frame, Level};
use super::word::Word;
use basics::refusal::Reason;
use descent_lexer::bytes::{begins_name, begins_operator, is_blank, is_in_name, is_parameter};
use descent_lexer::fault::{Fault, refused};
use descent_lexer::item::{Alias, Item, Kind, Letter, Operator};
use descent_lexer::operators::operator_after;
use descent_lexer::text::{Sign, Text};
use std::alloc::Global;

#[derive(Drop)]
pub struct Reader<'a> {
    pub heap: Global,
    pub text: Text,
    pub aliases: &'a [Alias],
    // the command that is being read, of the innermost substitution
    pub command: Command,
    pub items: Vec<Item>,
    // words replaced so far
    pub replaced: usize,
    // the aliases whose values are being read, outermost first
    pub expanding: Vec<usize>,
    // here-documents whose bodies are to come, over all nesting
    pub pending: usize,
}

impl<'a> Reader<'a> {
    pub fn new(heap: Global, text: Text, aliases: &'a [Alias]) -> Reader<'a> {
        Reader {
            heap,
            text,
            aliases,
            command: Command::new(heap),
            items: Vec::new(heap),
            replaced: 0,
            expanding: Vec::new(heap),
            pending: 0,
        }
    }

    pub fn give(
        &mut self,
        kind: Kind,
        level: Level,
        letters: Vec<Letter>,
        place: usize,
    ) -> Result<(), Fault>
        ensures text { self.new.text ≡ self.old.text }
        ensures replaced { self.new.replaced ≡ self.old.replaced }
    {
        self.items.push(Item {
            kind,
            depth: level.depth,
            letters,
            place,
        })?;
        Ok(())
    }

    fn give_mark(&mut self, kind: Kind, level: Level, place: usize) -> Result<(), Fault>
        ensures { self.new.text ≡ self.old.text }
    {
        self.give(kind, level, Vec::new(self.heap), place)
    }

    // Commands up to the `)` that closes their frame, or to the end of the text; the answer is the place of that.
    #[cycle(commands_dollar_double_quotes_group_operator_piece_substitution_word)]
    pub fn commands(&mut self, level: Level) -> Result<usize, Fault>
        ensures { OnOk result (left self.new.text ≤ left self.old.text) }
    {
        while let Some(sign) = self.text.peek() {
            match sign {
                Sign::Byte(b'#') => self.comment()?,
                Sign::Byte(b) if is_blank(b) => self.text.skip(),
                Sign::Byte(b) if begins_operator(b) => {
                    let place = self.text.place();
                    if self.operator(b, level)? {
                        return Ok(place);
                    }
                }
                first => self.word(first, level)?,
            }
        }
        let end = self.text.end();
        if level.depth > 0 {
            return Err(refused(Reason::Unfinished, end));
        }
        self.command.ends(end)?;
        Ok(end)
    }

    // A comment, from its `#` to the newline that ends it.
    fn comment(&mut self) -> Result<(), Fault>
        ensures { OnOk result (left self.new.text ≤ left self.old.text - 1) }
    {
        self.text.skip();
        while let Some(b) = self.text.byte()? {
            if b == b'\n' {
                break;
            }
            self.text.skip();
        }
        Ok(())
    }

    // The operator that begins with `first`; the answer is whether it closes the frame.
    #[cycle(commands_dollar_double_quotes_group_operator_piece_substitution_word)]
    fn operator(&mut self, first: u8, level: Level) -> Result<bool, Fault>
        ensures { OnOk result (left self.new.text ≤ left self.old.text - 1) }
    {
        let place = self.text.place();
        self.text.skip();
        let Some(operator) = operator_after(first, &mut self.text) else {
            return Ok(false);
        };
        match operator {
            Operator::Open => self.group(place, level)?,
            Operator::Close => self.close(place, level)?,
            _ => {
                self.command.operate(operator, place)?;
                self.give_mark(Kind::Operator(operator), level, place)?;
                if operator == Operator::Newline {
                    self.bodies(level)?;
                }
            }
        }
        Ok(operator == Operator::Close)
    }

    #[cycle(commands_dollar_double_quotes_group_operator_piece_substitution_word)]
    fn group(&mut self, place: usize, level: Level) -> Result<(), Fault>
        ensures { OnOk result (left self.new.text ≤ left self.old.text) }
    {
        if !self.command.may_open() {
            return Err(refused(Reason::OutOfPlace, place));
        }
        let inner = level.within(Frame::Group, place)?;
        self.give_mark(Kind::Operator(Operator::Open), level, place)?;
        self.command.stage = Stage::Must;
        self.commands(inner)?;
        self.command.stage = Stage::Done;
        Ok(())
    }

    fn close(&mut self, place: usize, level: Level) -> Result<(), Fault>
        ensures { self.new.text ≡ self.old.text }
    {
        if level.frame == Frame::Bottom || !self.command.may_close() {
            return Err(refused(Reason::OutOfPlace, place));
        }
        if level.frame == Frame::Group {
            return self.give_mark(Kind::Operator(Operator::Close), level, place);
        }
        if !self.command.pending.is_empty() {
            return Err(refused(Reason::HereDocument, place));
        }
        self.give_mark(Kind::Close, level, place)
    }

    // One word, from its first symbol to the symbol that ends it.
    #[cycle(commands_dollar_double_quotes_group_operator_piece_substitution_word)]
    fn word(&mut self, first: Sign, level: Level) -> Result<(), Fault>
        ensures { OnOk result (left self.new.text ≤ left self.old.text - 1) }
    {
        let mut word = Word::new(self.heap, self.text.place());
        self.piece(&mut word, first, level)?;
        while let Some(sign) = self.text.peek() {
            if ends_word(sign) {
                break;
            }
            self.piece(&mut word, sign, level)?;
        }
        let redirects = self.text.comes(b'<') || self.text.comes(b'>');
        if redirects && word.is_number() {
            return self.settle_number(word, level);
        }
        self.settle(word, level)
    }

    // What a symbol of a word begins.
    #[cycle(commands_dollar_double_quotes_group_operator_piece_substitution_word)]
    fn piece(&mut self, word: &mut Word, sign: Sign, level: Level) -> Result<(), Fault>
        ensures { OnOk result (left self.new.text ≤ left self.old.text - 1) }
    {
        match sign {
            Sign::Hole(digit) => self.hole(word, digit, level),
            Sign::Byte(b'\\') => self.backslash(word),
            Sign::Byte(b'\'') => self.single_quotes(word, level),
            Sign::Byte(b'"') => self.double_quotes(word, level),
            Sign::Byte(b'$') => self.dollar(word, level),
            Sign::Byte(b'`') => Err(refused(Reason::ExpansionNotTaken, self.text.place())),
            Sign::Byte(b) => {
                self.text.skip();
                word.bare(b)
            }
        }
    }

    // Double quotes, from the opening one to the closing one.
    #[cycle(commands_dollar_double_quotes_group_operator_piece_substitution_word)]
    fn double_quotes(&mut self, word: &mut Word, level: Level) -> Result<(), Fault>
        ensures { OnOk result (left self.new.text ≤ left self.old.text - 1) }
    {
        let inner = level.within(Frame::Quotes, self.text.place())?;
        self.text.skip();
        word.plain = false;
        while let Some(sign) = self.text.peek() {
            match sign {
                Sign::Hole(_) => return Err(refused(Reason::HoleNotTaken, self.text.place())),
                Sign::Byte(b'"') => {
                    self.text.skip();
                    return Ok(());
                }
                Sign::Byte(b'\\') => self.backslash_in_quotes(word)?,
                Sign::Byte(b'$') => self.dollar(word, inner)?,
                Sign::Byte(b'`') => {
                    return Err(refused(Reason::ExpansionNotTaken, self.text.place()));
                }
                Sign::Byte(b) => {
                    self.text.skip();
                    word.put(Letter::Quoted(b))?;
                }
            }
        }
        Err(refused(Reason::OpenQuote, self.text.end()))
    }

    // A `$` and what belongs to it.
    #[cycle(commands_dollar_double_quotes_group_operator_piece_substitution_word)]
    fn dollar(&mut self, word: &mut Word, level: Level) -> Result<(), Fault>
        ensures { OnOk result (left self.new.text ≤ left self.old.text - 1) }
    {
        let place = self.text.place();
        self.text.skip();
        match self.text.peek() {
            Some(Sign::Byte(b'(')) => {
                self.text.skip();
                if self.text.comes(b'(') {
                    return Err(refused(Reason::ExpansionNotTaken, place));
                }
                self.substitution(word, place, level)
            }
            Some(Sign::Byte(b'{')) => {
                self.text.skip();
                self.braced(word, place)?;
                self.command.takes_expansion(word.start)
            }
            Some(Sign::Byte(b)) if begins_name(b) => {
                self.command.takes_expansion(word.start)?;
                word.put(Letter::Expansion(b'$'))?;
                self.name(word)
            }
            Some(Sign::Byte(b)) if is_parameter(b) => {
                self.command.takes_expansion(word.start)?;
                self.text.skip();
                word.put(Letter::Expansion(b'$'))?;
                word.put(Letter::Expansion(b))
            }
            Some(Sign::Hole(_)) => Err(refused(Reason::HoleNotTaken, self.text.place())),
            _ if level.frame == Frame::Quotes => word.put(Letter::Quoted(b'$')),
            _ => word.bare(b'$'),
        }
    }

    // A name, as long as it goes.
    fn name(&mut self, word: &mut Word) -> Result<(), Fault>
        ensures { OnOk result (left self.new.text ≤ left self.old.text) }
    {
        while let Some(Sign::Byte(b)) = self.text.peek() {
            if !is_in_name(b) {
                break;
            }
            self.text.skip();
            word.put(Letter::Expansion(b))?;
        }
        Ok(())
    }

    // After `${`: a name and `}`, and nothing else is taken.
    fn braced(&mut self, word: &mut Word, place: usize) -> Result<(), Fault>
        ensures { OnOk result (left self.new.text ≤ left self.old.text) }
    {
        word.put(Letter::Expansion(b'$'))?;
        word.put(Letter::Expansion(b'{'))?;
        match self.text.peek() {
            Some(Sign::Byte(b)) if begins_name(b) => self.name(word)?,
            _ => return Err(refused(Reason::ExpansionNotTaken, place)),
        }
        if !self.text.takes(b'}') {
            return Err(refused(Reason::ExpansionNotTaken, place));
        }
        word.put(Letter::Expansion(b'}'))
    }

    // After `$(`: commands of their own, up to the `)`; then the word goes on.
    #[cycle(commands_dollar_double_quotes_group_operator_piece_substitution_word)]
    fn substitution(&mut self, word: &mut Word, place: usize, level: Level) -> Result<(), Fault>
        ensures { OnOk result (left self.new.text ≤ left self.old.text) }
    {
        self.command.takes_expansion(word.start)?;
        let inner = level.within(Frame::Substitution, place)?;
        let letters = std::mem::replace(&mut word.letters, Vec::new(self.heap));
        self.give(Kind::Part, level, letters, word.place)?;
        self.give_mark(Kind::Open, level, place)?;
        let outer = std::mem::replace(&mut self.command, Command::new(self.heap));
        let closed = self.commands(inner)?;
        self.command = outer;
        word.plain = false;
        word.place = closed.saturating_add(1);
        Ok(())
    }

    // A hole, where quotes could be opened, since its text will stand in them.
    fn hole(&mut self, word: &mut Word, digit: u8, level: Level) -> Result<(), Fault>
        ensures { OnOk result (left self.new.text ≤ left self.old.text - 1) }
    {
        let place = self.text.place();
        if !self.command.takes_hole(word.assign) {
            return Err(refused(Reason::HoleNotTaken, place));
        }
        level.within(Frame::Quotes, place)?;
        self.text.skip();
        word.put(Letter::Hole(digit))
    }
}

fn ends_word(sign: Sign) -> bool {
    matches!(sign, Sign::Byte(b) if is_blank(b) || begins_operator(b))
}
