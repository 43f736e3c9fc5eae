// A word begins, goes on and ends.
ghost use Rattle.std.specs.Prelude.{◌≡◌, ◌&&◌, [], OnErr};
ghost use Rattle.commands.specs.Roles.{use_of};
ghost use Rattle.commands.specs.declared.awaited.Awaited.TheVariants as awaited;
ghost use Rattle.reading.specs.States.{command, set_command, set_word, gap, assigned, depth};
ghost use Rattle.reading.specs.Words.{longer, noted, bare, quoted, enter, given_as, bad_delimiter, delimited, by_use, reserved, use_here, used, word_ends};
ghost use Rattle.reader.specs.Pens.{Lays};
ghost use Rattle.reader.specs.Holding.{word_of, command_of, documents_of, state_of};

use crate::sink::{Pen, Sink};
use crate::state::{Command, Documents, State, Word};
use basics::refusal::{Reason, Refusal};
use commands::awaited::Awaited;
use commands::item::Kind;
use commands::queue::Waiting;
use commands::reserved::is_reserved;
use commands::role::{Role, Use, use_of};
use commands::stage::Stage;
use reading::act::{Act, At};
use reading::mode::Mode;
use tokens::begun::Begun;
use tokens::letter::Mark;
use tokens::opening::Opening;

// The word is an assignment if it is before the command's name.
pub fn is_assigned(m: Mode) -> bool
    ensures { result ≡ assigned m }
{
    match m {
        Mode::Plain(o) => o.is_assign(),
        Mode::Mixed(y) => y,
        _ => false,
    }
}

impl Command {
    // At a stage, where no redirection awaits its word.
    pub(crate) fn at(stage: Stage) -> Self
        ensures { command_of result ≡ command stage awaited.Nothing }
    {
        Command {
            stage,
            awaited: Awaited::Nothing,
        }
    }
}

impl Word {
    // A bare byte more.
    pub fn lengthen(&mut self, b: u8)
        ensures { word_of self.new ≡ longer b (word_of self.old) }
    {
        match self.mode {
            Mode::Gap => {
                self.mode = Mode::Plain(Opening::of(b));
                self.kept.begin(b);
            }
            Mode::Plain(o) => {
                self.mode = Mode::Plain(o.further(b));
                self.kept.push(b);
            }
            _ => {}
        }
    }

    // In a mode that keeps no bytes.
    pub fn set(&mut self, m: Mode)
        ensures mode { (word_of self.new).mode ≡ m }
        ensures kept { (word_of self.new).kept ≡ [] }
    {
        self.mode = m;
        self.kept.clear();
    }

    // It is plain and reserved.
    pub fn is_reserved(&self) -> bool
        ensures { result ≡ reserved (word_of self.now) }
    {
        matches!(self.mode, Mode::Plain(_)) && is_reserved(self.kept.text())
    }
}

impl State {
    // A letter of an awaited delimiter is kept.
    pub fn note(&mut self, b: u8)
        ensures { state_of self.new ≡ noted b (state_of self.old) }
    {
        if let Awaited::Delimiter(_) = self.command.awaited {
            self.documents.letters.push(b);
        }
    }

    // A word is entered, or gone on with, that is not plain.
    pub fn enter(&mut self)
        ensures { state_of self.new ≡ enter (state_of self.old) }
    {
        self.begun = Begun::Nothing;
        let assign = is_assigned(self.word.mode);
        self.word.set(Mode::Mixed(assign));
    }

    // A bare letter; `from` says where a word begins with it.
    pub fn bare<W: Sink>(&mut self, b: u8, from: Act, pen: &mut Pen<W>) -> Result<(), Refusal>
        ensures lays { Lays W.Sink (bare b from (state_of self.old)) pen.old result self.new pen.new }
        ensures kept { OnErr result (state_of self.new ≡ state_of self.old) }
    {
        if let Mode::Gap = self.word.mode {
            pen.put(from)?;
        }
        pen.letter(Mark::Bare, b)?;
        self.word.lengthen(b);
        self.note(b);
        Ok(())
    }

    pub fn quoted<W: Sink>(&mut self, b: u8, from: Act, pen: &mut Pen<W>) -> Result<(), Refusal>
        ensures lays { Lays W.Sink (quoted b from (state_of self.old)) pen.old result self.new pen.new }
        ensures kept { OnErr result (state_of self.new ≡ state_of self.old) }
    {
        if let Mode::Gap = self.word.mode {
            pen.put(from)?;
        }
        pen.letter(Mark::Quoted, b)?;
        self.enter();
        self.note(b);
        Ok(())
    }

    // The word is given in a role, and the command goes on.
    fn give_word<W: Sink>(
        &mut self,
        role: Role,
        command: Command,
        pen: &mut Pen<W>,
    ) -> Result<(), Refusal>
        ensures { Lays W.Sink (given_as role (command_of command) (state_of self.old)) pen.old result self.new pen.new }
    {
        pen.put(Act::Item(Kind::Word(role), self.frames.depth(), At::Word))?;
        self.word.set(Mode::Gap);
        self.command = command;
        Ok(())
    }

    // The delimiter of a here-document, which waits for its body from now on.
    fn delimited<W: Sink>(&mut self, dash: bool, pen: &mut Pen<W>) -> Result<(), Refusal>
        ensures { Lays W.Sink (delimited dash (state_of self.old)) pen.old result self.new pen.new }
    {
        if self.documents.is_bad_delimiter() {
            return Err(pen.refusal(Reason::HereDocument, At::First));
        }
        let _ = self.documents.waiting.push(Waiting {
            dash,
            delimiter: self.documents.letters,
        });
        self.give_word(Role::Delim, Command::at(self.command.stage), pen)
    }

    pub fn use_here(&self) -> Option<Use>
        ensures { result ≡ use_here (state_of self.now) }
    {
        use_of(
            self.command.stage,
            self.word.is_reserved(),
            is_assigned(self.word.mode),
        )
    }

    // A word in command text, by whether it is an IO number: one may not stand where a redirection awaits its word.
    fn use_word<W: Sink>(&mut self, number: bool, pen: &mut Pen<W>) -> Result<(), Refusal>
        ensures { Lays W.Sink (used number (state_of self.old)) pen.old result self.new pen.new }
    {
        match self.command.awaited {
            Awaited::Nothing => {
                if number {
                    return self.give_word(Role::Number, self.command, pen);
                }
                if let Stage::Args = self.command.stage {
                    return self.give_word(Role::Arg, self.command, pen);
                }
                match self.use_here() {
                    Some(u) => self.give_word(u.role, Command::at(u.stage), pen),
                    None => Err(pen.refusal(Reason::OutOfPlace, At::First)),
                }
            }
            _ if number => Err(pen.refusal(Reason::OutOfPlace, At::First)),
            Awaited::Target => {
                self.give_word(Role::Target, Command::at(self.command.stage), pen)
            }
            Awaited::Delimiter(dash) => self.delimited(dash, pen),
        }
    }

    // The word ends, if there is one; directly before `<` or `>` a plain word of digits is an IO number.
    // Stays: a yes or no, as the definition takes it: whether one of these comes next.
    pub fn word_ends<W: Sink>(&mut self, redirected: bool, pen: &mut Pen<W>) -> Result<(), Refusal>
        ensures { Lays W.Sink (word_ends redirected (state_of self.old)) pen.old result self.new pen.new }
    {
        match self.word.mode {
            Mode::Gap | Mode::Body(_, _) => Ok(()),
            Mode::Comment => {
                self.word.set(Mode::Gap);
                Ok(())
            }
            Mode::Plain(o) => self.use_word(redirected && o.is_number(), pen),
            Mode::Mixed(_) => self.use_word(false, pen),
        }
    }
}

impl Documents {
    // A delimiter has at most 32 letters and no newline, and at most 8 wait.
    fn is_bad_delimiter(&self) -> bool
        ensures { result ≡ bad_delimiter (documents_of self.now) }
    {
        self.letters.len() > 32 || self.letters.has(b'\n') || self.waiting.count() >= 8
    }
}
