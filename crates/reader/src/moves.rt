// What each symbol, and the end, does to the whole control; and whether a word stands that may be replaced.
ghost use Rattle.std.specs.Prelude.{◌≡◌, ◌&&◌};
ghost use Rattle.reader.specs.Pens.{Lays, LaysMove};
ghost use Rattle.reading.specs.States.{fresh, region_of};
ghost use Rattle.reading.specs.Holes.{hole};
ghost use Rattle.commands.specs.Redirections.{is_free};
ghost use Rattle.reading.specs.Moves.{is_must, byte, byte_escaped, alias_end, unfinished, finish, last_line, end_in, end, plain_name, name_here, named, without_word};
ghost use Rattle.reader.specs.Holding.{state_of, control_of};

use crate::sink::{Pen, Sink};
use crate::state::{Command, Documents, Reader, State, Word};
use basics::refusal::{Reason, Refusal};
use basics::stack::Stack;
use commands::awaited::Awaited;
use commands::frame::Frame;
use commands::queue::Queue;
use commands::role::is_name;
use commands::stage::Stage;
use reading::act::{Act, At};
use reading::mode::{Mode, Region};
use tokens::begun::Begun;
use tokens::kept::Kept;
use tokens::top::Top;

fn region_of(m: Mode, t: Top) -> Region
    ensures { result ≡ region_of m t }
{
    match (m, t) {
        (Mode::Comment, _) => Region::Comment,
        (Mode::Body(n, l), _) => Region::Body(n, l),
        (_, Top::Single) => Region::Single,
        (_, _) => Region::Text,
    }
}

// A plain word, and no IO number.
fn is_plain_name(redirected: bool, m: Mode) -> bool
    ensures { result ≡ plain_name redirected m }
{
    matches!(m, Mode::Plain(o) if !(redirected && o.is_number()))
}

impl State {
    fn is_unfinished(&self) -> bool
        ensures { result ≡ unfinished (state_of self.now) }
    {
        matches!(self.command.stage, Stage::Must)
            || !matches!(self.command.awaited, Awaited::Nothing)
            || self.frames.depth() > 0
    }

    // A plain word stands that would be a command's name.
    fn is_name_here(&self, redirected: bool) -> bool
        ensures { result ≡ name_here redirected (state_of self.now) }
    {
        self.begun.is_nothing()
            && is_plain_name(redirected, self.word.mode)
            && matches!(self.command.awaited, Awaited::Nothing)
            && is_name(self.use_here())
    }

    fn finish<W: Sink>(&mut self, pen: &mut Pen<W>) -> Result<(), Refusal>
        ensures { Lays W.Sink (finish (state_of self.old)) pen.old result self.new pen.new }
    {
        if self.is_unfinished() {
            Err(pen.refusal(Reason::Unfinished, At::Here))
        } else if self.documents.waits() {
            Err(pen.refusal(Reason::HereDocument, At::Here))
        } else {
            Ok(())
        }
    }

    // The last line of a body may lack its newline.
    fn last_line<W: Sink>(&mut self, pen: &mut Pen<W>) -> Result<(), Refusal>
        ensures { Lays W.Sink (last_line (state_of self.old)) pen.old result self.new pen.new }
    {
        match self.word.mode {
            Mode::Body(n, line) => {
                if self.documents.waiting.line_is(n, line) {
                    self.body_ends(n, pen)
                } else {
                    Ok(())
                }
            }
            _ => Ok(()),
        }
    }

    fn end_in<W: Sink>(&mut self, top: Top, pen: &mut Pen<W>) -> Result<(), Refusal>
        ensures { Lays W.Sink (end_in (state_of self.old) top) pen.old result self.new pen.new }
    {
        match top {
            Top::Command => {
                self.word_ends(false, pen)?;
                self.last_line(pen)?;
                self.finish(pen)
            }
            Top::Single | Top::Double => Err(pen.refusal(Reason::OpenQuote, At::Here)),
        }
    }

    // After a backslash: with a newline both are dropped; before any other byte the backslash stands, and what is begun is settled.
    fn byte_escaped<W: Sink>(&mut self, b: u8, pen: &mut Pen<W>) -> Result<(), Refusal>
        ensures { Lays W.Sink (byte_escaped b (state_of self.old)) pen.old result self.new pen.new }
    {
        if b == b'\n' {
            return Ok(());
        }
        self.settle(pen)?;
        let top = self.top();
        self.escaped(b, top, pen)
    }
}

impl Reader {
    pub fn new() -> Self
        ensures { control_of result ≡ fresh }
    {
        Reader {
            escape: false,
            at: State {
                begun: Begun::Nothing,
                word: Word {
                    mode: Mode::Gap,
                    kept: Kept::new(),
                },
                frames: Stack::new(Frame::Group),
                command: Command {
                    stage: Stage::Start,
                    awaited: Awaited::Nothing,
                },
                documents: Documents {
                    letters: Kept::new(),
                    waiting: Queue::new(),
                    outside: 0,
                },
            },
        }
    }

    pub fn byte<W: Sink>(&mut self, b: u8, pen: &mut Pen<W>) -> Result<(), Refusal>
        ensures { LaysMove W.Sink (byte b (control_of self.old)) pen.old result self.new pen.new }
    {
        if self.escape {
            self.escape = false;
            return self.at.byte_escaped(b, pen);
        }
        let top = self.at.top();
        match region_of(self.at.word.mode, top) {
            Region::Text => {
                if b == b'\\' {
                    pen.put(Act::BackslashHere)?;
                    self.escape = true;
                    Ok(())
                } else {
                    self.at.in_text(b, pen)
                }
            }
            Region::Single => self.at.in_single(b, pen),
            Region::Comment => self.at.in_comment(b, pen),
            Region::Body(n, line) => self.at.in_body(b, n, line, pen),
        }
    }

    // After a backslash what is begun is settled, and the hole is not taken.
    pub fn hole<W: Sink>(&mut self, pen: &mut Pen<W>) -> Result<(), Refusal>
        ensures { LaysMove W.Sink (hole (control_of self.old)) pen.old result self.new pen.new }
    {
        if self.escape {
            self.escape = false;
            self.at.settle(pen)?;
            return Err(pen.refusal(Reason::HoleNotTaken, At::Here));
        }
        let top = self.at.top();
        let region = region_of(self.at.word.mode, top);
        self.at.hole_in(region, pen)
    }

    // The end of an alias's value ends the word.
    pub fn alias_end<W: Sink>(&mut self, pen: &mut Pen<W>) -> Result<(), Refusal>
        ensures { LaysMove W.Sink (alias_end (control_of self.old)) pen.old result self.new pen.new }
    {
        self.escape = false;
        self.at.settle(pen)?;
        self.at.word_ends(false, pen)
    }

    // The end of the text.
    pub fn end<W: Sink>(&mut self, pen: &mut Pen<W>) -> Result<(), Refusal>
        ensures { LaysMove W.Sink (end (control_of self.old)) pen.old result self.new pen.new }
    {
        let escape = self.escape;
        self.escape = false;
        self.at.settle(pen)?;
        if escape {
            return Err(pen.refusal(Reason::OpenQuote, At::Here));
        }
        let top = self.at.top();
        self.at.end_in(top, pen)
    }

    // A plain word ends here that would be a command's name, so that it may be replaced.
    pub fn is_named(&self, redirected: bool) -> bool
        ensures { result ≡ named redirected (control_of self.now) }
    {
        if self.escape {
            return false;
        }
        match self.at.top() {
            Top::Command => self.at.is_name_here(redirected),
            _ => false,
        }
    }

    // The replaced word is gone.
    pub fn drop_word(&mut self)
        ensures { control_of self.new ≡ without_word (control_of self.old) }
    {
        self.escape = false;
        self.at.word.set(Mode::Gap);
    }
}
