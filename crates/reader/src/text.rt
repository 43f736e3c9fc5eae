// What a byte does in command text, in quotes, after a backslash, in a comment and in a body.
ghost use Rattle.std.specs.Prelude.{◌≡◌, ◌+◌};
ghost use Rattle.reader.specs.Pens.{Lays};
ghost use Rattle.reading.specs.Text.{push, pop, dollar_here, comment_or_letter, in_command, in_double, in_single, work, in_text, escaped, in_comment, body_ends, body_goes, in_body};
ghost use Rattle.reader.specs.Holding.{state_of};

use crate::sink::{Pen, Sink};
use crate::state::State;
use basics::refusal::{Reason, Refusal};
use basics::slices::up_to;
use commands::frame::Frame;
use commands::item::Kind;
use commands::line::{Gives, Line};
use reading::act::{Act, At};
use reading::mode::Mode;
use tokens::begun::Begun;
use tokens::bytes::is_quotable;
use tokens::class::{Class, class_of};
use tokens::letter::Mark;
use tokens::operator::Operator;
use tokens::top::Top;

impl State {
    // A quote mark opens a frame in a word.
    fn push_frame<W: Sink>(&mut self, f: Frame, pen: &mut Pen<W>) -> Result<(), Refusal>
        ensures { Lays W.Sink (push f (state_of self.old)) pen.old result self.new pen.new }
    {
        if self.frames.depth() < 32 {
            if let Mode::Gap = self.word.mode {
                pen.put(Act::WordHere)?;
            }
            self.enter();
            let _ = self.frames.push(f);
            Ok(())
        } else {
            Err(pen.refusal(Reason::TooDeep, At::Here))
        }
    }

    fn dollar_here<W: Sink>(&mut self, pen: &mut Pen<W>) -> Result<(), Refusal>
        ensures { Lays W.Sink (dollar_here (state_of self.old)) pen.old result self.new pen.new }
    {
        pen.put(Act::DollarHere)?;
        self.begun = Begun::Dollar;
        Ok(())
    }

    // `#` begins a comment where no word is begun.
    fn comment_or_letter<W: Sink>(&mut self, b: u8, pen: &mut Pen<W>) -> Result<(), Refusal>
        ensures { Lays W.Sink (comment_or_letter b (state_of self.old)) pen.old result self.new pen.new }
    {
        match self.word.mode {
            Mode::Gap => {
                self.word.set(Mode::Comment);
                Ok(())
            }
            Mode::Plain(_) | Mode::Mixed(_) => self.bare(b, Act::WordHere, pen),
            Mode::Comment | Mode::Body(_, _) => Ok(()),
        }
    }

    // Where nothing is begun; a backslash was seen to before.
    pub(crate) fn in_command<W: Sink>(
        &mut self,
        c: Class,
        b: u8,
        pen: &mut Pen<W>,
    ) -> Result<(), Refusal>
        ensures { Lays W.Sink (in_command c b (state_of self.old)) pen.old result self.new pen.new }
    {
        match c {
            Class::Other | Class::Minus => self.bare(b, Act::WordHere, pen),
            Class::Blank => self.word_ends(false, pen),
            Class::Newline => self.begin(false, Operator::Newline, pen),
            Class::Amp => self.begin(false, Operator::Amp, pen),
            Class::Bar => self.begin(false, Operator::Bar, pen),
            Class::Semi => self.begin(false, Operator::Semi, pen),
            Class::Open => self.begin(false, Operator::Open, pen),
            Class::Close => self.begin(false, Operator::Close, pen),
            Class::Less => self.begin(true, Operator::Less, pen),
            Class::Great => self.begin(true, Operator::Great, pen),
            Class::SingleQuote => self.push_frame(Frame::Single, pen),
            Class::DoubleQuote => self.push_frame(Frame::Double, pen),
            Class::Backslash => Ok(()),
            Class::Dollar => self.dollar_here(pen),
            Class::Backquote => Err(pen.refusal(Reason::ExpansionNotTaken, At::Here)),
            Class::Hash => self.comment_or_letter(b, pen),
        }
    }

    pub(crate) fn in_double<W: Sink>(&mut self, b: u8, pen: &mut Pen<W>) -> Result<(), Refusal>
        ensures { Lays W.Sink (in_double b (state_of self.old)) pen.old result self.new pen.new }
    {
        if b == b'"' {
            self.frames.pop();
            Ok(())
        } else if b == b'$' {
            self.dollar_here(pen)
        } else if b == b'`' {
            Err(pen.refusal(Reason::ExpansionNotTaken, At::Here))
        } else {
            self.quoted(b, Act::WordHere, pen)
        }
    }

    pub fn in_single<W: Sink>(&mut self, b: u8, pen: &mut Pen<W>) -> Result<(), Refusal>
        ensures { Lays W.Sink (in_single b (state_of self.old)) pen.old result self.new pen.new }
    {
        if b == b'\'' {
            self.frames.pop();
            Ok(())
        } else {
            self.quoted(b, Act::WordHere, pen)
        }
    }

    // The byte's own work, by the innermost frame.
    fn work<W: Sink>(&mut self, b: u8, top: Top, pen: &mut Pen<W>) -> Result<(), Refusal>
        ensures { Lays W.Sink (work b (state_of self.old) top) pen.old result self.new pen.new }
    {
        match top {
            Top::Command => self.in_command(class_of(b), b, pen),
            Top::Single => self.in_single(b, pen),
            Top::Double => self.in_double(b, pen),
        }
    }

    // In command text and double quotes: what is begun goes on or is settled.
    pub fn in_text<W: Sink>(&mut self, b: u8, pen: &mut Pen<W>) -> Result<(), Refusal>
        ensures { Lays W.Sink (in_text b (state_of self.old)) pen.old result self.new pen.new }
    {
        if self.begun.is_nothing() {
            let top = self.top();
            self.work(b, top, pen)
        } else if self.begun.goes_on(b) {
            self.go_on(b, pen)
        } else {
            self.settle(pen)?;
            let top = self.top();
            self.work(b, top, pen)
        }
    }

    // After a backslash that stands: in double quotes it quotes few bytes, and before any other is itself a letter.
    pub fn escaped<W: Sink>(&mut self, b: u8, top: Top, pen: &mut Pen<W>) -> Result<(), Refusal>
        ensures { Lays W.Sink (escaped b (state_of self.old) top) pen.old result self.new pen.new }
    {
        match top {
            Top::Command | Top::Single => self.quoted(b, Act::WordAtBackslash, pen),
            Top::Double => {
                if is_quotable(b) {
                    self.quoted(b, Act::WordAtBackslash, pen)
                } else {
                    self.quoted(b'\\', Act::WordAtBackslash, pen)?;
                    self.in_double(b, pen)
                }
            }
        }
    }

    pub fn in_comment<W: Sink>(&mut self, b: u8, pen: &mut Pen<W>) -> Result<(), Refusal>
        ensures { Lays W.Sink (in_comment b (state_of self.old)) pen.old result self.new pen.new }
    {
        if b == b'\n' {
            self.begin(false, Operator::Newline, pen)
        } else {
            Ok(())
        }
    }

    pub fn body_ends<W: Sink>(&mut self, n: usize, pen: &mut Pen<W>) -> Result<(), Refusal>
        ensures { Lays W.Sink (body_ends n (state_of self.old)) pen.old result self.new pen.new }
    {
        pen.put(Act::Item(Kind::Body, self.frames.depth(), At::Body))?;
        if n < self.documents.waiting.count() {
            self.next_body(n + 1, pen)
        } else {
            self.next_body(n, pen)
        }
    }

    fn body_goes<W: Sink>(
        &mut self,
        b: u8,
        n: usize,
        gives: Gives,
        line: Line,
        pen: &mut Pen<W>,
    ) -> Result<(), Refusal>
        ensures { Lays W.Sink (body_goes b n gives line (state_of self.old)) pen.old result self.new pen.new }
    {
        match gives {
            Gives::Nothing => {
                self.word.set(Mode::Body(n, line));
                Ok(())
            }
            Gives::Letters(k) => {
                pen.letters(Mark::Body, up_to(self.documents.waiting.delimiter(n), k))?;
                pen.letter(Mark::Body, b)?;
                self.word.set(Mode::Body(n, line));
                Ok(())
            }
            Gives::Ends => self.body_ends(n, pen),
        }
    }

    pub fn in_body<W: Sink>(
        &mut self,
        b: u8,
        n: usize,
        line: Line,
        pen: &mut Pen<W>,
    ) -> Result<(), Refusal>
        ensures { Lays W.Sink (in_body b n line (state_of self.old)) pen.old result self.new pen.new }
    {
        let read = self.documents.waiting.line_byte(n, line, b);
        self.body_goes(b, n, read.gives, read.line, pen)
    }
}
