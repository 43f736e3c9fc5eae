// Runs of letters. Where the reader stands is asked once for a run of them, so that each letter then costs little.
ghost use Rattle.std.specs.Prelude.{◌≡◌};
ghost use Rattle.reading.specs.States.{calm};
ghost use Rattle.reader.specs.Holding.{state_of};
ghost use Rattle.reader.specs.Pens.{Lays};
ghost use Rattle.reader.specs.Turns.{Passes};
ghost use Rattle.reader.specs.Runs.{is_backslash, is_before_name, is_letter, is_own_work, is_plain, may_be_name, run_of, has_letter, letter_of, has_work, work_of};

use crate::sink::{Pen, Sink};
use crate::state::State;
use basics::refusal::Refusal;
use commands::line::Line;
use commands::stage::Stage;
use reading::act::Act;
use reading::mode::Mode;
use source::alias::AliasSource;
use source::source::Source;
use source::symbol::Sign;
use tokens::begun::Begun;
use tokens::bytes::is_quotable;
use tokens::class::{Class, class_of};
use tokens::letter::Mark;
use tokens::top::Top;

// Where letters come one after another.
#[derive(Clone, Copy, Debug, PartialEq, Eq)]
pub enum Run {
    Nowhere,
    // in command text, where nothing is begun
    Bare,
    // in single quotes
    Single,
    // in double quotes, where nothing is begun
    Double,
    // in a line of that body which is known not to be its delimiter
    Body(usize),
}

impl Run {
    // The byte is a letter of the run.
    fn has_letter(self, b: u8) -> bool
        ensures { result ≡ has_letter self b }
    {
        match self {
            Run::Nowhere => false,
            Run::Bare => matches!(class_of(b), Class::Minus | Class::Other),
            Run::Single => b != b'\'',
            Run::Double => !is_quotable(b),
            Run::Body(_) => b != b'\n',
        }
    }
}

impl State {
    fn run(&self) -> Run
        ensures { result ≡ run_of (state_of self.now) }
    {
        let top = self.top();
        match (self.word.mode, top, self.begun) {
            (Mode::Comment, _, _) => Run::Nowhere,
            (Mode::Body(n, Line::Other), _, _) => Run::Body(n),
            (Mode::Body(_, _), _, _) => Run::Nowhere,
            (_, Top::Single, _) => Run::Single,
            (_, Top::Double, Begun::Nothing) => Run::Double,
            (_, Top::Command, Begun::Nothing) => Run::Bare,
            _ => Run::Nowhere,
        }
    }

    // A letter of the run, which goes on.
    fn letter<W: Sink>(&mut self, run: Run, b: u8, pen: &mut Pen<W>) -> Result<(), Refusal>
        requires { run_of (state_of self.old) ≡ run }
        ensures lays { Lays W.Sink (letter_of run b (state_of self.old)) pen.old result self.new pen.new }
        ensures run { run_of (state_of self.new) ≡ run }
    {
        match run {
            Run::Nowhere => Ok(()),
            Run::Bare => self.bare(b, Act::WordHere, pen),
            Run::Single | Run::Double => self.quoted(b, Act::WordHere, pen),
            Run::Body(n) => {
                pen.letter(Mark::Body, b)?;
                self.word.set(Mode::Body(n, Line::Other));
                Ok(())
            }
        }
    }

    // The word that is read is plain, and would be a command's name.
    fn may_be_name(&self) -> bool
        ensures { result ≡ may_be_name (state_of self.now) }
    {
        !matches!(self.command.stage, Stage::Args | Stage::Done)
            && matches!(self.word.mode, Mode::Plain(_))
    }

    // A byte of the class behind bare letters does its own work and nothing else: it is no backslash, and ends no word
    // that may be replaced.
    fn is_own_work(&self, c: Class) -> bool
        ensures { result ≡ is_own_work c (state_of self.now) }
    {
        !matches!(c, Class::Backslash) && !(c.ends_word() && self.may_be_name())
    }

    // A byte that is no letter of the run does its own work and nothing else.
    fn has_work(&self, run: Run, b: u8) -> bool
        ensures { result ≡ has_work run b (state_of self.now) }
    {
        match run {
            Run::Nowhere | Run::Body(_) => false,
            Run::Bare => self.is_own_work(class_of(b)),
            Run::Single | Run::Double => b != b'\\',
        }
    }

    fn work_behind<W: Sink>(&mut self, run: Run, b: u8, pen: &mut Pen<W>) -> Result<(), Refusal>
        ensures { Lays W.Sink (work_of run b (state_of self.old)) pen.old result self.new pen.new }
    {
        match run {
            Run::Nowhere | Run::Body(_) => Ok(()),
            Run::Bare => self.in_command(class_of(b), b, pen),
            Run::Single => self.in_single(b, pen),
            Run::Double => self.in_double(b, pen),
        }
    }

    // The letters of the run that come next, and maybe the byte behind them; says whether that was taken.
    #[inline(always)]
    fn pass<S: Source, W: Sink>(
        &mut self,
        run: Run,
        source: &mut AliasSource<S>,
        out: &mut W,
    ) -> Result<bool, Refusal>
        requires { run_of (state_of self.old) ≡ run }
        ensures { Passes W.Sink source.old (calm (state_of self.old)) out.old result source.new (calm (state_of self.new)) out.new }
    {
        while let Some(s) = source.look() {
            let Sign::Byte(b) = s.sign else {
                return Ok(false);
            };
            let mut pen = Pen {
                out: &mut *out,
                place: s.place,
            };
            if run.has_letter(b) {
                self.letter(run, b, &mut pen)?;
                source.take();
                continue;
            }
            if !self.has_work(run, b) {
                return Ok(false);
            }
            self.work_behind(run, b, &mut pen)?;
            source.take();
            return Ok(true);
        }
        Ok(false)
    }

    // The letters that come next, wherever the reader stands, and maybe the byte behind them; says whether that was taken.
    pub(crate) fn pass_letters<S: Source, W: Sink>(
        &mut self,
        source: &mut AliasSource<S>,
        out: &mut W,
    ) -> Result<bool, Refusal>
        ensures { Passes W.Sink source.old (calm (state_of self.old)) out.old result source.new (calm (state_of self.new)) out.new }
    {
        match self.run() {
            Run::Nowhere => Ok(false),
            // most letters are bare, and this call is made for them alone
            Run::Bare => self.pass(Run::Bare, source, out),
            run => self.pass(run, source, out),
        }
    }
}
