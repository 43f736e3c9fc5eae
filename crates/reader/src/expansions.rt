// Expansions: what follows a `$`.
ghost use Rattle.std.specs.Prelude.{◌≡◌, true, [], ◌∷◌, length, nat_lt};
ghost use Rattle.reader.specs.Pens.{Lays};
ghost use Rattle.reading.specs.Expansions.{spelled, no_expansion, expanded, entered, opens, substitutes, ordinary, settle, gone_on, go_on};
ghost use Rattle.tokens.specs.declared.begun.Begun.TheVariants.{Dollar, BraceName};
ghost use Rattle.reader.specs.Holding.{state_of};

use crate::sink::{Pen, Sink};
use crate::state::{Command, State};
use crate::words::is_assigned;
use basics::refusal::{Reason, Refusal};
use commands::awaited::Awaited;
use commands::frame::{Frame, Outer};
use commands::item::Kind;
use commands::stage::Stage;
use reading::act::{Act, At};
use reading::mode::Mode;
use tokens::begun::Begun;
use tokens::bytes::{is_name_byte, is_name_start};
use tokens::class::class_of;
use tokens::letter::Mark;
use tokens::table::lengthen;
use tokens::top::Top;

impl State {
    // Letters of an expansion, of which `rest` is begun after them.
    fn spell<W: Sink>(
        &mut self,
        letters: &[u8],
        rest: Begun,
        pen: &mut Pen<W>,
    ) -> Result<(), Refusal>
        ensures { Lays W.Sink (spelled letters.now rest (state_of self.old)) pen.old result self.new pen.new }
    {
        if let Mode::Gap = self.word.mode {
            pen.put(Act::WordAtDollar)?;
        }
        pen.letters(Mark::Expansion, letters)?;
        self.enter();
        self.begun = rest;
        Ok(())
    }

    // In a delimiter no expansion stands.
    fn no_expansion<W: Sink>(&mut self, pen: &mut Pen<W>) -> Result<(), Refusal>
        ensures { Lays W.Sink (no_expansion (state_of self.old)) pen.old result self.new pen.new }
    {
        if let Mode::Gap = self.word.mode {
            pen.put(Act::WordAtDollar)?;
        }
        Err(pen.refusal(Reason::HereDocument, At::First))
    }

    // Letters of an expansion that is known to be one, unless the word is a delimiter.
    fn expand<W: Sink>(
        &mut self,
        letters: &[u8],
        rest: Begun,
        pen: &mut Pen<W>,
    ) -> Result<(), Refusal>
        ensures { Lays W.Sink (expanded letters.now rest (state_of self.old)) pen.old result self.new pen.new }
    {
        match self.command.awaited {
            Awaited::Delimiter(_) => self.no_expansion(pen),
            _ => self.spell(letters, rest, pen),
        }
    }

    // `$(`: the word's letters so far are given, and a substitution opens.
    fn open_substitution<W: Sink>(&mut self, pen: &mut Pen<W>) -> Result<(), Refusal>
        ensures { Lays W.Sink (opens (state_of self.old)) pen.old result self.new pen.new }
    {
        if self.frames.depth() < 32 {
            if let Mode::Gap = self.word.mode {
                pen.put(Act::WordAtDollar)?;
            }
            pen.put(Act::Item(Kind::Part, self.frames.depth(), At::Word))?;
            pen.put(Act::Item(Kind::Open, self.frames.depth(), At::Dollar))?;
            self.enter_substitution();
            Ok(())
        } else {
            Err(pen.refusal(Reason::TooDeep, At::Dollar))
        }
    }

    // The state in which a substitution begins; its frame keeps what the word around it needs.
    fn enter_substitution(&mut self)
        requires { nat_lt (length (state_of self.old).frames) 32 ≡ true }
        ensures { state_of self.new ≡ entered (state_of self.old) }
    {
        let outer = Outer {
            stage: self.command.stage,
            assign: is_assigned(self.word.mode),
            target: matches!(self.command.awaited, Awaited::Target),
            waiting: self.documents.outside,
        };
        let _ = self.frames.push(Frame::Substitution(outer));
        self.begun = Begun::Nothing;
        self.word.set(Mode::Gap);
        self.command = Command::at(Stage::Start);
        self.documents.outside = self.documents.waiting.count();
    }

    fn substitute<W: Sink>(&mut self, pen: &mut Pen<W>) -> Result<(), Refusal>
        ensures { Lays W.Sink (substitutes (state_of self.old)) pen.old result self.new pen.new }
    {
        match self.command.awaited {
            Awaited::Delimiter(_) => self.no_expansion(pen),
            _ => self.open_substitution(pen),
        }
    }

    // A `$` that begins no expansion is a letter.
    fn ordinary_dollar<W: Sink>(&mut self, pen: &mut Pen<W>) -> Result<(), Refusal>
        ensures { Lays W.Sink (ordinary (state_of self.old)) pen.old result self.new pen.new }
    {
        match self.top() {
            Top::Command => self.bare(b'$', Act::WordAtDollar, pen),
            _ => self.quoted(b'$', Act::WordAtDollar, pen),
        }
    }

    // What is begun is settled, since what comes does not go on with it.
    pub fn settle<W: Sink>(&mut self, pen: &mut Pen<W>) -> Result<(), Refusal>
        ensures { Lays W.Sink (settle (state_of self.old)) pen.old result self.new pen.new }
    {
        match self.begun {
            Begun::Nothing => Ok(()),
            Begun::Dollar => {
                self.begun = Begun::Nothing;
                self.ordinary_dollar(pen)
            }
            Begun::Paren => self.substitute(pen),
            Begun::Name => {
                self.begun = Begun::Nothing;
                Ok(())
            }
            Begun::Brace | Begun::BraceName => Err(pen.refusal(
                Reason::ExpansionNotTaken,
                At::Dollar,
            )),
            Begun::Operator(o) => self.give(o, pen),
        }
    }

    // A `$` goes on with the byte.
    fn go_on_dollar<W: Sink>(&mut self, b: u8, pen: &mut Pen<W>) -> Result<(), Refusal>
        ensures { Lays W.Sink (gone_on Dollar b (state_of self.old)) pen.old result self.new pen.new }
    {
        if b == b'(' {
            self.begun = Begun::Paren;
            Ok(())
        } else if b == b'{' {
            self.begun = Begun::Brace;
            Ok(())
        } else {
            let rest = if is_name_start(b) {
                Begun::Name
            } else {
                Begun::Nothing
            };
            self.expand(&[b'$', b], rest, pen)
        }
    }

    // `${` and a name so far goes on with the byte.
    fn go_on_name<W: Sink>(&mut self, b: u8, pen: &mut Pen<W>) -> Result<(), Refusal>
        ensures { Lays W.Sink (gone_on BraceName b (state_of self.old)) pen.old result self.new pen.new }
    {
        if is_name_byte(b) {
            self.spell(&[b], Begun::BraceName, pen)
        } else if b == b'}' {
            self.expand(&[b], Begun::Nothing, pen)
        } else {
            Err(pen.refusal(Reason::ExpansionNotTaken, At::Dollar))
        }
    }

    // What is begun goes on with the byte.
    pub fn go_on<W: Sink>(&mut self, b: u8, pen: &mut Pen<W>) -> Result<(), Refusal>
        ensures { Lays W.Sink (go_on b (state_of self.old)) pen.old result self.new pen.new }
    {
        match self.begun {
            Begun::Nothing => Ok(()),
            Begun::Dollar => self.go_on_dollar(b, pen),
            Begun::Paren => Err(pen.refusal(Reason::ExpansionNotTaken, At::Dollar)),
            Begun::Name => self.expand(&[b], Begun::Name, pen),
            Begun::Brace => {
                if is_name_start(b) {
                    self.spell(&[b'$', b'{', b], Begun::BraceName, pen)
                } else {
                    Err(pen.refusal(Reason::ExpansionNotTaken, At::Dollar))
                }
            }
            Begun::BraceName => self.go_on_name(b, pen),
            Begun::Operator(o) => match lengthen(o, class_of(b)) {
                Some(longer) => self.begin_or_give(longer, pen),
                None => self.give(o, pen),
            },
        }
    }
}
