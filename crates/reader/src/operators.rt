// Operators are begun, lengthened and given.
ghost use Rattle.std.specs.Prelude.{◌≡◌};
ghost use Rattle.reader.specs.Pens.{Lays};
ghost use Rattle.commands.specs.declared.sort.Sort.TheVariants.{Opens};
ghost use Rattle.reading.specs.States.{waits, innermost, top_of};
ghost use Rattle.reading.specs.Operators.{next_body, leaves, closes, led, give, begun_or_given, begin};
ghost use Rattle.reader.specs.Holding.{documents_of, state_of};

use crate::sink::{Pen, Sink};
use crate::state::{Command, Documents, State};
use basics::refusal::{Reason, Refusal};
use commands::awaited::{Awaited, awaited_by};
use commands::frame::{Frame, Outer};
use commands::item::Kind;
use commands::line::Line;
use commands::sort::{Sort, leads_to, sort_of};
use commands::stage::Stage;
use reading::act::{Act, At};
use reading::mode::Mode;
use tokens::begun::Begun;
use tokens::operator::Operator;
use tokens::top::Top;

impl Documents {
    // A here-document of the innermost substitution, or of the bottom, waits for its body.
    pub fn waits(&self) -> bool
        ensures { result ≡ waits (documents_of self.now) }
    {
        self.outside < self.waiting.count()
    }
}

impl State {
    // What the innermost frame makes of the text.
    pub fn top(&self) -> Top
        ensures { result ≡ top_of (state_of self.now).frames }
    {
        match self.frames.top() {
            Some(Frame::Single) => Top::Single,
            Some(Frame::Double) => Top::Double,
            _ => Top::Command,
        }
    }

    // The body of the n-th here-document is read next, or, behind the last, no more of them wait.
    pub fn next_body<W: Sink>(&mut self, n: usize, pen: &mut Pen<W>) -> Result<(), Refusal>
        ensures { Lays W.Sink (next_body n (state_of self.old)) pen.old result self.new pen.new }
    {
        if n < self.documents.waiting.count() {
            pen.put(Act::BodyNext)?;
            self.word.set(Mode::Body(n, Line::Fresh));
        } else {
            let outside = self.documents.outside;
            self.documents.waiting.cut(outside);
            self.word.set(Mode::Gap);
        }
        Ok(())
    }

    // A substitution closes, and the word that it stands in goes on.
    fn leave<W: Sink>(&mut self, outer: Outer, pen: &mut Pen<W>) -> Result<(), Refusal>
        ensures { Lays W.Sink (leaves outer (state_of self.old)) pen.old result self.new pen.new }
    {
        if self.documents.waits() {
            return Err(pen.refusal(Reason::HereDocument, At::Operator));
        }
        pen.put(Act::Item(Kind::Close, self.frames.depth(), At::Operator))?;
        self.begun = Begun::Nothing;
        self.word.set(Mode::Mixed(outer.assign));
        self.frames.pop();
        let awaited = if outer.target {
            Awaited::Target
        } else {
            Awaited::Nothing
        };
        self.command = Command {
            stage: outer.stage,
            awaited,
        };
        self.documents.outside = outer.waiting;
        Ok(())
    }

    // `)`, by the innermost frame.
    fn close<W: Sink>(&mut self, o: Operator, stage: Stage, pen: &mut Pen<W>) -> Result<(), Refusal>
        ensures { Lays W.Sink (closes o stage (innermost (state_of self.old).frames) (state_of self.old)) pen.old result self.new pen.new }
    {
        match self.frames.top() {
            Some(Frame::Group) => {
                pen.put(Act::Item(Kind::Operator(o), self.frames.depth(), At::Operator))?;
                self.begun = Begun::Nothing;
                self.frames.pop();
                self.command = Command::at(stage);
                Ok(())
            }
            Some(Frame::Substitution(outer)) => self.leave(outer, pen),
            _ => Err(pen.refusal(Reason::OutOfPlace, At::Operator)),
        }
    }

    // `(`.
    fn open_group<W: Sink>(
        &mut self,
        o: Operator,
        stage: Stage,
        pen: &mut Pen<W>,
    ) -> Result<(), Refusal>
        ensures { Lays W.Sink (led o stage Opens (state_of self.old)) pen.old result self.new pen.new }
    {
        if self.frames.depth() < 32 {
            pen.put(Act::Item(Kind::Operator(o), self.frames.depth(), At::Operator))?;
            self.begun = Begun::Nothing;
            let _ = self.frames.push(Frame::Group);
            self.command = Command::at(stage);
            Ok(())
        } else {
            Err(pen.refusal(Reason::TooDeep, At::Operator))
        }
    }

    // An operator in its place, which leads to a stage.
    fn lead<W: Sink>(
        &mut self,
        o: Operator,
        stage: Stage,
        sort: Sort,
        pen: &mut Pen<W>,
    ) -> Result<(), Refusal>
        ensures { Lays W.Sink (led o stage sort (state_of self.old)) pen.old result self.new pen.new }
    {
        match sort {
            Sort::Newline => {
                pen.put(Act::Item(Kind::Operator(o), self.frames.depth(), At::Operator))?;
                self.begun = Begun::Nothing;
                self.command = Command::at(stage);
                let outside = self.documents.outside;
                self.next_body(outside, pen)
            }
            Sort::Ends | Sort::Joins => {
                pen.put(Act::Item(Kind::Operator(o), self.frames.depth(), At::Operator))?;
                self.begun = Begun::Nothing;
                self.command = Command::at(stage);
                Ok(())
            }
            Sort::Misplaced => Err(pen.refusal(Reason::OutOfPlace, At::Operator)),
            Sort::Opens => self.open_group(o, stage, pen),
            Sort::Closes => self.close(o, stage, pen),
            Sort::Redirects => {
                pen.put(Act::Item(Kind::Operator(o), self.frames.depth(), At::Operator))?;
                self.begun = Begun::Nothing;
                self.documents.letters.clear();
                self.command = Command {
                    stage,
                    awaited: awaited_by(o),
                };
                Ok(())
            }
        }
    }

    // The operator is given; where a redirection awaits its word, only a word may stand.
    pub fn give<W: Sink>(&mut self, o: Operator, pen: &mut Pen<W>) -> Result<(), Refusal>
        ensures { Lays W.Sink (give o (state_of self.old)) pen.old result self.new pen.new }
    {
        match self.command.awaited {
            Awaited::Nothing => match leads_to(sort_of(o), self.command.stage) {
                Some(stage) => self.lead(o, stage, sort_of(o), pen),
                None => Err(pen.refusal(Reason::OutOfPlace, At::Operator)),
            },
            _ => Err(pen.refusal(Reason::OutOfPlace, At::Operator)),
        }
    }

    // The operator is begun, or given at once if no byte lengthens it.
    pub fn begin_or_give<W: Sink>(&mut self, o: Operator, pen: &mut Pen<W>) -> Result<(), Refusal>
        ensures { Lays W.Sink (begun_or_given o (state_of self.old)) pen.old result self.new pen.new }
    {
        if o.may_lengthen() {
            self.begun = Begun::Operator(o);
            Ok(())
        } else {
            self.give(o, pen)
        }
    }

    // A word ends, and an operator begins.
    pub fn begin<W: Sink>(
        &mut self,
        redirected: bool,
        o: Operator,
        pen: &mut Pen<W>,
    ) -> Result<(), Refusal>
        ensures { Lays W.Sink (begin redirected o (state_of self.old)) pen.old result self.new pen.new }
    {
        self.word_ends(redirected, pen)?;
        pen.put(Act::OperatorHere)?;
        self.begin_or_give(o, pen)
    }
}
