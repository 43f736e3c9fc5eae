// How far a command has come.
use basics::refusal::Reason;
use descent_lexer::fault::{Fault, refused};
use descent_lexer::item::Operator;
use std::alloc::Global;

#[derive(Clone, Copy, PartialEq, Eq)]
pub enum Stage {
    // no word of a command yet, and the text may end here
    Start,
    // no word yet, and one has to come
    Must,
    // assignments or redirections, and no name yet
    Head,
    // the name has come
    Args,
    // a `)` ended the command
    Done,
}

// The word that a redirection awaits.
#[derive(Clone, Copy)]
pub enum Awaited {
    Target,
    // leading tabs of its here-document's lines are dropped, or are not
    Delimiter { tabs: bool },
}

// A here-document whose body is to come.
#[derive(Drop)]
pub struct Pending {
    pub delim: Vec<u8>,
    // leading tabs of its lines are dropped
    pub tabs: bool,
}

// The state of the commands of one substitution, or of the bottom.
#[derive(Drop)]
pub struct Command {
    pub stage: Stage,
    pub awaited: Option<Awaited>,
    pub pending: Vec<Pending>,
}

impl Command {
    pub fn new(heap: Global) -> Command {
        Command {
            stage: Stage::Start,
            awaited: None,
            pending: Vec::new(heap),
        }
    }

    // A delimiter has no expansion; `start` is where the word began that has one.
    pub fn takes_expansion(&self, start: usize) -> Result<(), Fault> {
        match self.awaited {
            Some(Awaited::Delimiter { .. }) => Err(refused(Reason::HereDocument, start)),
            Some(Awaited::Target) | None => Ok(()),
        }
    }

    // Whether a hole may stand here, in a word that is an assignment so far or is not.
    pub fn takes_hole(&self, assign: bool) -> bool {
        match (self.awaited, self.stage) {
            (Some(Awaited::Target), _) => true,
            (Some(Awaited::Delimiter { .. }), _) => false,
            (None, Stage::Args | Stage::Done) => true,
            (None, Stage::Start | Stage::Must | Stage::Head) => assign,
        }
    }

    // What an operator other than a parenthesis does; it is out of place where it cannot stand.
    pub fn operate(&mut self, operator: Operator, place: usize) -> Result<(), Fault> {
        if self.awaited.is_some() {
            return Err(refused(Reason::OutOfPlace, place));
        }
        match operator {
            Operator::Newline => {
                if self.stage != Stage::Must {
                    self.stage = Stage::Start;
                }
            }
            Operator::Semicolon | Operator::And => self.finish(Stage::Start, place)?,
            Operator::Pipe | Operator::AndIf | Operator::OrIf => self.finish(Stage::Must, place)?,
            Operator::DoubleSemicolon | Operator::Open | Operator::Close => {
                return Err(refused(Reason::OutOfPlace, place));
            }
            Operator::HereDocument => self.redirect(Awaited::Delimiter { tabs: false }),
            Operator::HereDocumentTabs => self.redirect(Awaited::Delimiter { tabs: true }),
            _ => self.redirect(Awaited::Target),
        }
        Ok(())
    }

    fn finish(&mut self, next: Stage, place: usize) -> Result<(), Fault> {
        if self.has_not_begun() {
            return Err(refused(Reason::OutOfPlace, place));
        }
        self.stage = next;
        Ok(())
    }

    fn redirect(&mut self, awaited: Awaited) {
        self.awaited = Some(awaited);
        if self.has_not_begun() {
            self.stage = Stage::Head;
        }
    }

    fn has_not_begun(&self) -> bool {
        matches!(self.stage, Stage::Start | Stage::Must)
    }

    pub fn may_open(&self) -> bool {
        self.awaited.is_none() && self.has_not_begun()
    }

    pub fn may_close(&self) -> bool {
        self.awaited.is_none() && self.stage != Stage::Must
    }

    // Whether the text may end here, below no frame.
    pub fn ends(&self, place: usize) -> Result<(), Fault> {
        if self.stage == Stage::Must || self.awaited.is_some() {
            return Err(refused(Reason::Unfinished, place));
        }
        if !self.pending.is_empty() {
            return Err(refused(Reason::HereDocument, place));
        }
        Ok(())
    }
}
