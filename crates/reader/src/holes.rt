// Where a hole is taken.
ghost use Rattle.std.specs.Prelude.{◌≡◌};
ghost use Rattle.reader.specs.Pens.{Lays};
ghost use Rattle.reading.specs.Holes.{open_to_hole, not_taken, hole_at, hole_after, hole_in};
ghost use Rattle.reader.specs.Holding.{state_of};

use crate::sink::{Pen, Sink};
use crate::state::State;
use crate::words::is_assigned;
use basics::refusal::{Reason, Refusal};
use commands::awaited::Awaited;
use commands::stage::Stage;
use reading::act::{Act, At};
use reading::mode::{Mode, Region};
use tokens::top::Top;

// Whether a hole is taken, by what is awaited, the stage, and whether its word is already an assignment.
fn is_open_to_hole(a: Awaited, g: Stage, assign: bool) -> bool
    ensures { result ≡ open_to_hole a g assign }
{
    match (a, g) {
        (Awaited::Delimiter(_), _) => false,
        (Awaited::Target, _) => true,
        (Awaited::Nothing, Stage::Args | Stage::Done) => true,
        (Awaited::Nothing, _) => assign,
    }
}

impl State {
    // Where nothing is begun. What fills a hole may open quotes, so there has to be room for their frame.
    fn hole_at<W: Sink>(&mut self, top: Top, pen: &mut Pen<W>) -> Result<(), Refusal>
        ensures { Lays W.Sink (hole_at (state_of self.old) top) pen.old result self.new pen.new }
    {
        match top {
            Top::Command => {
                if !is_open_to_hole(
                    self.command.awaited,
                    self.command.stage,
                    is_assigned(self.word.mode),
                ) {
                    return Err(pen.refusal(Reason::HoleNotTaken, At::Here));
                }
                if self.frames.depth() >= 32 {
                    return Err(pen.refusal(Reason::TooDeep, At::Here));
                }
                if let Mode::Gap = self.word.mode {
                    pen.put(Act::WordHere)?;
                }
                self.enter();
                Ok(())
            }
            Top::Single | Top::Double => Err(pen.refusal(Reason::HoleNotTaken, At::Here)),
        }
    }

    // Not directly after a `$`, since that would be an ordinary one.
    fn hole_after<W: Sink>(&mut self, pen: &mut Pen<W>) -> Result<(), Refusal>
        ensures { Lays W.Sink (hole_after (state_of self.old)) pen.old result self.new pen.new }
    {
        if self.begun.is_dollar() {
            return Err(pen.refusal(Reason::HoleNotTaken, At::Here));
        }
        self.settle(pen)?;
        let top = self.top();
        self.hole_at(top, pen)
    }

    pub fn hole_in<W: Sink>(&mut self, region: Region, pen: &mut Pen<W>) -> Result<(), Refusal>
        ensures { Lays W.Sink (hole_in (state_of self.old) region) pen.old result self.new pen.new }
    {
        match region {
            Region::Text => self.hole_after(pen),
            _ => Err(pen.refusal(Reason::HoleNotTaken, At::Here)),
        }
    }
}
