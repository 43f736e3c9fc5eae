// A reading from the start.
ghost use Rattle.std.specs.Prelude.{◌≡◌};
ghost use Rattle.reading.specs.States.{fresh};
ghost use Rattle.reader.specs.Held.{result_of};
ghost use Rattle.reader.specs.Turns.{rest_of};

use basics::refusal::Refusal;
use reader::sink::Sink;
use reader::state::Reader;
use source::alias::AliasSource;
use source::source::Source;

// Reads all that the source gives, and writes it on the sink.
pub fn read<S: Source, W: Sink>(source: &mut AliasSource<S>, out: &mut W) -> Result<(), Refusal>
    ensures { result_of result (W.Sink.sheet out.new) ≡ rest_of W.Sink source.old fresh out.old }
{
    let mut reader = Reader::new();
    reader.read(source, out)
}
