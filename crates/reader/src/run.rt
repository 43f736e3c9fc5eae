// Reading any source onto any sink.
ghost use Rattle.std.specs.Prelude.{◌≡◌, true, false, Ok};
ghost use Rattle.source.specs.Symbols.{first};
ghost use Rattle.reading.specs.Laid.{held};
ghost use Rattle.reader.specs.Held.{result_of};
ghost use Rattle.reader.specs.Holding.{control_of};
ghost use Rattle.reader.specs.Onto.{candidate_is};
ghost use Rattle.reader.specs.Pens.{page_of, sign_on, SamePen};
ghost use Rattle.reader.specs.Turns.{IsFewer, Turns, candidate_next, goes_on, goes_replaced, own_rest_of, place_next, rest_of};

use crate::sink::{Pen, Sink};
use crate::state::Reader;
use basics::refusal::Refusal;
use commands::stage::Stage;
use reading::act::Act;
use source::alias::AliasSource;
use source::source::Source;
use source::symbol::{Sign, Symbol};
use tokens::class::class_of;
use tokens::top::Top;

impl Reader {
    // A word ends before the symbol that may be replaced by its alias.
    fn may_be_replaced(&self, sign: Sign) -> bool
        ensures { result ≡ candidate_is sign (control_of self.now) }
    {
        let stage = self.at.command.stage;
        let top = self.at.top();
        match (stage, top, sign) {
            (Stage::Args, _, _) => false,
            (Stage::Done, _, _) => false,
            (_, Top::Single, _) => false,
            (_, Top::Double, _) => false,
            (_, Top::Command, Sign::Hole(_)) => false,
            (_, Top::Command, Sign::Byte(b)) => {
                let class = class_of(b);
                class.ends_word() && self.is_named(class.redirects())
            }
            (_, Top::Command, Sign::AliasEnd) => self.is_named(false),
        }
    }

    // The symbol does its own work.
    fn step<W: Sink>(&mut self, sign: Sign, pen: &mut Pen<W>) -> Result<(), Refusal>
        ensures laid { result_of result (held (control_of self.new) (page_of W.Sink.sheet pen.new))
            ≡ sign_on W.Sink.writes sign (control_of self.old) (page_of W.Sink.sheet pen.old) }
        ensures pen { SamePen pen.old pen.new }
    {
        match sign {
            Sign::Byte(b) => self.byte(b, pen),
            Sign::Hole(digit) => {
                self.hole(pen)?;
                pen.hole(digit)
            }
            Sign::AliasEnd => self.alias_end(pen),
        }
    }

    // The next symbol does its own work, or the text ends; says whether there is more.
    fn own<S: Source, W: Sink>(
        &mut self,
        next: Option<Symbol>,
        source: &mut AliasSource<S>,
        out: &mut W,
    ) -> Result<bool, Refusal>
        requires { next ≡ first source.old.coming }
        ensures goes { goes_on result (rest_of W.Sink source.new (control_of self.new) out.new) (W.Sink.sheet out.new)
            ≡ own_rest_of W.Sink source.old (control_of self.old) out.old }
        ensures falls { result ≡ Ok true → IsFewer source.old source.new }
    {
        match next {
            None => {
                let place = source.end_place();
                self.end(&mut Pen { out, place })?;
                Ok(false)
            }
            Some(Symbol { sign, place }) => {
                self.step(sign, &mut Pen { out, place })?;
                source.take();
                Ok(true)
            }
        }
    }

    // A word ends before the next symbol, or at the end, that may be replaced.
    fn may_be_replaced_before(&self, next: Option<Symbol>) -> bool
        ensures { result ≡ candidate_next next (control_of self.now) }
    {
        match next {
            None => self.is_named(false),
            Some(s) => self.may_be_replaced(s.sign),
        }
    }

    // The word that ends here is replaced, if it is an alias whose end is not still to come.
    fn replace_word<S: Source, W: Sink>(
        &mut self,
        next: Option<Symbol>,
        source: &mut AliasSource<S>,
        out: &mut W,
    ) -> Result<bool, Refusal>
        requires next_value { next ≡ first source.old.coming }
        requires self_value { candidate_next next (control_of self.old) ≡ true }
        ensures goes { goes_replaced result (rest_of W.Sink source.new (control_of self.new) out.new) (own_rest_of W.Sink source.new (control_of self.new) out.new)
            ≡ rest_of W.Sink source.old (control_of self.old) out.old }
        ensures falls { result ≡ Ok true → IsFewer source.old source.new }
        ensures stays { result ≡ Ok false → source.new ≡ source.old }
    {
        let place = place_before(next, source.end_place());
        let word_place = out.word_place();
        if !source.replace(self.at.word.kept.text(), word_place)? {
            return Ok(false);
        }
        out.put(Act::Forget, place)?;
        self.drop_word();
        Ok(true)
    }

    // One turn: a word is replaced, or the next symbol does its own work; says whether there is more.
    fn turn<S: Source, W: Sink>(
        &mut self,
        source: &mut AliasSource<S>,
        out: &mut W,
    ) -> Result<bool, Refusal>
        ensures { Turns W.Sink source.old (control_of self.old) out.old result source.new (control_of self.new) out.new }
    {
        let next = source.look();
        if !self.may_be_replaced_before(next) {
            return self.own(next, source, out);
        }
        if self.replace_word(next, source, out)? {
            return Ok(true);
        }
        self.own(next, source, out)
    }

    // The letters that come next, and then the byte behind them or one turn.
    fn advance<S: Source, W: Sink>(
        &mut self,
        source: &mut AliasSource<S>,
        out: &mut W,
    ) -> Result<bool, Refusal>
        ensures { Turns W.Sink source.old (control_of self.old) out.old result source.new (control_of self.new) out.new }
    {
        if self.escape {
            return self.turn(source, out);
        }
        if self.at.pass_letters(source, out)? {
            return Ok(true);
        }
        self.turn(source, out)
    }

    // Reads all that the source gives, and writes it on the sink.
    // Stays: source and sink go side by side: each turn lends the sink to a pen while the source goes on, and the caller keeps both.
    pub fn read<S: Source, W: Sink>(
        &mut self,
        source: &mut AliasSource<S>,
        out: &mut W,
    ) -> Result<(), Refusal>
        ensures { result_of result (W.Sink.sheet out.new) ≡ rest_of W.Sink source.old (control_of self.old) out.old }
    {
        let mut more = true;
        while more {
            more = self.advance(source, out)?;
        }
        Ok(())
    }
}

// The place of the next symbol, or of the end.
fn place_before(next: Option<Symbol>, end: u16) -> u16
    ensures { result ≡ place_next end next }
{
    next.map_or(end, |s| s.place)
}
