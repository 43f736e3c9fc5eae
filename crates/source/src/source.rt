// A source gives symbols, one after another. It means the list of those still to come, and the place of the end.
ghost use Rattle.std.specs.Prelude.{◌≡◌, ℕ, List};
ghost use Rattle.source.specs.Symbols.{first, rest};
ghost use Rattle.source.specs.declared.symbol.Symbol.{Symbol};

use crate::symbol::Symbol;

pub trait Source {
    // the symbols still to come
    ghost coming: { Self → List Symbol };
    // the place of the end: the text's length
    ghost end: { Self → ℕ };

    // The first symbol to come, or that there is none.
    fn look(&self) -> Option<Symbol>
        ensures { result ≡ first (coming self.now) };

    // Drops the first symbol to come, if there is one.
    fn take(&mut self)
        ensures coming { coming self.new ≡ rest (coming self.old) }
        ensures end { end self.new ≡ end self.old };

    // The place of the end.
    fn end_place(&self) -> u16
        ensures { result ≡ end self.now };
}
