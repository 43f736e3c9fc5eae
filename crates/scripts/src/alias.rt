// Names and values of aliases.
ghost use Rattle.std.specs.Prelude.{◌≤◌, vec_len, length, OnOk};

use super::grammar::Scripts;
use super::words::{ALIAS_WORDS, COMMAND_NAMES, put};
use random::Numbers;
use std::alloc::AllocError;

impl Scripts {
    // Puts an alias's name in `out`; it is no longer than one may be.
    pub fn alias_name(&mut self, out: &mut Vec<u8>) -> Result<(), AllocError>
        ensures { OnOk result (vec_len out.new ≤ 16) }
    {
        out.clear();
        put(out, self.some_name())
    }

    fn some_name(&mut self) -> &'static str
        ensures { length result.now ≤ 16 }
    {
        *self.random.pick(&COMMAND_NAMES)
    }

    // Puts an alias's value in `out`: a few words, with blanks between them and around them.
    pub fn alias_value(&mut self, out: &mut Vec<u8>) -> Result<(), AllocError> {
        out.clear();
        if self.random.once_in(4) {
            put(out, "\t")?;
        }
        for _ in 0..=self.random.below(3) {
            self.put_one(out, &ALIAS_WORDS)?;
            put(out, " ")?;
        }
        if self.random.once_in(2) {
            let _ = out.pop();
        }
        Ok(())
    }
}
