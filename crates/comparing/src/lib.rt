// What comparisons have in common: texts in families, each read by the second reader, listed and counted; the slots of a
// sheet as they are to be left; and the first few differences.
#![tactic(auto)]

ghost use Rattle.std.specs.Prelude.{false};

mod alias_tables;
pub mod beside;
pub mod differences;
pub mod families;
mod fill;
pub mod refusals;
pub mod room;
pub mod run;
pub mod slots;
mod tally;

#[cfg(test)]
mod tests {
    use crate::beside::{Beside, Text};
    use crate::differences::Differences;
    use crate::families::Family;
    use crate::room::Room;
    use crate::run::Run;
    use crate::slots::Slots;
    use basics::refusal::Refusal;
    use descent_lexer::item::{Alias, Reading};
    use listing::record::Counts;
    use random::Random;
    use std::alloc::AllocError;
    use std::io;

    // A reader that only counts what it is given.
    #[derive(Drop)]
    struct Counting {
        lists: u64,
        checks: u64,
    }

    impl Beside for Counting {
        ghost all = { false };

        fn takes_all(&self) -> bool {
            false
        }

        fn take_aliases(&mut self, _aliases: &[Alias]) {}

        fn list(
            &mut self,
            script: &Text,
            room: Room,
            _random: &mut Random,
        ) -> Result<Option<Refusal>, AllocError> {
            self.lists = self.lists.saturating_add(1);
            Ok(room.refusal(script.reading))
        }

        fn check(&mut self, _template: &Text) -> Result<(), AllocError> {
            self.checks = self.checks.saturating_add(1);
            Ok(())
        }
    }

    // the empty text and 23 of one byte, each without aliases and with them, and each listed on two sheets
    #[test]
    fn reads_a_family(rt: HostRuntime) -> io::Result<()> {
        let beside = Counting {
            lists: 0,
            checks: 0,
        };
        let mut run = Run::new(rt.alloc(), 1, beside);
        run.read(&rt, &[Family::Strings(1)])?;
        assert_eq!(rt; run.beside.lists, 96);
        assert_eq!(rt; run.beside.checks, 48);
        Ok(())
    }

    #[test]
    fn shows_a_difference(rt: HostRuntime) -> io::Result<()> {
        let mut differences: Differences<u8> = Differences::new(rt.alloc());
        differences.add(|| Ok(1))?;
        differences.show(&rt)
    }

    #[test]
    fn counts_a_difference(rt: HostRuntime) -> Result<(), AllocError> {
        let mut differences: Differences<u8> = Differences::new(rt.alloc());
        differences.add(|| Ok(1))?;
        assert_eq!(rt; differences.count, 1);
        Ok(())
    }

    #[test]
    fn receives_a_reading(rt: HostRuntime) -> Result<(), AllocError> {
        let none = Counts {
            records: 0,
            letters: 0,
        };
        let all = Counts {
            records: 1,
            letters: 2,
        };
        let mut slots = Slots::with_anything(rt.alloc(), &mut Random::new(1), none, all)?;
        let reading = Reading {
            items: Vec::new(rt.alloc()),
            refusal: None,
        };
        assert!(rt; slots.receive(&reading)? == Ok(0));
        assert!(rt; slots.letters.as_slice() == [0, 0].as_slice());
        Ok(())
    }
}
