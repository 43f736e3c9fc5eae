// Texts to try readers on: every short string over a few bytes, and pseudo-random scripts and templates, whole and damaged.
// The same seed always gives the same texts.
#![tactic(auto)]

mod alias;
mod damage;
mod edge;
mod examples;
mod grammar;
mod strings;
mod words;

pub use examples::{EXAMPLES, example};
pub use grammar::Scripts;
pub use strings::Strings;

#[cfg(test)]
mod tests {
    use super::Strings;
    use std::alloc::AllocError;

    // two of one byte and four of two, and the empty one
    #[test]
    fn visits_every_string(rt: HostRuntime) -> Result<(), AllocError> {
        let mut strings = Strings::new(rt.alloc(), "ab", 2)?;
        let mut count: usize = 0;
        let mut bytes: usize = 0;
        strings.each(rt.alloc(), |text| {
            count = count.saturating_add(1);
            bytes = bytes.saturating_add(text.len());
            Ok(())
        })?;
        assert_eq!(rt; count, 7);
        assert_eq!(rt; bytes, 10);
        Ok(())
    }
}
