// What the second reader starts from and ends in: the text as symbols with lines joined, operators, and the items of a reading.
#![tactic(auto)]

pub mod bytes;
pub mod fault;
pub mod item;
pub mod operators;
pub mod text;

#[cfg(test)]
mod tests {
    use crate::fault::refused;
    use basics::refusal::{Reason, Refusal};
    use std::alloc::AllocError;

    #[test]
    fn gives_the_refusal(rt: HostRuntime) -> Result<(), AllocError> {
        let refusal = refused(Reason::TooDeep, 5).refusal()?;
        assert!(rt;
            refusal
                == Refusal {
                    reason: Reason::TooDeep,
                    place: 5
                }
        );
        Ok(())
    }
}
