// What every layer shares: refusals, counts of bytes, searches of a text, parts of a slice, stacks, and writing into a page.
#![tactic(auto)]

pub mod bytes;
pub mod page;
pub mod refusal;
pub mod search;
pub mod slices;
pub mod stack;
