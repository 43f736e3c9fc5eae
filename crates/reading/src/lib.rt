// The definition of reading, and its laws.
#![tactic(auto)]

pub mod act;
pub mod laws;
pub mod mode;
