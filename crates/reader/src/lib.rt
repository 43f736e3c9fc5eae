// The reader: it steps in place over any source, and writes to any sink.
#![tactic(auto)]

pub mod expansions;
pub mod holes;
pub mod moves;
pub mod operators;
pub mod run;
pub mod runs;
pub mod sink;
pub mod state;
pub mod text;
pub mod words;
