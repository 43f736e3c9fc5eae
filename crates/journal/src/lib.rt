// A journal of calls, and what is answered to it: the text of each line, parsed and printed.
#![tactic(auto)]

pub mod answers;
pub mod call;
pub mod escape;
pub mod fault;
pub mod item;
pub mod laws;
pub mod listed;
pub mod names;
pub mod parse;
pub mod runs;
pub mod style;
pub mod unescape;
