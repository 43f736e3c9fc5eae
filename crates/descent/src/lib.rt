// A second reader of shell text, written apart from the product's: recursive descent over the whole text, on the heap.
// It is there to be compared with the product's reader, so it shares nothing with it but the refusals.
#![tactic(auto)]

mod bodies;
mod check;
mod command;
mod level;
mod quotes;
mod reader;
mod settle;
mod word;

pub use check::{read_script, read_template};
