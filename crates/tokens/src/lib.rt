// How bytes make tokens: byte classes, operators, letters, what is begun, and how a word opens.
#![tactic(auto)]

pub mod begun;
pub mod bytes;
pub mod class;
pub mod kept;
pub mod letter;
pub mod opening;
pub mod operator;
pub mod table;
pub mod top;
