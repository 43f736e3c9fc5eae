// What people are shown of a list, of a template's holes and of a refusal.
#![tactic(auto)]

pub mod caret;
pub mod holes;
pub mod lines;
pub mod table;
