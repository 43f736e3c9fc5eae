// How tokens make commands: stages, roles, reserved words, redirections, here-documents, frames and items.
#![tactic(auto)]

pub mod awaited;
pub mod body;
pub mod frame;
pub mod item;
pub mod laws;
pub mod line;
pub mod queue;
pub mod reserved;
pub mod role;
pub mod sort;
pub mod stage;
