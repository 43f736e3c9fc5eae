// Lists of scripts and checks of templates: what the reader writes, kept with its places.
#![tactic(auto)]

pub mod check;
pub mod clear;
pub mod list;
pub mod mask;
pub mod places;
mod read;
pub mod record;
mod text;
pub mod written;
