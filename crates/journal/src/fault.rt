// Why a line of a journal cannot be taken, in words that say what to write instead.
use std::alloc::AllocError;
use thiserror::Error;

#[derive(Clone, Copy, Debug, PartialEq, Eq, Error)]
pub enum Fault {
    #[error("out of memory")]
    Memory(#[from(alloc)] AllocError),
    // a first word that is no call
    #[error("no such call: write order, alias, unalias, load, unload or list")]
    UnknownCall,
    // a call in another form than this
    #[error("write it as: {0}")]
    Form(&'static str),
    // a byte that has to be escaped, or a `%` without two digits
    #[error("write a byte outside ! to ~, and %, as % and two digits of 0-9A-F")]
    Escape,
    // a call that comes before any order
    #[error("no order yet: write a line before it: order single")]
    NoOrder,
}
