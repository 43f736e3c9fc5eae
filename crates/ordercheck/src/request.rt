// A call as it is drawn, with bytes of its own.
use orders::call::Call;
use std::alloc::{AllocError, Global};
use std::fmt;

#[derive(Drop)]
pub enum Request {
    Alias { name: Vec<u8>, value: Vec<u8> },
    Unalias { name: Vec<u8> },
    Load { template: Vec<u8> },
    Unload,
    List { script: Vec<u8> },
}

// What calls are counted by, in the order in which they are shown.
// Stays: a kind apart from the call, since the tally's map wants a key without bytes.
#[derive(Clone, Copy, PartialEq, Eq, PartialOrd, Ord)]
pub enum CallKind {
    Alias,
    Unalias,
    Load,
    Unload,
    List,
}

impl fmt::Display for CallKind {
    fn fmt<W: fmt::Write>(&self, f: &mut fmt::Formatter<W>) -> fmt::Result {
        f.write_str(match self {
            CallKind::Alias => "alias",
            CallKind::Unalias => "unalias",
            CallKind::Load => "load",
            CallKind::Unload => "unload",
            CallKind::List => "list",
        })
    }
}

impl Request {
    pub fn kind(&self) -> CallKind {
        match self {
            Request::Alias { .. } => CallKind::Alias,
            Request::Unalias { .. } => CallKind::Unalias,
            Request::Load { .. } => CallKind::Load,
            Request::Unload => CallKind::Unload,
            Request::List { .. } => CallKind::List,
        }
    }

    // The product's call of these bytes.
    fn call(&self) -> Call<'_> {
        match self {
            Request::Alias { name, value } => Call::Alias(name.as_slice(), value.as_slice()),
            Request::Unalias { name } => Call::Unalias(name.as_slice()),
            Request::Load { template } => Call::Load(template.as_slice()),
            Request::Unload => Call::Unload,
            Request::List { script } => Call::List(script.as_slice()),
        }
    }
}

// The product's calls of requests.
pub fn calls_of(heap: Global, requests: &[Request]) -> Result<Vec<Call<'_>>, AllocError> {
    let mut calls = Vec::new(heap);
    for request in requests {
        calls.push(request.call())?;
    }
    Ok(calls)
}

// The kind of call, and its bytes, each text in quotes.
impl fmt::Display for Request {
    fn fmt<W: fmt::Write>(&self, f: &mut fmt::Formatter<W>) -> fmt::Result {
        write!(f, "{}", self.kind())?;
        match self {
            Request::Alias { name, value } => {
                put_quoted(f, name)?;
                put_quoted(f, value)
            }
            Request::Unalias { name: bytes }
            | Request::Load { template: bytes }
            | Request::List { script: bytes } => put_quoted(f, bytes),
            Request::Unload => Ok(()),
        }
    }
}

fn put_quoted<W: fmt::Write>(f: &mut fmt::Formatter<W>, bytes: &Vec<u8>) -> fmt::Result {
    write!(f, " \"{}\"", bytes.as_slice().escape_ascii())
}
