// The calls of a journal.
use crate::style::Style;

#[derive(Drop)]
pub enum Call {
    // makes a new order; what follows is called on it
    Order(Style),
    Alias {
        name: Vec<u8>,
        value: Vec<u8>,
    },
    Unalias {
        name: Vec<u8>,
    },
    Load {
        template: Vec<u8>,
    },
    Unload,
    // with so many slots for records and letters
    List {
        records: usize,
        letters: usize,
        script: Vec<u8>,
    },
}

impl Call {
    ghost use Rattle.std.specs.Prelude.{◌≡◌};
    ghost use Rattle.journal.specs.Calls.{name_of};

    // The word that a line with this call begins with.
    pub fn name(&self) -> &'static str
        ensures { result.now ≡ name_of self.now }
    {
        match self {
            Call::Order(_) => "order",
            Call::Alias { .. } => "alias",
            Call::Unalias { .. } => "unalias",
            Call::Load { .. } => "load",
            Call::Unload => "unload",
            Call::List { .. } => "list",
        }
    }
}
