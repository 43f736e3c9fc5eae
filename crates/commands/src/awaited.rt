// The word that a redirection awaits.
ghost use Rattle.std.specs.Prelude.{◌≡◌};
ghost use Rattle.commands.specs.Redirections.{awaited_by};

use tokens::operator::Operator;

#[derive(Clone, Copy, Debug, PartialEq, Eq)]
pub enum Awaited {
    Nothing,
    Target,
    // a here-document's delimiter, and whether its lines lose their leading tabs
    Delimiter(bool),
}

// What a redirection awaits.
pub fn awaited_by(o: Operator) -> Awaited
    ensures { result ≡ awaited_by o }
{
    match o {
        Operator::Here => Awaited::Delimiter(false),
        Operator::HereDash => Awaited::Delimiter(true),
        _ => Awaited::Target,
    }
}
