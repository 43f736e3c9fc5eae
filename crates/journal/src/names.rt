// The words by which kinds, roles and marks are shown.
// Stays: texts and not impls of Display, since the enums lie in crates below, and a newtype around each would be no plainer.
ghost use Rattle.std.specs.Prelude.{◌≡◌};
ghost use Rattle.std.specs.Option.{option_copied};
ghost use Rattle.journal.specs.Names.{kind_name, role_name, code_name, mark_letter};

use commands::item::Kind;
use commands::role::Role;
use tokens::letter::Mark;

pub fn kind_name(kind: Kind) -> &'static str
    ensures { result.now ≡ kind_name kind }
{
    match kind {
        Kind::Part => "part",
        Kind::Open => "open",
        Kind::Close => "close",
        Kind::Word(_) => "word",
        Kind::Operator(_) => "operator",
        Kind::Body => "body",
    }
}

pub fn role_name(role: Role) -> &'static str
    ensures { result.now ≡ role_name role }
{
    match role {
        Role::Name => "name",
        Role::Arg => "arg",
        Role::Assign => "assign",
        Role::Target => "target",
        Role::Delim => "delim",
        Role::Number => "number",
    }
}

// The role of a word, or the operator as it is written.
pub fn code_name(kind: Kind) -> Option<&'static str>
    ensures { option_copied result ≡ code_name kind }
{
    match kind {
        Kind::Word(role) => Some(role_name(role)),
        Kind::Operator(operator) => Some(operator.text()),
        Kind::Part | Kind::Open | Kind::Close | Kind::Body => None,
    }
}

// The letter by which a mark is shown.
pub fn mark_letter(mark: Mark) -> char
    ensures { result ≡ mark_letter mark }
{
    match mark {
        Mark::Bare => 'b',
        Mark::Quoted => 'q',
        Mark::Expansion => 'e',
        Mark::Body => 'h',
    }
}
