// What an operator does to a command.
ghost use Rattle.std.specs.Prelude.{◌≡◌};
ghost use Rattle.commands.specs.Stages.{sort_of, leads_to};

use crate::stage::Stage;
use tokens::operator::Operator;

#[derive(Clone, Copy, Debug, PartialEq, Eq)]
pub enum Sort {
    Newline,
    // `;` and `&` end a command
    Ends,
    // `|`, `&&` and `||` ask for another
    Joins,
    // `;;` stands nowhere
    Misplaced,
    Opens,
    Closes,
    Redirects,
}

pub fn sort_of(o: Operator) -> Sort
    ensures { result ≡ sort_of o }
{
    match o {
        Operator::Newline => Sort::Newline,
        Operator::Amp | Operator::Semi => Sort::Ends,
        Operator::Bar | Operator::AndIf | Operator::OrIf => Sort::Joins,
        Operator::DoubleSemi => Sort::Misplaced,
        Operator::Open => Sort::Opens,
        Operator::Close => Sort::Closes,
        _ => Sort::Redirects,
    }
}

// The stage that an operator leads to, or none where it is out of place.
pub fn leads_to(s: Sort, g: Stage) -> Option<Stage>
    ensures { result ≡ leads_to s g }
{
    match (s, g) {
        (Sort::Newline, Stage::Must) => Some(Stage::Must),
        (Sort::Newline, _) => Some(Stage::Start),
        (Sort::Ends | Sort::Joins, Stage::Start | Stage::Must) => None,
        (Sort::Ends, _) => Some(Stage::Start),
        (Sort::Joins, _) => Some(Stage::Must),
        (Sort::Misplaced, _) => None,
        (Sort::Opens, Stage::Start | Stage::Must) => Some(Stage::Must),
        (Sort::Opens, _) => None,
        (Sort::Closes, Stage::Must) => None,
        (Sort::Closes, _) => Some(Stage::Done),
        (Sort::Redirects, Stage::Start | Stage::Must) => Some(Stage::Head),
        (Sort::Redirects, g) => Some(g),
    }
}
