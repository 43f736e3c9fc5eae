// How a begun operator is lengthened: a table with a row for each operator begun and a column for each byte class.
ghost use Rattle.std.specs.Prelude.{◌≡◌};
ghost use Rattle.tokens.specs.Operators.{lengthened};
ghost use Rattle.tokens.specs.Table.{code_or0};

use crate::class::Class;
use crate::operator::Operator;

// For each class the code of the longer operator, or 0 where a byte of the class does not lengthen the one begun.
// Stays: codes, and 0 for none, since the table is asked for as rows of codes.
#[derive(Clone, Copy)]
struct Row {
    next: [u8; 17],
}

// The row of an operator that no byte lengthens.
const COMPLETE: Row = Row { next: [0; 17] };

// The row of each code; no operator has code 0. The columns stand in the order of the classes.
static TABLE: [Row; 19] = [
    COMPLETE, // of no operator
    COMPLETE, // newline
    Row {
        next: [0, 0, 3, 0, 0, 0, 0, 0, 0, 0, 0, 0, 0, 0, 0, 0, 0],
    }, // &
    COMPLETE, // &&
    Row {
        next: [0, 0, 0, 5, 0, 0, 0, 0, 0, 0, 0, 0, 0, 0, 0, 0, 0],
    }, // |
    COMPLETE, // ||
    Row {
        next: [0, 0, 0, 0, 7, 0, 0, 0, 0, 0, 0, 0, 0, 0, 0, 0, 0],
    }, // ;
    COMPLETE, // ;;
    COMPLETE, // (
    COMPLETE, // )
    Row {
        next: [0, 0, 14, 0, 0, 0, 0, 12, 16, 0, 0, 0, 0, 0, 0, 0, 0],
    }, // <
    Row {
        next: [0, 0, 15, 18, 0, 0, 0, 0, 13, 0, 0, 0, 0, 0, 0, 0, 0],
    }, // >
    Row {
        next: [0, 0, 0, 0, 0, 0, 0, 0, 0, 17, 0, 0, 0, 0, 0, 0, 0],
    }, // <<
    COMPLETE, // >>
    COMPLETE, // <&
    COMPLETE, // >&
    COMPLETE, // <>
    COMPLETE, // <<-
    COMPLETE, // >|
];

// The code of the longer operator, or 0 where there is none.
fn next_code(o: Operator, c: Class) -> u8
    ensures { result ≡ code_or0 (lengthened c o) }
{
    TABLE[o.row()].next[c.column()]
}

// The longer operator that a byte of the class makes of the one begun, if it does.
pub fn lengthen(o: Operator, c: Class) -> Option<Operator>
    ensures { result ≡ lengthened c o }
{
    Operator::try_from(next_code(o, c)).ok()
}
