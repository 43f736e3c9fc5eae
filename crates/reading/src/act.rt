// What a step writes: letters and items, and notes of places.
use basics::refusal::Reason;
use commands::item::Kind;
use tokens::letter::Letter;

// A place, by what stands there.
#[derive(Clone, Copy, Debug, PartialEq, Eq)]
pub enum At {
    // the symbol that is read
    Here,
    // the first byte of the word, or of what is left of it after a substitution
    Word,
    // the first byte of all of the word
    First,
    Operator,
    // the `$`
    Dollar,
    Body,
}

#[derive(Clone, Copy, Debug, PartialEq, Eq)]
pub enum Act {
    // a word begins: at the symbol that is read, at the backslash, at the `$`
    WordHere,
    WordAtBackslash,
    WordAtDollar,
    // a backslash, a `$` or an operator stands here
    BackslashHere,
    DollarHere,
    OperatorHere,
    // a body begins behind the newline that is read
    BodyNext,
    // a letter of the word or body
    Letter(Letter),
    // an item of the letters so far, with its depth and where it stands
    Item(Kind, usize, At),
    // the letters so far are those of a replaced word, and no item's
    Forget,
}

// A refusal whose place is not worked out yet.
#[derive(Clone, Copy, Debug, PartialEq, Eq)]
pub struct Fault {
    pub reason: Reason,
    pub at: At,
}
