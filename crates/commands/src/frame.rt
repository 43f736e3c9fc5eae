// Frames: what is open around the text.
use crate::stage::Stage;

// What a substitution keeps of the word that it stands in.
#[derive(Clone, Copy, Debug, PartialEq, Eq)]
pub struct Outer {
    pub stage: Stage,
    // the word began with a bare name and `=`
    pub assign: bool,
    // a redirection awaits the word
    // Stays: a yes or no, since a substitution opens where a target or nothing is awaited, and never in a delimiter.
    pub target: bool,
    // how many here-documents waited further out when the one around it opened
    pub waiting: usize,
}

#[derive(Clone, Copy, Debug, PartialEq, Eq)]
pub enum Frame {
    // `(`
    Group,
    // `$(`
    Substitution(Outer),
    // `'`
    Single,
    // `"`
    Double,
}
