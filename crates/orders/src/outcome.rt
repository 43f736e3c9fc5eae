// What a call says.
use basics::refusal::Refusal;

// What a call says that is made.
#[derive(Clone, Copy, Debug, PartialEq, Eq)]
pub enum Done {
    // it has no more to say
    Accepted,
    // a render, with the length of its script
    Rendered(usize),
    // a list, with how many records it added
    Listed(usize),
}

// That, or why the call is refused.
pub type Outcome = Result<Done, Refusal>;
