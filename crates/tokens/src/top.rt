// What the innermost frame makes of the text in it.
#[derive(Clone, Copy, Debug, PartialEq, Eq)]
pub enum Top {
    // no frame, or one that holds commands
    Command,
    Single,
    Double,
}
