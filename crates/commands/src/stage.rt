// How far a command is.
#[derive(Clone, Copy, Debug, PartialEq, Eq)]
pub enum Stage {
    // a command may begin
    Start,
    // a command must begin
    Must,
    // assignments and redirections, and no name yet
    Head,
    // the name has come
    Args,
    // a group has closed
    Done,
}
