// What the reader goes by, in fixed memory.
use basics::stack::Stack;
use commands::awaited::Awaited;
use commands::frame::Frame;
use commands::queue::Queue;
use commands::stage::Stage;
use reading::mode::Mode;
use tokens::begun::Begun;
use tokens::kept::Kept;

// The word, comment or body that is read, and the first bytes of a plain word.
#[derive(Drop)]
pub struct Word {
    pub mode: Mode,
    pub kept: Kept,
}

#[derive(Clone, Copy)]
pub struct Command {
    pub stage: Stage,
    pub awaited: Awaited,
}

// The letters of the delimiter that is read, the here-documents that wait for their bodies, and how many of them
// stand outside the innermost substitution.
#[derive(Drop)]
pub struct Documents {
    pub letters: Kept,
    pub waiting: Queue,
    pub outside: usize,
}

#[derive(Drop)]
pub struct State {
    pub begun: Begun,
    pub word: Word,
    pub frames: Stack<Frame, 32>,
    pub command: Command,
    pub documents: Documents,
}

// A state, and whether an unquoted backslash stands before the next symbol.
#[derive(Drop)]
pub struct Reader {
    pub escape: bool,
    pub at: State,
}
