// A line of a here-document's body, as far as it is read.
#[derive(Clone, Copy, Debug, PartialEq, Eq)]
pub enum Line {
    // no byte of it is read
    Fresh,
    // only leading tabs, which do not count
    Tabs,
    // so far it is that many bytes of the delimiter
    Same(usize),
    // it is not the delimiter
    Other,
}

// What a byte of a body gives.
// Stays: three cases that one match takes side by side; as an Option two of them would stand in Some.
#[derive(Clone, Copy, Debug, PartialEq, Eq)]
pub enum Gives {
    Nothing,
    // that many letters of the delimiter, and then the byte
    Letters(usize),
    // the body's end
    Ends,
}

// What a byte gives, and the line after it.
#[derive(Clone, Copy)]
pub struct LineByte {
    pub gives: Gives,
    pub line: Line,
}
