// Symbols: what the reader is given, one at a time, each with its place in the text.
// A byte of the text; a hole of a template, by its digit, 0 to 9; or the end of an alias's value.
#[derive(Clone, Copy, Debug, PartialEq, Eq)]
pub enum Sign {
    Byte(u8),
    Hole(u8),
    AliasEnd,
}

// The place is the offset in the text. No text is longer than 4,096 bytes, so two bytes hold it.
#[derive(Clone, Copy, Debug, PartialEq, Eq)]
pub struct Symbol {
    pub sign: Sign,
    pub place: u16,
}
