// Where the reader stands in its text.
use commands::line::Line;
use tokens::opening::Opening;

#[derive(Clone, Copy, Debug, PartialEq, Eq)]
pub enum Mode {
    // between words
    Gap,
    Comment,
    // in a word without quote mark, backslash, expansion and hole, and how it opens
    Plain(Opening),
    // in any other word, and whether it began with a bare name and `=`
    Mixed(bool),
    // in the body of that one of the here-documents waiting, and its line so far
    Body(usize, Line),
}

// What the text is, by mode and innermost frame.
#[derive(Clone, Copy, Debug, PartialEq, Eq)]
pub enum Region {
    // command text, or double quotes
    Text,
    // single quotes
    Single,
    Comment,
    Body(usize, Line),
}
