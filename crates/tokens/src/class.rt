// The class of a byte: what it can do in command text.
ghost use Rattle.std.specs.Prelude.{◌≡◌, ◌<◌};
ghost use Rattle.tokens.specs.Bytes.{class_of, ends_word, redirects};
ghost use Rattle.tokens.specs.Table.{column_of};

#[derive(Clone, Copy, Debug, PartialEq, Eq)]
pub enum Class {
    Newline,
    // a space or a tab
    Blank,
    Amp,
    Bar,
    Semi,
    Open,
    Close,
    Less,
    Great,
    Minus,
    SingleQuote,
    DoubleQuote,
    Backslash,
    Dollar,
    Backquote,
    Hash,
    Other,
}

// The class of each byte below 128; all above are of the last class.
// Stays: a `match` on the byte is built as a jump by the byte's value and takes twice as long, and this is asked of each byte.
static CLASSES: [Class; 128] = [
    Class::Other,
    Class::Other,
    Class::Other,
    Class::Other,
    Class::Other,
    Class::Other,
    Class::Other,
    Class::Other,
    Class::Other,
    Class::Blank, // tab
    Class::Newline,
    Class::Other,
    Class::Other,
    Class::Other,
    Class::Other,
    Class::Other,
    Class::Other,
    Class::Other,
    Class::Other,
    Class::Other,
    Class::Other,
    Class::Other,
    Class::Other,
    Class::Other,
    Class::Other,
    Class::Other,
    Class::Other,
    Class::Other,
    Class::Other,
    Class::Other,
    Class::Other,
    Class::Other,
    Class::Blank,
    Class::Other,
    Class::DoubleQuote,
    Class::Hash,
    Class::Dollar,
    Class::Other,
    Class::Amp,
    Class::SingleQuote,
    Class::Open,
    Class::Close,
    Class::Other,
    Class::Other,
    Class::Other,
    Class::Minus,
    Class::Other,
    Class::Other,
    Class::Other,
    Class::Other,
    Class::Other,
    Class::Other,
    Class::Other,
    Class::Other,
    Class::Other,
    Class::Other,
    Class::Other,
    Class::Other,
    Class::Other,
    Class::Semi,
    Class::Less,
    Class::Other,
    Class::Great,
    Class::Other,
    Class::Other,
    Class::Other,
    Class::Other,
    Class::Other,
    Class::Other,
    Class::Other,
    Class::Other,
    Class::Other,
    Class::Other,
    Class::Other,
    Class::Other,
    Class::Other,
    Class::Other,
    Class::Other,
    Class::Other,
    Class::Other,
    Class::Other,
    Class::Other,
    Class::Other,
    Class::Other,
    Class::Other,
    Class::Other,
    Class::Other,
    Class::Other,
    Class::Other,
    Class::Other,
    Class::Other,
    Class::Other,
    Class::Backslash,
    Class::Other,
    Class::Other,
    Class::Other,
    Class::Backquote,
    Class::Other,
    Class::Other,
    Class::Other,
    Class::Other,
    Class::Other,
    Class::Other,
    Class::Other,
    Class::Other,
    Class::Other,
    Class::Other,
    Class::Other,
    Class::Other,
    Class::Other,
    Class::Other,
    Class::Other,
    Class::Other,
    Class::Other,
    Class::Other,
    Class::Other,
    Class::Other,
    Class::Other,
    Class::Other,
    Class::Other,
    Class::Other,
    Class::Other,
    Class::Other,
    Class::Other,
    Class::Bar,
    Class::Other,
    Class::Other,
    Class::Other,
];

pub fn class_of(b: u8) -> Class
    ensures { result ≡ class_of b }
{
    if b < 128 {
        CLASSES[b as usize]
    } else {
        Class::Other
    }
}

impl Class {
    // A byte of the class ends a word in command text.
    pub fn ends_word(self) -> bool
        ensures { result ≡ ends_word self }
    {
        matches!(
            self,
            Class::Newline
                | Class::Blank
                | Class::Amp
                | Class::Bar
                | Class::Semi
                | Class::Open
                | Class::Close
                | Class::Less
                | Class::Great
        )
    }

    // A byte of the class begins a redirection.
    pub fn redirects(self) -> bool
        ensures { result ≡ redirects self }
    {
        matches!(self, Class::Less | Class::Great)
    }

    // The class's column in the table of operators.
    pub fn column(self) -> usize
        ensures is { result ≡ column_of self }
        ensures below { result < 17 }
    {
        self as usize
    }
}
