// Refusals: why a call was turned away, in which layer, and at which place.
ghost use Rattle.std.specs.Prelude.{◌≡◌, Some};
ghost use Rattle.basics.specs.Checks.{refusal};
ghost use Rattle.basics.specs.Refusals.{number_of, layer_of, layer_number, words_of, shown_of};

use std::fmt;

// Why a call was refused. The first thirteen reasons lie in the input, the others in the state of an order.
#[derive(Clone, Copy, Debug, PartialEq, Eq)]
pub enum Reason {
    TooLong = 1,
    ZeroByte = 2,
    BadAlias = 3,
    BadHole = 4,
    OpenQuote = 6,
    ExpansionNotTaken = 7,
    TooDeep = 9,
    HoleNotTaken = 10,
    OutOfPlace = 11,
    Unfinished = 13,
    HereDocument = 14,
    NoRoom = 15,
    TooManyReplacements = 16,
    TemplateLoaded = 21,
    NoTemplate = 22,
    TooManyAliases = 23,
    NoSuchAlias = 24,
    Unbound = 25,
    NoSuchHole = 26,
    ScriptTooLong = 27,
}

// The layer that refuses: where symbols come from, where they make tokens, where tokens make commands, and the order above them.
#[derive(Clone, Copy, Debug, PartialEq, Eq)]
pub enum Layer {
    Source = 1,
    Token = 2,
    Command = 3,
    Order = 4,
}

impl From<Layer> for u8 {
    ghost from_gives = { λ layer n. n ≡ layer_number layer };

    fn from(layer: Layer) -> u8 {
        layer as u8
    }
}

impl From<Reason> for u8 {
    ghost from_gives = { λ reason n. n ≡ number_of reason };

    fn from(reason: Reason) -> u8 {
        reason as u8
    }
}

impl Reason {
    // A refusal for this reason at a place in the input (0 where it is about none).
    pub fn at(self, place: usize) -> Refusal
        ensures { result ≡ refusal self place }
    {
        Refusal {
            reason: self,
            place,
        }
    }

    pub fn layer(self) -> Layer
        ensures { result ≡ layer_of self }
    {
        match self {
            Reason::ZeroByte | Reason::BadHole | Reason::TooManyReplacements => Layer::Source,
            Reason::OpenQuote
            | Reason::ExpansionNotTaken
            | Reason::TooDeep
            | Reason::HoleNotTaken => Layer::Token,
            Reason::OutOfPlace | Reason::Unfinished | Reason::HereDocument => Layer::Command,
            _ => Layer::Order,
        }
    }

    // What a person is told.
    pub fn words(self) -> &'static str
        ensures { result.now ≡ words_of self }
    {
        match self {
            Reason::TooLong => "too long",
            Reason::ZeroByte => "byte 0",
            Reason::BadAlias => "bad alias",
            Reason::BadHole => "bad hole",
            Reason::OpenQuote => "open quote at the end",
            Reason::ExpansionNotTaken => "expansion not taken",
            Reason::TooDeep => "nested too deep",
            Reason::HoleNotTaken => "hole not taken",
            Reason::OutOfPlace => "out of place",
            Reason::Unfinished => "unfinished at the end",
            Reason::HereDocument => "here-document",
            Reason::NoRoom => "page or sheet too small",
            Reason::TooManyReplacements => "too many replacements",
            Reason::TemplateLoaded => "template loaded",
            Reason::NoTemplate => "no template loaded",
            Reason::TooManyAliases => "too many aliases",
            Reason::NoSuchAlias => "no such alias",
            Reason::Unbound => "hole not bound",
            Reason::NoSuchHole => "no such hole",
            Reason::ScriptTooLong => "script too long",
        }
    }
}

// A refusal: the reason, and the place in the input that it is about (0 where it is about none).
#[derive(Clone, Copy, Debug, PartialEq, Eq)]
pub struct Refusal {
    pub reason: Reason,
    pub place: usize,
}

impl Refusal {
    pub fn layer(self) -> Layer
        ensures { result ≡ layer_of self.reason }
    {
        self.reason.layer()
    }

    pub fn words(self) -> &'static str
        ensures { result.now ≡ words_of self.reason }
    {
        self.reason.words()
    }
}

// A refusal as it is printed: its number, layer, place and words, parted by blanks.
impl fmt::Display for Refusal {
    ghost output = { λ x. Some (shown_of x) };

    fn fmt<W: fmt::Write>(&self, f: &mut fmt::Formatter<W>) -> fmt::Result {
        let number = u8::from(self.reason);
        let layer = u8::from(self.layer());
        let place = self.place;
        let words = self.words();
        write!(f, "{number} {layer} {place} {words}")
    }
}
