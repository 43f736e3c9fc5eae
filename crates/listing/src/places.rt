// Where the words, marks and bodies stand that the reader has met.
ghost use Rattle.std.specs.Prelude.{◌≡◌};
ghost use Rattle.reading.specs.Listed.{nowhere, word_at, opened, closed, after_item, place_of, noted, refusal_at};
ghost use Rattle.listing.specs.Noting.{words_of, places_of};

use basics::refusal::Refusal;
use basics::stack::Stack;
use commands::item::Kind;
use reading::act::{Act, At, Fault};

// Places of words.
#[derive(Drop)]
pub struct WordPlaces {
    // where the word, or what is left of it after a substitution, began
    pub(crate) word: usize,
    // where all of it began
    pub(crate) all: u16,
    // the latter of each word that a substitution stands in: as many as there may be frames
    pub(crate) outer: Stack<u16, 32>,
}

// Places of the last backslash, `$` and operator, and of the body.
#[derive(Default, Drop)]
pub struct Marks {
    pub(crate) backslash: u16,
    pub(crate) dollar: u16,
    pub(crate) operator: u16,
    pub(crate) body: usize,
}

#[derive(Drop)]
pub struct Places {
    pub(crate) words: WordPlaces,
    pub(crate) marks: Marks,
}

impl WordPlaces {
    // A substitution opens in the word.
    fn open(&mut self)
        ensures { words_of self.new ≡ opened (words_of self.old) }
    {
        let _ = self.outer.push(self.all);
    }

    // It closes, and what is left of the word begins behind.
    fn close(&mut self, place: u16)
        ensures { words_of self.new ≡ closed place (words_of self.old) }
    {
        self.word = place as usize + 1;
        self.all = self.outer.top().unwrap_or(0);
        self.outer.pop();
    }

    // An item of a kind is given at a place.
    fn pass(&mut self, kind: Kind, place: u16)
        ensures { words_of self.new ≡ after_item kind place (words_of self.old) }
    {
        match kind {
            Kind::Open => self.open(),
            Kind::Close => self.close(place),
            Kind::Part | Kind::Word(_) | Kind::Operator(_) | Kind::Body => {}
        }
    }
}

impl Places {
    // Nothing is met yet.
    pub fn new() -> Self
        ensures { places_of result ≡ nowhere }
    {
        Places {
            words: WordPlaces {
                word: 0,
                all: 0,
                outer: Stack::new(0),
            },
            marks: Marks::default(),
        }
    }

    pub fn place_of(&self, at: At, here: u16) -> usize
        ensures { result ≡ place_of at here (places_of self.now) }
    {
        match at {
            At::Here => here as usize,
            At::Word => self.words.word,
            At::First => self.words.all as usize,
            At::Operator => self.marks.operator as usize,
            At::Dollar => self.marks.dollar as usize,
            At::Body => self.marks.body,
        }
    }

    // Where all of the word began.
    pub fn word_place(&self) -> u16
        ensures { result ≡ (places_of self.now).words.all }
    {
        self.words.all
    }

    pub fn refusal(&self, fault: Fault, here: u16) -> Refusal
        ensures { result ≡ refusal_at fault here (places_of self.now) }
    {
        fault.reason.at(self.place_of(fault.at, here))
    }

    // A word begins.
    fn begin_word(&mut self, place: u16)
        ensures { places_of self.new ≡ word_at place (places_of self.old) }
    {
        self.words.word = place as usize;
        self.words.all = place;
    }

    // What an act says of places.
    pub fn note(&mut self, act: Act, here: u16)
        ensures { places_of self.new ≡ noted act here (places_of self.old) }
    {
        match act {
            Act::WordHere => self.begin_word(here),
            Act::WordAtBackslash => self.begin_word(self.marks.backslash),
            Act::WordAtDollar => self.begin_word(self.marks.dollar),
            Act::BackslashHere => self.marks.backslash = here,
            Act::DollarHere => self.marks.dollar = here,
            Act::OperatorHere => self.marks.operator = here,
            Act::BodyNext => self.marks.body = here as usize + 1,
            Act::Letter(_) => {}
            Act::Item(kind, _, _) => self.words.pass(kind, here),
            Act::Forget => {}
        }
    }
}
