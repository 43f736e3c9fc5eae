// How a form is read: one byte after another, each in a state.
ghost use Rattle.std.specs.Prelude.{◌≡◌};
ghost use Rattle.quoting.specs.Forms.{step};

// Where in a form the next byte stands.
#[derive(Clone, Copy, Debug, PartialEq, Eq, Hash)]
pub enum State {
    Bare,
    Escaped,
    SingleQuoted,
}

// What a lawful byte of a form does: it only leads on, or it is delivered as a byte of the text.
#[derive(Clone, Copy, Debug, PartialEq, Eq, Hash)]
pub enum Step {
    Passes(State),
    Delivers(State),
}

impl State {
    // There is no step where the byte may not stand.
    pub fn step(self, byte: u8) -> Option<Step>
        ensures { result ≡ step self byte }
    {
        match self {
            State::Bare => match byte {
                b'\'' => Some(Step::Passes(State::SingleQuoted)),
                b'\\' => Some(Step::Passes(State::Escaped)),
                _ => None,
            },
            State::Escaped => match byte {
                b'\n' => None,
                _ => Some(Step::Delivers(State::Bare)),
            },
            State::SingleQuoted => match byte {
                b'\'' => Some(Step::Passes(State::Bare)),
                _ => Some(Step::Delivers(State::SingleQuoted)),
            },
        }
    }
}
