// Who reads a text beside the second reader.
ghost use Rattle.std.specs.Prelude.{◌≡◌, Bool, IfOk, IsSome};

use super::room::Room;
use basics::refusal::Refusal;
use descent_lexer::item::{Alias, Reading};
use random::Random;
use std::alloc::AllocError;

// A text, as the second reader reads it under aliases.
#[derive(Clone, Copy)]
pub struct Text<'t> {
    pub bytes: &'t [u8],
    pub aliases: &'t [Alias],
    pub reading: &'t Reading,
}

// A reader that is given each text after the second reader, and keeps what it has to say of it to itself.
pub trait Beside {
    ghost all: { Bool };

    // Whether scripts go to bad sheets too, and filled templates to a sheet at all: always, or never.
    fn takes_all(&self) -> bool
        ensures { result ≡ all };

    // From here on texts are read under these aliases.
    fn take_aliases(&mut self, aliases: &[Alias]);

    // Lists a script where there is this room. The answer is what the second reader's list was refused for there, on the very
    // sheet that was compared if there was one, so that what a run counts is what it did.
    fn list(
        &mut self,
        script: &Text,
        room: Room,
        random: &mut Random,
    ) -> Result<Option<Refusal>, AllocError>
        ensures { room ≡ Room.Bad → IfOk result (λ refusal. IsSome refusal) };

    fn check(&mut self, template: &Text) -> Result<(), AllocError>;
}
