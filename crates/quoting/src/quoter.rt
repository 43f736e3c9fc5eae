// Quoters: what gives each text its form.
ghost use Rattle.std.specs.Prelude.{◌≡◌, ℕ, List, length};
ghost use Rattle.basics.specs.Bytes.{told};
ghost use Rattle.basics.specs.Pages.{written};
ghost use Rattle.quoting.specs.Forms.{Lawful};
ghost use Rattle.quoting.specs.Rooms.{fitted};

// The part is too short for the form.
#[derive(Clone, Copy, Debug, PartialEq, Eq, Hash)]
pub struct NoRoom;

pub trait Quoter {
    // The form of each text.
    ghost form: { Self → List ℕ → List ℕ };

    // The form's length, or the largest `usize` where it is longer.
    fn measure(&self, text: &[u8]) -> usize
        ensures { result ≡ told (length (form self.now text.now)) };

    // Puts the form at the start of the part and tells its length. A part that is shorter is left as it was.
    fn write(&self, text: &[u8], part: &mut [u8]) -> Result<usize, NoRoom>
        ensures said { result ≡ fitted (length (form self.now text.now)) (length part.old) }
        ensures put { part.new ≡ written (form self.now text.now) part.old };
}

// A quoter all of whose forms are lawful, which is known by its type.
pub trait LawfulQuoter: Quoter {
    ghost lawful: { (q : Self) → Lawful (Self.Quoter.form q) };
}
