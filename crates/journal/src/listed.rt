// A list on its sheet: the slots that it uses, and the letters of each record.
use crate::item::Item;
use basics::slices::{behind, up_to};
use listing::record::Record;

// The slots that a list uses.
#[derive(Drop)]
pub struct Listed {
    pub records: Vec<Record>,
    pub letters: Vec<u16>,
}

impl Listed {
    ghost use Rattle.std.specs.Prelude.{◌≡◌, take, drop};

    // The letters of a record.
    pub fn letters_of(&self, item: Record) -> &[u16]
        ensures { result.now ≡ take item.count (drop item.first self.now.letters.items) }
    {
        let rest = behind(&self.letters, item.first);
        up_to(rest, item.count)
    }

    // A record with its letters.
    pub fn item(&self, row: Record) -> Item<'_>
        ensures record { result.record ≡ row }
        ensures letters { result.letters.now ≡ take row.count (drop row.first self.now.letters.items) }
    {
        let letters = self.letters_of(row);
        Item {
            record: row,
            letters,
        }
    }
}
