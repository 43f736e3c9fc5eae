// What is asked of the alias table: define, remove, and look up.
ghost use Rattle.std.specs.Prelude.{◌≡◌, ◌<◌, ◌≤◌, true, false, length, map, position, is_ok, MatchOption};
ghost use Rattle.std.specs.List.{IsDistinct};
ghost use Rattle.std.specs.Str.{bytes_eq};
ghost use Rattle.basics.specs.Checks.{answer, unless};
ghost use Rattle.aliases.specs.Aliases.{no_aliases, define_check, defined, remove_check, removed};
ghost use Rattle.aliases.specs.Rows.{entry, name_of, names, name_at, value_at, index_of, is_free, value_at_found};
ghost use Rattle.aliases.specs.Tables.{rows, aliases_of, lent};

use crate::alias::Alias;
use crate::table::{ALIAS_LIMIT, AliasTable};
use basics::refusal::{Reason, Refusal};

// The index of the first alias of a name.
fn place_of(name: &[u8], row: &[Alias]) -> Option<usize>
    ensures { result ≡ position (λ a. bytes_eq name.now (name_of (entry a))) row.now }
{
    row.iter().position(|alias| name == alias.name())
}

impl AliasTable {
    pub fn new() -> AliasTable
        ensures { aliases_of result ≡ no_aliases }
    {
        AliasTable {
            slots: [Alias::default(); ALIAS_LIMIT],
            count: 0,
        }
    }

    // The aliases, in a row.
    fn row(&self) -> &[Alias]
        ensures { map entry result.now ≡ rows self.now }
    {
        &self.slots[..self.count]
    }

    // The name at an index, and no bytes past the aliases.
    pub fn name_at(&self, index: usize) -> &[u8]
        ensures is { result.now ≡ name_at (rows self.now) index }
        ensures short { length result.now ≤ 16 }
    {
        self.row().get(index).map_or(b"", |alias| alias.name())
    }

    // The value at an index, and no bytes past the aliases.
    pub fn value_at(&self, index: usize) -> &[u8]
        ensures is { result.now ≡ value_at (rows self.now) index }
        ensures short { length result.now ≤ 64 }
    {
        self.row().get(index).map_or(b"", |alias| alias.value())
    }

    // The index of the alias of this name.
    pub fn find(&self, name: &[u8]) -> Option<usize>
        ensures is { result ≡ index_of name.now (rows self.now) }
        ensures found { MatchOption result (is_free name.now (names (rows self.now)) ≡ true) (λ i. (i < (aliases_of self.now).count) × (name_at (rows self.now) i ≡ name.now)) }
        ensures value { (aliases_of self.now).named name.now ≡ value_at_found (rows self.now) result }
        ensures room { (aliases_of self.now).count ≤ 8 }
        ensures apart { IsDistinct bytes_eq (names (rows self.now)) }
    {
        place_of(name, self.row())
    }

    // The value of the alias of this name.
    pub fn look_up(&self, name: &[u8]) -> Option<&[u8]>
        ensures { lent result ≡ (aliases_of self.now).named name.now }
    {
        self.find(name).map(|index| self.value_at(index))
    }

    // Gives a name this value, whether or not it has one. A refused call leaves the table as it was.
    pub fn define(&mut self, name: &[u8], value: &[u8]) -> Result<(), Refusal>
        ensures said { result ≡ answer (define_check (aliases_of self.old) name.now value.now) tt }
        ensures after { aliases_of self.new ≡ unless (define_check (aliases_of self.old) name.now value.now) (aliases_of self.old) (defined (aliases_of self.old) name.now value.now) }
        ensures kept { is_ok result ≡ false → self.new ≡ self.old }
    {
        let alias = Alias::new(name, value)?;
        match self.find(name) {
            Some(index) => self.slots[index] = alias,
            None if self.count == ALIAS_LIMIT => return Err(Reason::TooManyAliases.at(0)),
            None => {
                self.slots[self.count] = alias;
                self.count += 1;
            }
        }
        Ok(())
    }

    // Takes its value from a name. A refused call leaves the table as it was.
    pub fn remove(&mut self, name: &[u8]) -> Result<(), Refusal>
        ensures said { result ≡ answer (remove_check (aliases_of self.old) name.now) tt }
        ensures after { aliases_of self.new ≡ unless (remove_check (aliases_of self.old) name.now) (aliases_of self.old) (removed (aliases_of self.old) name.now) }
        ensures kept { is_ok result ≡ false → self.new ≡ self.old }
    {
        let index = self.find(name).ok_or(Reason::NoSuchAlias.at(0))?;
        self.slots[index] = self.slots[self.count - 1];
        self.count -= 1;
        Ok(())
    }
}
