// The table's memory: eight slots, of which the first `count` hold aliases of different names.
ghost use Rattle.std.specs.Prelude.{◌≡◌, ◌≤◌, true, length};
ghost use Rattle.aliases.specs.Rows.{names, apart, row_of};

use crate::alias::Alias;

// The most aliases that there may be.
pub const ALIAS_LIMIT: usize = 8;

// Stays: an array with a count, since it is copied as a number is, and an `ArrayVec` is not.
#[derive(Clone, Copy)]
pub struct AliasTable {
    pub(crate) slots: [Alias; ALIAS_LIMIT],
    pub(crate) count: usize,
    ghost within: { (count ≤ 8) × (length slots ≡ 8) },
    ghost different: { apart (names (row_of count slots)) ≡ true },
}
