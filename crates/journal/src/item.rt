// An item as it stands on a sheet, and the kind that its numbers tell.
ghost use Rattle.std.specs.Prelude.{◌≡◌};
ghost use Rattle.std.specs.Result.{result_ok};
ghost use Rattle.journal.specs.Numbers.{kind_of};

use commands::item::Kind;
use commands::role::Role;
use listing::record::Record;
use std::fmt;
use thiserror::Error;
use tokens::operator::Operator;

// A record with its letters, which are numbers.
#[derive(Clone, Copy)]
pub struct Item<'a> {
    pub record: Record,
    pub letters: &'a [u16],
}

// A record whose numbers are no item's.
#[derive(Clone, Copy, Debug, PartialEq, Eq, Error)]
#[error("no item has these numbers")]
pub struct UnknownItem;

// The kind of a record; none where its numbers are no item's.
pub fn kind_of(row: Record) -> Option<Kind>
    ensures { result ≡ kind_of row.kind row.code }
{
    match row.kind {
        1 => Some(Kind::Part),
        2 => Some(Kind::Open),
        3 => Some(Kind::Close),
        4 => Role::try_from(row.code).ok().map(Kind::Word),
        5 => Operator::try_from(row.code).ok().map(Kind::Operator),
        6 => Some(Kind::Body),
        _ => None,
    }
}

impl TryFrom<Item<'_>> for Kind {
    type Error = UnknownItem;

    ghost try_from_gives = { λ item r. result_ok r ≡ kind_of item.record.kind item.record.code };

    fn try_from(item: Item<'_>) -> Result<Self, UnknownItem> {
        kind_of(item.record).ok_or(UnknownItem)
    }
}

impl From<UnknownItem> for fmt::Error {
    fn from(_e: UnknownItem) -> fmt::Error {
        fmt::Error
    }
}
