// Lists of scripts, under an order's aliases.
ghost use Rattle.listing.specs.Listing.{Lists};
ghost use Rattle.orders.specs.Holding.{book_of};

use crate::contents::Contents;
use crate::order::Order;
use basics::refusal::Refusal;
use listing::list::list;
use listing::record::Sheet;
use quoting::quoter::Quoter;

impl Contents {
    // Lists a script's items, under the aliases, behind the counts of a sheet, and tells how many records it added.
    pub fn list(&self, script: &[u8], sheet: &mut Sheet) -> Result<usize, Refusal>
        ensures { Lists (book_of self.now).aliases.named script.now sheet.old sheet.new result }
    {
        list(script, &self.aliases, sheet)
    }
}

impl<Q: Quoter> Order<Q> {
    // The same of an order.
    pub fn list(&self, script: &[u8], sheet: &mut Sheet) -> Result<usize, Refusal>
        ensures { Lists (book_of self.now.contents).aliases.named script.now sheet.old sheet.new result }
    {
        self.contents.list(script, sheet)
    }
}
