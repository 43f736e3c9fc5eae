// An order: what a controller holds for one template, and the quoter that fills its holes.
ghost use Rattle.std.specs.Prelude.{◌≡◌};
ghost use Rattle.orders.specs.Book.{start, alias, unalias, load, unload, alias_check, unalias_check, load_check, unload_check};
ghost use Rattle.orders.specs.Holding.{book_of};

use crate::contents::Contents;
use basics::refusal::Refusal;
use quoting::quoter::Quoter;

// Stays: the calls of `Contents` stand here once more. `Contents` has no type parameter, so that it can cross to another language,
// and here each call says besides that the quoter stays.
#[derive(Drop)]
pub struct Order<Q> {
    pub(crate) contents: Contents,
    pub(crate) quoter: Q,
}

impl<Q: Quoter> Order<Q> {
    ghost use Rattle.orders.specs.Making.{Makes};

    // Without template, texts and aliases.
    pub fn new(quoter: Q) -> Self
        ensures book { book_of result.contents ≡ start }
        ensures quoter { result.quoter ≡ quoter }
    {
        Order {
            contents: Contents::new(),
            quoter,
        }
    }

    // Gives a name this value, whether or not it has one.
    pub fn alias(&mut self, name: &[u8], value: &[u8]) -> Result<(), Refusal>
        ensures { Makes (alias_check (book_of self.old.contents) name.now value.now) (alias name.now value.now) self.old self.new result }
    {
        self.contents.alias(name, value)
    }

    // Takes its value from a name.
    pub fn unalias(&mut self, name: &[u8]) -> Result<(), Refusal>
        ensures { Makes (unalias_check (book_of self.old.contents) name.now) (unalias name.now) self.old self.new result }
    {
        self.contents.unalias(name)
    }

    // Keeps a template that reads without fault under the aliases.
    pub fn load(&mut self, template: &[u8]) -> Result<(), Refusal>
        ensures { Makes (load_check (book_of self.old.contents) template.now) (load template.now) self.old self.new result }
    {
        self.contents.load(template)
    }

    // Drops the template and all texts.
    pub fn unload(&mut self) -> Result<(), Refusal>
        ensures { Makes (unload_check (book_of self.old.contents)) unload self.old self.new result }
    {
        self.contents.unload()
    }
}
