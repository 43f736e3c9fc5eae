// The calls on what an order holds, each by the order's book. A refused call leaves all as it was.
ghost use Rattle.std.specs.Prelude.{◌≡◌};
ghost use Rattle.orders.specs.Book.{start, alias, unalias, load, unload, alias_check, unalias_check, load_check, unload_check};
ghost use Rattle.orders.specs.Holding.{book_of};
ghost use Rattle.orders.specs.Making.{MakesCall};

use crate::contents::{Contents, HOLES};
use crate::template::Template;
use crate::text::Text;
use aliases::table::AliasTable;
use basics::refusal::{Reason, Refusal};
use listing::check::check_template;

impl Contents {
    // Without template, texts and aliases.
    pub fn new() -> Contents
        ensures { book_of result ≡ start }
    {
        Contents {
            aliases: AliasTable::new(),
            loaded: false,
            template: Template::empty(),
            texts: [Text::empty(); HOLES],
            bound: 0,
        }
    }

    // Gives a name this value, whether or not it has one.
    pub fn alias(&mut self, name: &[u8], value: &[u8]) -> Result<(), Refusal>
        ensures { MakesCall book_of (alias_check (book_of self.old) name.now value.now) (alias name.now value.now) self.old self.new result }
    {
        self.none_loaded()?;
        self.aliases.define(name, value)
    }

    // Takes its value from a name.
    pub fn unalias(&mut self, name: &[u8]) -> Result<(), Refusal>
        ensures { MakesCall book_of (unalias_check (book_of self.old) name.now) (unalias name.now) self.old self.new result }
    {
        self.none_loaded()?;
        self.aliases.remove(name)
    }

    // Keeps a template that reads without fault under the aliases.
    pub fn load(&mut self, template: &[u8]) -> Result<(), Refusal>
        ensures { MakesCall book_of (load_check (book_of self.old) template.now) (load template.now) self.old self.new result }
    {
        self.none_loaded()?;
        let holes = check_template(template, &self.aliases)?;
        self.template.keep(template, holes);
        self.loaded = true;
        Ok(())
    }

    // Drops the template and all texts.
    pub fn unload(&mut self) -> Result<(), Refusal>
        ensures { MakesCall book_of (unload_check (book_of self.old)) unload self.old self.new result }
    {
        if !self.loaded {
            return Err(Reason::NoTemplate.at(0));
        }
        self.loaded = false;
        self.bound = 0;
        Ok(())
    }
}
