// The product's reader, beside the second one.
ghost use Rattle.std.specs.Prelude.{true};

use super::difference::{Difference, ReadAs, Verdict, verdict};
use super::sheets::lay_out;
use aliases::table::AliasTable;
use basics::refusal::Refusal;
use comparing::beside::{Beside, Text};
use comparing::differences::Differences;
use comparing::room::Room;
use descent_lexer::item::Alias;
use listing::check::check_template;
use listing::list::list;
use random::Random;
use std::alloc::{AllocError, Global};

#[derive(Drop)]
pub struct Product {
    heap: Global,
    table: AliasTable,
    pub differences: Differences<Difference>,
}

impl Product {
    pub fn new(heap: Global) -> Self {
        Product {
            heap,
            table: AliasTable::new(),
            differences: Differences::new(heap),
        }
    }

    fn differ(
        &mut self,
        read_as: ReadAs,
        text: &Text,
        second: Verdict,
        product: Verdict,
    ) -> Result<(), AllocError> {
        let heap = self.heap;
        self.differences
            .add(|| Difference::new(heap, read_as, text, second, product))
    }
}

impl Beside for Product {
    ghost all = { true };

    fn takes_all(&self) -> bool {
        true
    }

    // One that the table refused would show as a difference wherever its name is read.
    fn take_aliases(&mut self, aliases: &[Alias]) {
        self.table = AliasTable::new();
        for alias in aliases {
            let _ = self
                .table
                .define(alias.name.as_slice(), alias.value.as_slice());
        }
    }

    // Lists a script: the answer, the counts and every slot are to be as the second reader has them.
    fn list(
        &mut self,
        script: &Text,
        room: Room,
        random: &mut Random,
    ) -> Result<Option<Refusal>, AllocError> {
        let mut slots = lay_out(self.heap, random, room)?;
        let mut expected = slots.clone()?;
        let second = expected.receive(script.reading)?;
        let mut sheet = slots.sheet();
        let product = list(script.bytes, &self.table, &mut sheet);
        slots.counts = sheet.counts;
        if product != second || slots != expected {
            self.differ(ReadAs::Script, script, verdict(second), verdict(product))?;
        }
        Ok(second.err())
    }

    // Has the product check a template: its holes, or its refusal, are to be the second reader's.
    fn check(&mut self, template: &Text) -> Result<(), AllocError> {
        let second = match template.reading.refusal {
            Some(refusal) => Err(refusal),
            None => Ok(template.reading.holes()),
        };
        let product = check_template(template.bytes, &self.table);
        if product != second {
            self.differ(
                ReadAs::Template,
                template,
                verdict(second),
                verdict(product),
            )?;
        }
        Ok(())
    }
}
