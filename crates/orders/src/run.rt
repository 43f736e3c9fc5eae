// Calls made one after another on an order.
ghost use Rattle.std.specs.Prelude.{◌≡◌, slice_set};
ghost use Rattle.orders.specs.Book.{start, next, after, book_of_calls};
ghost use Rattle.orders.specs.Holding.{book_of};
ghost use Rattle.orders.specs.Desk.{desk_of, SamePlaces, said, desk_next, answers, desk_after, noted};
ghost use Rattle.orders.specs.Requests.{request_of, requests};

use crate::call::Call;
use crate::desk::Desk;
use crate::order::Order;
use crate::outcome::{Done, Outcome};
use quoting::quoter::Quoter;

// Puts an outcome into the slot of its number, if there is one.
fn note(outcomes: &mut [Outcome], i: usize, outcome: Outcome)
    ensures { outcomes.new ≡ slice_set outcomes.old i outcome }
{
    if i < outcomes.len() {
        outcomes[i] = outcome;
    }
}

impl<Q: Quoter> Order<Q> {
    // Makes a call: renders go to the page, and lists to the sheet.
    pub fn make(&mut self, call: &Call, desk: &mut Desk) -> Outcome
        ensures said { result ≡ said (Q.Quoter.form self.old.quoter) (book_of self.old.contents) (desk_of desk.old) (request_of call.now) }
        ensures book { book_of self.new.contents ≡ next (book_of self.old.contents) (request_of call.now) }
        ensures desk { desk_of desk.new ≡ desk_next (Q.Quoter.form self.old.quoter) (book_of self.old.contents) (desk_of desk.old) (request_of call.now) }
        ensures quoter { self.new.quoter ≡ self.old.quoter }
        ensures places { SamePlaces desk.old desk.new }
    {
        match call {
            Call::Alias(name, value) => self.alias(name, value)?,
            Call::Unalias(name) => self.unalias(name)?,
            Call::Load(template) => self.load(template)?,
            Call::Unload => self.unload()?,
            Call::List(script) => return Ok(Done::Listed(self.list(script, desk.sheet)?)),
        }
        Ok(Done::Accepted)
    }

    // Makes calls one after another. What each says goes into the slot of its number, as far as there are slots.
    pub fn run(&mut self, calls: &[Call], desk: &mut Desk, outcomes: &mut [Outcome])
        ensures said { outcomes.new ≡ noted (answers (Q.Quoter.form self.old.quoter) (book_of self.old.contents) (desk_of desk.old) (requests calls.now)) outcomes.old }
        ensures book { book_of self.new.contents ≡ after (book_of self.old.contents) (requests calls.now) }
        ensures desk { desk_of desk.new ≡ desk_after (Q.Quoter.form self.old.quoter) (book_of self.old.contents) (desk_of desk.old) (requests calls.now) }
        ensures quoter { self.new.quoter ≡ self.old.quoter }
        ensures places { SamePlaces desk.old desk.new }
    {
        for (i, call) in calls.iter().enumerate() {
            let outcome = self.make(call, desk);
            note(outcomes, i, outcome);
        }
    }
}

// Makes an order, and calls on it one after another. The order's book is that of the calls, and what each says is what
// the book says at its point.
pub fn replay<Q: Quoter>(
    quoter: Q,
    calls: &[Call],
    desk: &mut Desk,
    outcomes: &mut [Outcome],
) -> Order<Q>
    ensures said { outcomes.new ≡ noted (answers (Q.Quoter.form quoter) start (desk_of desk.old) (requests calls.now)) outcomes.old }
    ensures book { book_of result.contents ≡ book_of_calls (requests calls.now) }
    ensures desk { desk_of desk.new ≡ desk_after (Q.Quoter.form quoter) start (desk_of desk.old) (requests calls.now) }
    ensures quoter { result.quoter ≡ quoter }
    ensures places { SamePlaces desk.old desk.new }
{
    let mut order = Order::new(quoter);
    order.run(calls, desk, outcomes);
    order
}
