// One order at a time: calls on it, the same calls on the second book, and whether the two say and leave the same.
use super::book::Book;
use super::desk::OwnDesk;
use super::difference::{Difference, Way};
use super::draw::Draw;
use super::request::{Request, calls_of};
use super::tally::Tally;
use comparing::differences::Differences;
use comparing::room::{room_of, sum};
use listing::record::Counts;
use orders::order::Order;
use quoting::quoter::Quoter;
use std::alloc::{AllocError, Global};

#[derive(Drop)]
pub struct Comparison {
    heap: Global,
    draw: Draw,
    pub tally: Tally,
    pub differences: Differences<Difference>,
}

// An order, and the second book of its calls.
#[derive(Drop)]
struct Both<Q> {
    order: Order<Q>,
    book: Book,
}

// As many slots as the scripts that are listed take under the aliases now.
fn need_of(requests: &[Request], book: &Book) -> Result<Counts, AllocError> {
    let mut need = Counts::default();
    for request in requests {
        if let Request::List { script } = request {
            let reading = book.reading(script.as_slice())?;
            need = sum(need, room_of(&reading));
        }
    }
    Ok(need)
}

impl Comparison {
    pub fn new(heap: Global, seed: u64) -> Comparison {
        Comparison {
            heap,
            draw: Draw::new(heap, seed),
            tally: Tally::new(heap),
            differences: Differences::new(heap),
        }
    }

    // Makes an order by its first calls, makes the others on it, and looks at its aliases then.
    pub fn try_order<Q: Quoter + Drop>(&mut self, quoter: Q) -> Result<(), AllocError> {
        let requests = self.draw.requests()?;
        let count = requests.len();
        let first = self.draw.below(count.saturating_add(1)).min(count);
        let (first, others) = requests.as_slice().split_at(first);
        let mut both = self.replay(quoter, first)?;
        self.go_on(&mut both, others)?;
        self.list_names(&mut both, requests.as_slice())
    }

    fn replay<Q: Quoter + Drop>(
        &mut self,
        quoter: Q,
        requests: &[Request],
    ) -> Result<Both<Q>, AllocError> {
        let mut book = Book::new(self.heap);
        let mut desk = self.lay_out(requests, &book)?;
        let expected = desk.clone()?;
        let calls = calls_of(self.heap, requests)?;
        let order = desk.replay(quoter, calls.as_slice());
        self.compare(Way::Replay, requests, &mut book, desk, expected)?;
        Ok(Both { order, book })
    }

    // Makes calls by one, or a few at a time.
    fn go_on<Q: Quoter>(
        &mut self,
        both: &mut Both<Q>,
        requests: &[Request],
    ) -> Result<(), AllocError> {
        let mut rest = requests;
        while !rest.is_empty() {
            let count = self.draw.few().min(rest.len());
            let (next, others) = rest.split_at(count);
            let desk = self.lay_out(next, &both.book)?;
            let way = if count > 1 { Way::Run } else { Way::Make };
            self.call(way, both, next, desk)?;
            rest = others;
        }
        Ok(())
    }

    // Lists every name that was to have a value, as a script of one word, and then unloads the template.
    fn list_names<Q: Quoter>(
        &mut self,
        both: &mut Both<Q>,
        requests: &[Request],
    ) -> Result<(), AllocError> {
        let mut lists = Vec::new(self.heap);
        for request in requests {
            if let Request::Alias { name, .. } = request {
                let script = Vec::from_slice(self.heap, name.as_slice())?;
                lists.push(Request::List { script })?;
            }
        }
        self.tally.add_order(lists.len());
        lists.push(Request::Unload)?;
        let need = need_of(lists.as_slice(), &both.book)?;
        let desk = self.draw.enough(lists.len(), need)?;
        self.call(Way::Make, both, lists.as_slice(), desk)
    }

    fn lay_out(&mut self, requests: &[Request], book: &Book) -> Result<OwnDesk, AllocError> {
        let need = need_of(requests, book)?;
        self.draw.desk(requests.len(), need)
    }

    fn call<Q: Quoter>(
        &mut self,
        way: Way,
        both: &mut Both<Q>,
        requests: &[Request],
        mut desk: OwnDesk,
    ) -> Result<(), AllocError> {
        let expected = desk.clone()?;
        let calls = calls_of(self.heap, requests)?;
        match way {
            Way::Make => desk.make_each(&mut both.order, calls.as_slice()),
            _ => desk.run(&mut both.order, calls.as_slice()),
        }
        self.compare(way, requests, &mut both.book, desk, expected)
    }

    // Has the second book make the calls on a desk as it was, and compares with what the product left on it.
    fn compare(
        &mut self,
        way: Way,
        requests: &[Request],
        book: &mut Book,
        desk: OwnDesk,
        mut expected: OwnDesk,
    ) -> Result<(), AllocError> {
        for (i, request) in requests.iter().enumerate() {
            let outcome = book.answer(request, &mut expected.slots)?;
            self.tally.add(request.kind(), outcome)?;
            expected.note(i, outcome);
        }
        let heard = expected.outcomes.len();
        self.tally.add_unheard(requests.len().saturating_sub(heard));
        if desk != expected {
            let (heap, order) = (self.heap, self.tally.orders);
            let desks = (&desk, &expected);
            self.differences.add(|| Difference::new(heap, order, way, requests, book, desks))?;
        }
        Ok(())
    }
}
