// Calls on which the product and the second book do not agree.
use super::book::Book;
use super::desk::OwnDesk;
use super::request::Request;
use basics::refusal::Refusal;
use comparing::differences::Said;
use orders::outcome::{Done, Outcome};
use std::alloc::{AllocError, Global};
use std::fmt;

// How the product was called.
#[derive(Clone, Copy)]
pub enum Way {
    Replay,
    Run,
    Make,
}

impl fmt::Display for Way {
    fn fmt<W: fmt::Write>(&self, f: &mut fmt::Formatter<W>) -> fmt::Result {
        f.write_str(match self {
            Way::Replay => "replay",
            Way::Run => "run",
            Way::Make => "make",
        })
    }
}

// What a call says that is made, to be shown.
#[derive(Clone, Copy)]
struct Shown(Done);

impl fmt::Display for Shown {
    fn fmt<W: fmt::Write>(&self, f: &mut fmt::Formatter<W>) -> fmt::Result {
        match self.0 {
            Done::Accepted => write!(f, "accepted"),
            Done::Rendered(length) => write!(f, "rendered {length}"),
            Done::Listed(count) => write!(f, "listed {count}"),
        }
    }
}

fn said(outcome: &Outcome) -> Said<Shown> {
    Said(outcome.map(Shown))
}

// What a call said, and what it was to say.
#[derive(Clone, Copy)]
struct Unlike {
    call: usize,
    product: Said<Shown>,
    book: Said<Shown>,
}

#[derive(Drop)]
pub struct Difference {
    order: u64,
    way: Way,
    // the calls, and the second book after them
    calls: String,
    book: String,
    // the first call that said what it was not to say; none, if the page or the sheet alone differ
    unlike: Option<Unlike>,
}

impl Difference {
    pub fn new(
        heap: Global,
        order: u64,
        way: Way,
        requests: &[Request],
        book: &Book,
        desks: (&OwnDesk, &OwnDesk),
    ) -> Result<Self, AllocError> {
        Ok(Difference {
            order,
            way,
            calls: written(heap, requests)?,
            book: format!(in heap; "{book}")?,
            unlike: first_unlike(desks.0, desks.1),
        })
    }
}

impl fmt::Display for Difference {
    fn fmt<W: fmt::Write>(&self, f: &mut fmt::Formatter<W>) -> fmt::Result {
        write!(
            f,
            "order {}, by {}: {}then {}; ",
            self.order, self.way, self.calls, self.book
        )?;
        match self.unlike {
            Some(unlike) => write!(
                f,
                "call {}: the product: {}; the second book: {}",
                unlike.call, unlike.product, unlike.book
            ),
            None => write!(f, "the page or the sheet is another"),
        }
    }
}

fn first_unlike(product: &OwnDesk, book: &OwnDesk) -> Option<Unlike> {
    let pairs = product.outcomes.iter().zip(book.outcomes.iter());
    pairs
        .enumerate()
        .find(|(_, (product, book))| product != book)
        .map(|(call, (product, book))| Unlike {
            call,
            product: said(product),
            book: said(book),
        })
}

fn written(heap: Global, requests: &[Request]) -> Result<String, AllocError> {
    let mut all = String::new(heap);
    for request in requests {
        let call = format!(in heap; "{request}; ")?;
        all.push_str(call.as_str())?;
    }
    Ok(all)
}
