// Calls of a journal, made on an order in runs. A run ends with a list, which wants a sheet of its own size.
use crate::sheets::{cut, new_slots, sheet_on};
use journal::answers::{Answer, Records};
use journal::call::Call;
use journal::listed::Listed;
use orders::call::Call as OrderCall;
use orders::desk::Desk;
use orders::order::Order;
use orders::outcome::{Done, Outcome};
use orders::run::replay;
use quoting::quoter::Quoter;
use std::alloc::{AllocError, Global};
use std::fmt::Write;

// What is called on an order; making one is no such call.
fn order_call(call: &Call) -> Option<OrderCall<'_>> {
    match call {
        Call::Order(_) => None,
        Call::Alias { name, value } => Some(OrderCall::Alias(name.as_slice(), value.as_slice())),
        Call::Unalias { name } => Some(OrderCall::Unalias(name.as_slice())),
        Call::Load { template } => Some(OrderCall::Load(template.as_slice())),
        Call::Unload => Some(OrderCall::Unload),
        Call::List { script, .. } => Some(OrderCall::List(script.as_slice())),
    }
}

// What a run of calls is made with, and what it leaves.
// Stays: calls and outcomes lie side by side, since the library takes them as two slices.
#[derive(Drop)]
struct Run<'a> {
    calls: &'a [Call],
    made: Vec<OrderCall<'a>>,
    outcomes: Vec<Outcome>,
    listed: Listed,
}

impl<'a> Run<'a> {
    // With the slots that the run's list asks for.
    fn new(heap: Global, calls: &'a [Call]) -> Result<Run<'a>, AllocError> {
        let (records, letters) = match calls.last() {
            Some(
                Call::List {
                    records,
                    letters,
                    ..
                },
            ) => (*records, *letters),
            _ => (0, 0),
        };
        Ok(Run {
            calls,
            made: calls.iter().filter_map(order_call).collect(heap)?,
            outcomes: vec![in heap; Ok(Done::Accepted); calls.len()]?,
            listed: new_slots(heap, records, letters)?,
        })
    }

    // Makes the calls on a new order.
    fn begin<Q: Quoter>(&mut self, quoter: Q) -> Order<Q> {
        let mut sheet = sheet_on(&mut self.listed);
        let mut desk = Desk {
            page: &mut [],
            sheet: &mut sheet,
        };
        let order = replay(
            quoter,
            self.made.as_slice(),
            &mut desk,
            self.outcomes.as_mut_slice(),
        );
        let used = sheet.counts;
        cut(&mut self.listed, used);
        order
    }

    // Makes the calls on an order that has made others.
    fn go_on<Q: Quoter>(&mut self, order: &mut Order<Q>) {
        let mut sheet = sheet_on(&mut self.listed);
        let mut desk = Desk {
            page: &mut [],
            sheet: &mut sheet,
        };
        order.run(
            self.made.as_slice(),
            &mut desk,
            self.outcomes.as_mut_slice(),
        );
        let used = sheet.counts;
        cut(&mut self.listed, used);
    }

    // Writes an answer to each call. The run is let go, so that the next finds its slots free.
    fn tell(self, answers: &mut String) -> Result<(), AllocError> {
        for (call, outcome) in self.calls.iter().zip(self.outcomes.iter()) {
            let name = call.name();
            if let Ok(Done::Listed(_)) = *outcome {
                let records = Records(&self.listed);
                writeln!(answers, "{name}: {records}")?;
            } else {
                let answer = Answer(outcome.map(|_| ()));
                writeln!(answers, "{name}: {answer}")?;
            }
        }
        Ok(())
    }
}

// Makes an order and all calls on it, and writes an answer to each.
pub fn make_calls<Q: Quoter + Drop>(
    heap: Global,
    quoter: Q,
    calls: &[Call],
    answers: &mut String,
) -> Result<(), AllocError> {
    let mut runs = calls.split_inclusive(|call| matches!(call, Call::List { .. }));
    let mut run = Run::new(heap, runs.next().unwrap_or(&[]))?;
    let mut order = run.begin(quoter);
    run.tell(answers)?;
    for calls in runs {
        let mut run = Run::new(heap, calls)?;
        run.go_on(&mut order);
        run.tell(answers)?;
    }
    Ok(())
}
