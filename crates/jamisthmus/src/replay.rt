// replay: the calls of a journal, and an answer to each.
use crate::input::read_text;
use crate::runs::make_calls;
use anyhow::anyhow;
use journal::call::Call;
use journal::fault::Fault;
use journal::parse::parse_line;
use journal::style::Style;
use quoting::backslash::Backslash;
use quoting::single::Single;
use std::alloc::{AllocError, Global};
use std::fmt::Write;

// The calls of a journal up to the first line that cannot be taken, and what is wrong with that line.
#[derive(Drop)]
struct Journal {
    calls: Vec<Call>,
    fault: Option<anyhow::Error>,
}

impl Journal {
    fn read(heap: Global, text: &str) -> Journal {
        let mut journal = Journal {
            calls: Vec::new(heap),
            fault: None,
        };
        for (i, line) in text.lines().enumerate() {
            if let Err(fault) = journal.take_line(heap, line) {
                let number = i.saturating_add(1);
                journal.fault = Some(anyhow!("journal line {number}: {fault}"));
                break;
            }
        }
        journal
    }

    // A call is made on the order before it.
    fn take_line(&mut self, heap: Global, line: &str) -> Result<(), Fault> {
        let Some(call) = parse_line(heap, line)? else {
            return Ok(());
        };
        if self.calls.is_empty() && !matches!(call, Call::Order(_)) {
            return Err(Fault::NoOrder);
        }
        self.calls.push(call)?;
        Ok(())
    }
}

// Makes an order of this style, and the calls that follow it.
fn answer_order(
    heap: Global,
    style: Style,
    calls: &[Call],
    answers: &mut String,
) -> Result<(), AllocError> {
    writeln!(answers, "order: made {style}")?;
    // Stays: a match from a style to its quoter, as where a text is quoted.
    match style {
        Style::Single => make_calls(heap, Single, calls, answers),
        Style::Backslash => make_calls(heap, Backslash, calls, answers),
    }
}

fn answer_all(heap: Global, calls: &[Call], answers: &mut String) -> Result<(), AllocError> {
    for order in calls.chunk_by(|_, next| !matches!(next, Call::Order(_))) {
        if let [Call::Order(style), calls @ ..] = order {
            answer_order(heap, *style, calls, answers)?;
        }
    }
    Ok(())
}

// Answers up to the first line that cannot be taken. A byte that is no UTF-8 may stand in a comment, and no word takes
// what stands for it.
pub fn replay(rt: &HostRuntime, file: &Option<String>) -> anyhow::Result<()> {
    let bytes = read_text(rt, file)?;
    let text = String::from_utf8_lossy(rt.alloc(), bytes.as_slice())?;
    let Journal { calls, fault } = Journal::read(rt.alloc(), text.as_str());
    let mut answers = String::new(rt.alloc());
    let done = answer_all(rt.alloc(), calls.as_slice(), &mut answers);
    rt.print(answers.as_str())?;
    done?;
    fault.map_or(Ok(()), Err)
}
