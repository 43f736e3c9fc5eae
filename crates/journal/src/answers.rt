// The answers to a journal's calls.
use crate::escape::EscapedByte;
use crate::item::Item;
use crate::listed::Listed;
use crate::names::{code_name, kind_name, mark_letter};
use crate::runs::{byte_of, mark_of, of_one_mark};
use basics::refusal::Refusal;
use commands::item::Kind;
use listing::record::Record;
use std::fmt;

// The answer to a call that has nothing else to tell.
#[derive(Clone, Copy)]
pub struct Answer(pub Result<(), Refusal>);

impl fmt::Display for Answer {
    fn fmt<W: fmt::Write>(&self, f: &mut fmt::Formatter<W>) -> fmt::Result {
        match self.0 {
            Ok(()) => f.write_str("accepted"),
            Err(refusal) => write!(f, "refused {refusal}"),
        }
    }
}

// Letters in runs of one mark, each run after a blank. A number that is no letter is an error.
#[derive(Clone, Copy)]
pub struct Runs<'a>(pub &'a [u16]);

impl fmt::Display for Runs<'_> {
    fn fmt<W: fmt::Write>(&self, f: &mut fmt::Formatter<W>) -> fmt::Result {
        for run in self.0.chunk_by(of_one_mark) {
            let mark = mark_letter(mark_of(run).ok_or(fmt::Error)?);
            write!(f, " {mark}:")?;
            for number in run {
                let byte = EscapedByte(byte_of(*number).ok_or(fmt::Error)?);
                write!(f, "{byte}")?;
            }
        }
        Ok(())
    }
}

// An item in one line. A record that is no item is an error.
#[derive(Clone, Copy)]
struct Line<'a>(Item<'a>);

impl fmt::Display for Line<'_> {
    fn fmt<W: fmt::Write>(&self, f: &mut fmt::Formatter<W>) -> fmt::Result {
        let kind = Kind::try_from(self.0)?;
        let Item { record, letters } = self.0;
        let Record {
            depth,
            first,
            count,
            place,
            ..
        } = record;
        let name = kind_name(kind);
        let code = match code_name(kind) {
            Some("\n") => "%0A",
            Some(code) => code,
            None => "-",
        };
        let runs = Runs(letters);
        write!(f, "  {name} {code} {depth} {first} {count} {place}{runs}")
    }
}

// The answer to a list that was accepted: the count of its records, and each in a line.
#[derive(Clone, Copy)]
pub struct Records<'a>(pub &'a Listed);

impl fmt::Display for Records<'_> {
    fn fmt<W: fmt::Write>(&self, f: &mut fmt::Formatter<W>) -> fmt::Result {
        let count = self.0.records.len();
        write!(f, "{count}")?;
        for record in &self.0.records {
            let line = Line(self.0.item(*record));
            write!(f, "\n{line}")?;
        }
        Ok(())
    }
}
