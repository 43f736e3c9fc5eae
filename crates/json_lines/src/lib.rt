// Lists, holes and refusals for other programs: one JSON object a line. In a text each character is one byte, from \u0000 to \u00ff.
#![tactic(auto)]

use basics::refusal::Refusal;
use commands::item::Kind;
use journal::item::Item;
use journal::listed::Listed;
use journal::names::{kind_name, role_name};
use journal::runs::{byte_of, mark_of, of_one_mark};
use listing::record::Record;
use std::fmt;
use tokens::letter::Mark;
use tokens::operator::Operator;
use views::holes::{Holes, Joined};

// A byte inside a JSON string.
#[derive(Clone, Copy)]
struct JsonByte(u8);

impl fmt::Display for JsonByte {
    fn fmt<W: fmt::Write>(&self, f: &mut fmt::Formatter<W>) -> fmt::Result {
        let b = self.0;
        match b {
            b'"' => f.write_str("\\\""),
            b'\\' => f.write_str("\\\\"),
            b' '..=b'~' => {
                let c = char::from(b);
                write!(f, "{c}")
            }
            _ => write!(f, "\\u00{b:02x}"),
        }
    }
}

// Stays: a text, as the names of kinds and roles are.
fn mark_name(mark: Mark) -> &'static str {
    match mark {
        Mark::Bare => "bare",
        Mark::Quoted => "quoted",
        Mark::Expansion => "expansion",
        Mark::Body => "body",
    }
}

// Letters of one mark as an object.
#[derive(Clone, Copy)]
struct JsonRun<'a>(&'a [u16]);

impl fmt::Display for JsonRun<'_> {
    fn fmt<W: fmt::Write>(&self, f: &mut fmt::Formatter<W>) -> fmt::Result {
        let mark = mark_name(mark_of(self.0).ok_or(fmt::Error)?);
        write!(f, "{{\"mark\":\"{mark}\",\"text\":\"")?;
        for number in self.0 {
            let byte = JsonByte(byte_of(*number).ok_or(fmt::Error)?);
            write!(f, "{byte}")?;
        }
        f.write_str("\"}")
    }
}

// Letters as an array of their runs of one mark.
#[derive(Clone, Copy)]
struct JsonRuns<'a>(&'a [u16]);

impl fmt::Display for JsonRuns<'_> {
    fn fmt<W: fmt::Write>(&self, f: &mut fmt::Formatter<W>) -> fmt::Result {
        f.write_str("[")?;
        for (i, run) in self.0.chunk_by(of_one_mark).enumerate() {
            let run = JsonRun(run);
            if i > 0 {
                f.write_str(",")?;
            }
            write!(f, "{run}")?;
        }
        f.write_str("]")
    }
}

// The kind, with the role or operator of one that has it.
#[derive(Clone, Copy)]
struct JsonKind(Kind);

impl fmt::Display for JsonKind {
    fn fmt<W: fmt::Write>(&self, f: &mut fmt::Formatter<W>) -> fmt::Result {
        let name = kind_name(self.0);
        write!(f, "\"kind\":\"{name}\"")?;
        match self.0 {
            Kind::Word(role) => {
                let role = role_name(role);
                write!(f, ",\"role\":\"{role}\"")
            }
            Kind::Operator(Operator::Newline) => f.write_str(",\"operator\":\"\\n\""),
            Kind::Operator(operator) => {
                let text = operator.text();
                write!(f, ",\"operator\":\"{text}\"")
            }
            _ => Ok(()),
        }
    }
}

#[derive(Clone, Copy)]
struct JsonItem<'a>(Item<'a>);

impl fmt::Display for JsonItem<'_> {
    fn fmt<W: fmt::Write>(&self, f: &mut fmt::Formatter<W>) -> fmt::Result {
        let kind = JsonKind(Kind::try_from(self.0)?);
        let Item { record, letters } = self.0;
        let Record {
            depth,
            first,
            count,
            place,
            ..
        } = record;
        let runs = JsonRuns(letters);
        write!(
            f,
            "{{{kind},\"depth\":{depth},\"first\":{first},\"count\":{count},\"place\":{place},\"letters\":{runs}}}"
        )
    }
}

#[derive(Clone, Copy)]
pub struct JsonItems<'a>(pub &'a Listed);

impl fmt::Display for JsonItems<'_> {
    fn fmt<W: fmt::Write>(&self, f: &mut fmt::Formatter<W>) -> fmt::Result {
        for record in &self.0.records {
            let item = JsonItem(self.0.item(*record));
            writeln!(f, "{item}")?;
        }
        Ok(())
    }
}

#[derive(Clone, Copy)]
pub struct JsonRefusal(pub Refusal);

impl fmt::Display for JsonRefusal {
    fn fmt<W: fmt::Write>(&self, f: &mut fmt::Formatter<W>) -> fmt::Result {
        let number = u8::from(self.0.reason);
        let layer = u8::from(self.0.layer());
        let place = self.0.place;
        let words = self.0.words();
        writeln!(
            f,
            "{{\"refused\":{number},\"layer\":{layer},\"place\":{place},\"words\":\"{words}\"}}"
        )
    }
}

#[derive(Clone, Copy)]
pub struct JsonHoles(pub Holes);

impl fmt::Display for JsonHoles {
    fn fmt<W: fmt::Write>(&self, f: &mut fmt::Formatter<W>) -> fmt::Result {
        let digits = self.0.digits();
        let digits = Joined {
            numbers: digits.as_slice(),
            by: ",",
        };
        writeln!(f, "{{\"holes\":[{digits}]}}")
    }
}
