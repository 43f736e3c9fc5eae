// The items of a script in a table: a line each, its columns one below the other.
use commands::item::Kind;
use journal::answers::Runs;
use journal::item::Item;
use journal::listed::Listed;
use journal::names::{code_name, kind_name};
use std::fmt;

#[derive(Clone, Copy)]
pub struct Table<'a>(pub &'a Listed);

#[derive(Clone, Copy)]
struct Row<'a>(Item<'a>);

impl fmt::Display for Row<'_> {
    fn fmt<W: fmt::Write>(&self, f: &mut fmt::Formatter<W>) -> fmt::Result {
        let Item { record, letters } = self.0;
        let kind = Kind::try_from(self.0)?;
        let name = kind_name(kind);
        let code = match code_name(kind) {
            Some("\n") => "newline",
            Some(code) => code,
            None => "-",
        };
        write!(f, "{:>5}  {:>5}  {name:<8}  ", record.place, record.depth)?;
        if letters.is_empty() {
            return f.write_str(code);
        }
        let runs = Runs(letters);
        write!(f, "{code:<16} {runs}")
    }
}

impl fmt::Display for Table<'_> {
    fn fmt<W: fmt::Write>(&self, f: &mut fmt::Formatter<W>) -> fmt::Result {
        f.write_str("place  depth  kind      role or operator  letters\n")?;
        for record in &self.0.records {
            let row = Row(self.0.item(*record));
            writeln!(f, "{row}")?;
        }
        let items = self.0.records.len();
        let letters = self.0.letters.len();
        writeln!(f, "items: {items}, letters: {letters}")
    }
}
