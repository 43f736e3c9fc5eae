// The bodies of here-documents.
ghost use Rattle.std.specs.Prelude.{◌-◌, ◌≤◌, OnOk};
ghost use Rattle.descent_lexer.specs.Text.{left};

use super::command::{Pending, Stage};
use super::level::Level;
use super::reader::Reader;
use basics::refusal::Reason;
use descent_lexer::fault::{Fault, refused};
use descent_lexer::item::{Kind, Letter};

impl<'a> Reader<'a> {
    // After a newline: the bodies that are pending, in order.
    // Stays: each function of the reader says how much of the text it leaves, by which the loops that call it end; it relates before
    // and after, so no type holds it.
    pub fn bodies(&mut self, level: Level) -> Result<(), Fault>
        ensures { OnOk result (left self.new.text ≤ left self.old.text) }
    {
        let due = std::mem::replace(&mut self.command.pending, Vec::new(self.heap));
        for pending in due {
            self.body(&pending, level)?;
            self.pending = self.pending.saturating_sub(1);
        }
        Ok(())
    }

    fn body(&mut self, pending: &Pending, level: Level) -> Result<(), Fault>
        ensures { OnOk result (left self.new.text ≤ left self.old.text) }
    {
        let place = self.text.place();
        let mut letters = Vec::new(self.heap);
        while self.text.raw().is_some() {
            let line = self.line(pending.tabs)?;
            let line = line.as_slice();
            if line.strip_suffix(b"\n").unwrap_or(line) == pending.delim.as_slice() {
                return self.give(Kind::Body, level, letters, place);
            }
            for b in line {
                letters.push(Letter::Body(*b))?;
            }
        }
        let reason = if level.depth > 0 || self.command.stage == Stage::Must {
            Reason::Unfinished
        } else {
            Reason::HereDocument
        };
        Err(refused(reason, self.text.end()))
    }

    // One line with its newline, if it has one, but for leading tabs where they are dropped.
    fn line(&mut self, tabs: bool) -> Result<Vec<u8>, Fault>
        ensures { OnOk result (left self.new.text ≤ left self.old.text - 1) }
    {
        let mut line = Vec::new(self.heap);
        let mut leading = tabs;
        while let Some(b) = self.text.take_byte()? {
            leading = leading && b == b'\t';
            if !leading {
                line.push(b)?;
            }
            if b == b'\n' {
                break;
            }
        }
        Ok(line)
    }
}
