// The text to read, as symbols: bytes and, in a template, holes, each at its place.
#![tactic(auto, unfolding(crate::specs::Text::left))]

ghost use Rattle.std.specs.Prelude.{◌≡◌, ◌+◌, ◌-◌, ◌<◌, ◌≤◌, length, IfOk, IfSome, IsTrue, IsSome, IsNone, OnOk, if◌then◌else◌, None, vec_len, nat_lt};
ghost use Rattle.descent_lexer.specs.Text.{left};

use super::fault::{Fault, refused};
use basics::refusal::Reason;
use std::alloc::Global;

#[derive(Clone, Copy, PartialEq, Eq)]
pub enum Sign {
    Byte(u8),
    Hole(u8),
}

#[derive(Clone, Copy)]
struct Symbol {
    sign: Sign,
    place: usize,
}

#[derive(Drop)]
pub struct Text {
    symbols: Vec<Symbol>,
    at: usize,
    end: usize,
}

// A template begins with `@{` that no digit and `}` follow.
#[derive(Clone, Copy)]
struct BadHole;

// What a template begins with, and what follows it, unless nothing is left.
fn first_sign(template: &[u8]) -> Result<Option<(Sign, &[u8])>, BadHole>
    ensures { IfOk result (λ first. IfSome first (λ p. length p.1.now < length template.now)) }
{
    match template {
        [b'@', b'{', digit @ b'0'..=b'9', b'}', rest @ ..] => {
            Ok(Some((Sign::Hole(*digit - b'0'), rest)))
        }
        [b'@', b'{', ..] => Err(BadHole),
        [b, rest @ ..] => Ok(Some((Sign::Byte(*b), rest))),
        [] => Ok(None),
    }
}

impl Text {
    pub fn of_script(heap: Global, script: &[u8]) -> Result<Text, Fault>
        ensures { IfOk result (λ t. (vec_len t.symbols ≡ length script.now) × (t.at ≡ 0) × (t.end ≡ length script.now)) }
    {
        let mut symbols = Vec::new(heap);
        for (place, b) in script.iter().enumerate() {
            symbols.push(Symbol {
                sign: Sign::Byte(*b),
                place,
            })?;
        }
        Ok(Text {
            symbols,
            at: 0,
            end: script.len(),
        })
    }

    pub fn of_template(heap: Global, template: &[u8]) -> Result<Text, Fault>
        ensures { IfOk result (λ t. (t.at ≡ 0) × (t.end ≡ length template.now)) }
    {
        let mut symbols = Vec::new(heap);
        let mut rest = template;
        loop {
            let place = template.len() - rest.len();
            let first = first_sign(rest).map_err(|_| refused(Reason::BadHole, place))?;
            let Some((sign, behind)) = first else {
                break;
            };
            symbols.push(Symbol { sign, place })?;
            rest = behind;
        }
        Ok(Text {
            symbols,
            at: 0,
            end: template.len(),
        })
    }

    // The next symbol as it stands.
    pub fn raw(&self) -> Option<Sign>
        ensures end { vec_len self.now.symbols ≤ self.now.at → result ≡ None }
        ensures some { IsSome result → 0 < left self.now }
        ensures none { IsNone result → left self.now ≡ 0 }
    {
        Some(self.symbols.get(self.at)?.sign)
    }

    // The place of the next symbol, or of the end.
    pub fn place(&self) -> usize
        ensures { vec_len self.now.symbols ≤ self.now.at → result ≡ self.now.end }
    {
        self.symbols
            .get(self.at)
            .map_or(self.end, |symbol| symbol.place)
    }

    pub fn end(&self) -> usize
        ensures { result ≡ self.now.end }
    {
        self.end
    }

    // Passes over the next symbol, if there is one.
    pub fn skip(&mut self)
        ensures at { self.new.at ≡ (if nat_lt self.old.at (vec_len self.old.symbols) then self.old.at + 1 else self.old.at) }
        ensures symbols { self.new.symbols ≡ self.old.symbols }
        ensures one { left self.new ≡ left self.old - 1 }
    {
        if self.at < self.symbols.len() {
            self.at += 1;
        }
    }

    // The next symbol as it stands, where a hole is not taken.
    pub fn byte(&self) -> Result<Option<u8>, Fault>
        ensures some { IfOk result (λ next. IsSome next → 0 < left self.now) }
        ensures none { IfOk result (λ next. IsNone next → left self.now ≡ 0) }
    {
        match self.raw() {
            Some(Sign::Byte(b)) => Ok(Some(b)),
            Some(Sign::Hole(_)) => Err(refused(Reason::HoleNotTaken, self.place())),
            None => Ok(None),
        }
    }

    // The same, and then the byte is passed over.
    pub fn take_byte(&mut self) -> Result<Option<u8>, Fault>
        ensures some { IfOk result (λ next. IsSome next → 0 < left self.old) }
        ensures one { OnOk result (left self.new ≡ left self.old - 1) }
    {
        let next = self.byte()?;
        self.skip();
        Ok(next)
    }

    // The next symbol once lines are joined: a backslash directly before a newline is dropped with it.
    pub fn peek(&mut self) -> Option<Sign>
        ensures on { left self.new ≤ left self.old }
        ensures some { IsSome result → 0 < left self.new }
    {
        while self.joins_line() {
            self.skip();
            self.skip();
        }
        self.raw()
    }

    fn joins_line(&self) -> bool
        ensures { IsTrue result → 0 < left self.now }
    {
        self.is_byte(self.at, b'\\') && self.is_byte(self.at.saturating_add(1), b'\n')
    }

    fn is_byte(&self, at: usize, b: u8) -> bool
        ensures { IsTrue result → at < vec_len self.now.symbols }
    {
        match self.symbols.get(at) {
            Some(symbol) => symbol.sign == Sign::Byte(b),
            None => false,
        }
    }

    // Whether the next symbol, once lines are joined, is the byte `b`.
    pub fn comes(&mut self, b: u8) -> bool
        ensures { left self.new ≤ left self.old }
    {
        self.peek() == Some(Sign::Byte(b))
    }

    // The same, and then the byte is passed over.
    pub fn takes(&mut self, b: u8) -> bool
        ensures { left self.new ≤ left self.old }
    {
        let there = self.comes(b);
        if there {
            self.skip();
        }
        there
    }
}
