// The template source: bytes and holes.
ghost use Rattle.std.specs.Prelude.{◌≡◌, ◌+◌, ◌≤◌, length, take, drop};
ghost use Rattle.source.specs.Symbols.{template, first_sign, width_first, hole_spoiled, first_bad_hole};

use crate::source::Source;
use crate::symbol::{Sign, Symbol};
use basics::slices::{behind, up_to};

// The most bytes that a template may have.
pub const TEMPLATE_LIMIT: usize = 1024;

// What stands first in the rest of a template, and the rest after it.
fn cut(text: &[u8]) -> (Option<Sign>, &[u8])
    ensures sign { result.0 ≡ first_sign text.now }
    ensures rest { result.1.now ≡ drop (width_first text.now) text.now }
{
    match text {
        [b'@', b'{', d @ b'0'..=b'9', b'}', rest @ ..] => (Some(Sign::Hole(*d - b'0')), rest),
        [b, rest @ ..] => (Some(Sign::Byte(*b)), rest),
        [] => (None, text),
    }
}

// Whether `@{` stands first, and begins no hole.
// Stays: three arms that read as the rule does; `matches!` would need another within it.
fn is_spoiled(text: &[u8]) -> bool
    ensures { result ≡ hole_spoiled text.now }
{
    match text {
        [b'@', b'{', b'0'..=b'9', b'}', ..] => false,
        [b'@', b'{', ..] => true,
        _ => false,
    }
}

// The place of the first `@{` that begins no hole.
pub fn first_bad_hole(template: &[u8]) -> Option<usize>
    ensures { result ≡ first_bad_hole template.now }
{
    (0..template.len()).find(|i| is_spoiled(behind(template, *i)))
}

#[derive(Drop)]
pub struct TemplateSource<'a> {
    rest: &'a [u8],
    at: usize,
    ghost short: { at + length rest.now ≤ 1024 },
}

impl<'a> TemplateSource<'a> {
    // The symbols of a template, from its start. Past the bytes that a template may have, nothing is read.
    pub fn new(text: &'a [u8]) -> Self
        ensures rest { result.rest.now ≡ take 1024 text.now }
        ensures at { result.at ≡ 0 }
    {
        TemplateSource {
            rest: up_to(text, TEMPLATE_LIMIT),
            at: 0,
        }
    }
}

impl Source for TemplateSource<'_> {
    ghost coming = { λ s. template s.rest.now s.at };

    ghost end = { λ s. s.at + length s.rest.now };

    fn look(&self) -> Option<Symbol> {
        let (sign, _) = cut(self.rest);
        let place = self.at as u16;
        sign.map(|sign| Symbol { sign, place })
    }

    fn take(&mut self) {
        let (_, rest) = cut(self.rest);
        self.at += self.rest.len() - rest.len();
        self.rest = rest;
    }

    fn end_place(&self) -> u16 {
        (self.at + self.rest.len()) as u16
    }
}
