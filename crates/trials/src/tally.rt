// What was tried, and how it came out.
use basics::slices::up_to;
use quoting::quoter::LawfulQuoter;
use quoting::trip::round_trip;
use quoting::unquote::unquote;
use random::Numbers;
use std::fmt;

// The longest form that is tried: of 512 bytes of text.
const LONGEST: usize = 2050;

// How a form reads once a byte of it is another.
#[derive(Clone, Copy, Debug, PartialEq, Eq)]
enum Damaged {
    Unlawful,
    OtherText,
    // the byte was that one already
    Same,
    // it still reads as its text
    Wrong,
}

// A byte other than 0. Half of them are bytes that quoting has to do with.
pub fn text_byte(random: &mut impl Numbers) -> u8 {
    let x = random.next();
    match (x >> 20) % 8 {
        0 => b'\'',
        1 => b'\\',
        2 => b'\n',
        3 => b'"',
        _ => ((x >> 30) % 255) as u8 + 1,
    }
}

fn comes_back<Q: LawfulQuoter>(quoter: &Q, text: &[u8]) -> bool {
    let mut page = [0u8; LONGEST];
    let mut back = [0u8; LONGEST];
    match round_trip(quoter, text, &mut page, &mut back) {
        Ok(n) => n == text.len() && up_to(&back, n) == text,
        Err(_) => false,
    }
}

// There is nothing to damage at a place behind the form.
fn damage<Q: LawfulQuoter>(quoter: &Q, text: &[u8], place: usize, byte: u8) -> Option<Damaged> {
    let mut page = [0u8; LONGEST];
    let mut back = [0u8; LONGEST];
    let length = quoter.write(text, &mut page).ok()?;
    let form = page.get_mut(..length)?;
    let damaged = form.get_mut(place)?;
    if *damaged == byte {
        return Some(Damaged::Same);
    }
    *damaged = byte;
    Some(match unquote(form, &mut back) {
        Err(_) => Damaged::Unlawful,
        Ok(n) if up_to(&back, n) != text => Damaged::OtherText,
        Ok(_) => Damaged::Wrong,
    })
}

#[derive(Drop)]
pub struct Tally {
    name: &'static str,
    texts: u64,
    differ: u64,
    damages: u64,
    unlawful: u64,
    other: u64,
    same: u64,
    wrong: u64,
}

impl Tally {
    pub fn new(name: &'static str) -> Self {
        Tally {
            name,
            texts: 0,
            differ: 0,
            damages: 0,
            unlawful: 0,
            other: 0,
            same: 0,
            wrong: 0,
        }
    }

    // A text there and back.
    pub fn try_text<Q: LawfulQuoter>(&mut self, quoter: &Q, text: &[u8]) {
        self.texts = self.texts.saturating_add(1);
        if !comes_back(quoter, text) {
            self.differ = self.differ.saturating_add(1);
        }
    }

    // The form of the text with another byte at a place.
    fn try_damage_at<Q: LawfulQuoter>(&mut self, quoter: &Q, text: &[u8], place: usize, byte: u8) {
        let Some(damaged) = damage(quoter, text, place, byte) else {
            return;
        };
        self.damages = self.damages.saturating_add(1);
        let count = match damaged {
            Damaged::Unlawful => &mut self.unlawful,
            Damaged::OtherText => &mut self.other,
            Damaged::Same => &mut self.same,
            Damaged::Wrong => &mut self.wrong,
        };
        *count = count.saturating_add(1);
    }

    // One byte of the form is any other, anywhere.
    pub fn try_every_damage<Q: LawfulQuoter>(&mut self, quoter: &Q, text: &[u8]) {
        for place in 0..quoter.measure(text) {
            for byte in 0..=255u8 {
                self.try_damage_at(quoter, text, place, byte);
            }
        }
    }

    pub fn try_damage<Q: LawfulQuoter>(
        &mut self,
        quoter: &Q,
        text: &[u8],
        random: &mut impl Numbers,
    ) {
        let place = random.below(quoter.measure(text));
        let byte = text_byte(random);
        self.try_damage_at(quoter, text, place, byte);
    }
}

impl fmt::Display for Tally {
    fn fmt<W: fmt::Write>(&self, f: &mut fmt::Formatter<W>) -> fmt::Result {
        let name = self.name;
        write!(
            f,
            "{name}: {} texts there and back, {} differ\n",
            self.texts, self.differ
        )?;
        write!(
            f,
            "{name}: {} damaged forms, {} unlawful, ",
            self.damages, self.unlawful
        )?;
        write!(
            f,
            "{} of another text, {} as before, {} wrong",
            self.other, self.same, self.wrong
        )
    }
}
