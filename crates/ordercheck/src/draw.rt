// Draws calls, so that those that are accepted and those that are refused, for every reason, come often.
ghost use Rattle.std.specs.Prelude.{◌<◌, length};

use super::names::{BAD_HOLES, GOOD_NAMES, ODD_NAMES, ODD_VALUES};
use super::request::Request;
use random::Numbers;
use scripts::{EXAMPLES, Scripts};
use std::alloc::{AllocError, Global};

// An order has fewer calls than this.
const CALLS: usize = 60;

const LONGEST_TEMPLATE: usize = 1024;

const LONGEST_SCRIPT: usize = 4096;

#[derive(Drop)]
pub struct Draw {
    pub heap: Global,
    pub scripts: Scripts,
}

impl Draw {
    pub fn new(heap: Global, seed: u64) -> Draw {
        let scripts = Scripts::new(heap, seed);
        Draw { heap, scripts }
    }

    pub fn below(&mut self, n: usize) -> usize {
        self.scripts.random.below(n)
    }

    pub fn once_in(&mut self, n: usize) -> bool {
        self.scripts.random.once_in(n)
    }

    // How many calls are made next: one as often as more.
    pub fn few(&mut self) -> usize
        ensures { 0 < result }
    {
        if self.once_in(2) {
            1
        } else {
            2 + self.scripts.random.below(5)
        }
    }

    // The calls of an order. Some orders have mostly calls of alias, so that there are eight of them at times.
    pub fn requests(&mut self) -> Result<Vec<Request>, AllocError> {
        let mut all = Vec::new(self.heap);
        let kinds = if self.once_in(3) { 50 } else { 20 };
        for _ in 0..self.below(CALLS) {
            let request = self.request(kinds)?;
            all.push(request)?;
        }
        Ok(all)
    }

    // Stays: here and below a match on a drawn number, whose ranges are the weights; a table of closures would say no more.
    fn request(&mut self, kinds: usize) -> Result<Request, AllocError> {
        let request = match self.below(kinds) {
            0..3 => Request::Unalias { name: self.name()? },
            3..6 => Request::Load {
                template: self.template()?,
            },
            6..9 => Request::Unload,
            9..14 => Request::List {
                script: self.script()?,
            },
            _ => Request::Alias {
                name: self.name()?,
                value: self.value()?,
            },
        };
        Ok(request)
    }

    // Puts one of these texts behind what is there.
    fn put_one(&mut self, out: &mut Vec<u8>, texts: &[&str]) -> Result<(), AllocError>
        requires { 0 < length texts.now }
    {
        let text = self.scripts.random.pick(texts);
        out.extend_from_slice(text.as_bytes())
    }

    fn name(&mut self) -> Result<Vec<u8>, AllocError> {
        let mut name = Vec::new(self.heap);
        match self.below(12) {
            0 => self.put_one(&mut name, &ODD_NAMES)?,
            1..6 => self.put_one(&mut name, &GOOD_NAMES)?,
            _ => self.scripts.alias_name(&mut name)?,
        }
        if self.once_in(20) {
            self.change(&mut name);
        }
        Ok(name)
    }

    fn value(&mut self) -> Result<Vec<u8>, AllocError> {
        let mut value = Vec::new(self.heap);
        match self.below(10) {
            0 => self.put_one(&mut value, &ODD_VALUES)?,
            1 => value.resize(62 + self.scripts.random.below(5), b'a')?,
            _ => self.scripts.alias_value(&mut value)?,
        }
        if self.once_in(10) {
            self.change(&mut value);
        }
        Ok(value)
    }

    fn template(&mut self) -> Result<Vec<u8>, AllocError> {
        let mut template = Vec::new(self.heap);
        match self.below(12) {
            0 => self.scripts.edge(&mut template)?,
            1 => self.put_one(&mut template, &EXAMPLES)?,
            2 => self.put_many(&mut template)?,
            _ => self.scripts.template(&mut template)?,
        }
        match self.below(12) {
            0..3 => self.scripts.damage(&mut template)?,
            3 => self.lengthen(&mut template, LONGEST_TEMPLATE)?,
            4 => self.put_one(&mut template, &BAD_HOLES)?,
            5 => self.put_zero(&mut template),
            _ => {}
        }
        Ok(template)
    }

    fn script(&mut self) -> Result<Vec<u8>, AllocError> {
        let mut script = Vec::new(self.heap);
        match self.below(12) {
            0 => self.scripts.edge(&mut script)?,
            1 => self.put_one(&mut script, &EXAMPLES)?,
            2 => self.put_many(&mut script)?,
            3 => self.scripts.template(&mut script)?,
            _ => self.scripts.script(&mut script)?,
        }
        match self.below(12) {
            0..3 => self.scripts.damage(&mut script)?,
            3 => self.lengthen(&mut script, LONGEST_SCRIPT)?,
            4 => self.put_zero(&mut script),
            _ => {}
        }
        Ok(script)
    }

    // About as many commands of one name as may be replaced.
    fn put_many(&mut self, out: &mut Vec<u8>) -> Result<(), AllocError> {
        let mut name = Vec::new(self.heap);
        self.scripts.alias_name(&mut name)?;
        for _ in 0..60 + self.scripts.random.below(9) {
            out.extend_from_slice(name.as_slice())?;
            out.push(b';')?;
        }
        Ok(())
    }

    // Any byte in the place of another.
    fn change(&mut self, out: &mut Vec<u8>) {
        let at = self.below(out.len());
        let b = self.scripts.random.below(256) as u8;
        set(out, at, b);
    }

    fn put_zero(&mut self, out: &mut Vec<u8>) {
        let at = self.below(out.len());
        set(out, at, 0);
    }

    // Blanks behind a text, until it is about as long as it may be.
    fn lengthen(&mut self, out: &mut Vec<u8>, longest: usize) -> Result<(), AllocError> {
        let long = longest.saturating_add(self.below(3)).saturating_sub(1);
        if out.len() < long {
            out.resize(long, b' ')?;
        }
        Ok(())
    }
}

fn set(out: &mut Vec<u8>, at: usize, b: u8) {
    if let Some(old) = out.get_mut(at) {
        *old = b;
    }
}
