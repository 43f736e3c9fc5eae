// The second book of an order, written from the rules: maps of aliases and texts, and the template. It makes every
// check itself, and has the second reader read what is loaded and listed.
use super::request::Request;
use super::spelling::check_alias;
use basics::refusal::Reason;
use comparing::slots::Slots;
use descent::{read_script, read_template};
use descent_lexer::fault::{Fault, refused};
use descent_lexer::item::{Alias, Reading};
use orders::outcome::{Done, Outcome};
use std::alloc::{AllocError, Global};
use std::collections::BTreeMap;
use std::fmt;

// There are at most so many aliases.
const MOST_ALIASES: usize = 8;

#[derive(Drop)]
pub struct Book {
    heap: Global,
    aliases: BTreeMap<Vec<u8>, Vec<u8>>,
    template: Option<Vec<u8>>,
    // by the digit of their hole
    texts: BTreeMap<u8, Vec<u8>>,
}

impl Book {
    // Of an order that was just made.
    pub fn new(heap: Global) -> Book {
        Book {
            heap,
            aliases: BTreeMap::new(heap),
            template: None,
            texts: BTreeMap::new(heap),
        }
    }

    // Makes a call, with a list going to these slots, and tells what it is to say, unless there was no memory for it.
    pub fn answer(&mut self, request: &Request, slots: &mut Slots) -> Result<Outcome, AllocError> {
        match self.make(request, slots) {
            Ok(done) => Ok(Ok(done)),
            Err(fault) => Ok(Err(fault.refusal()?)),
        }
    }

    fn make(&mut self, request: &Request, slots: &mut Slots) -> Result<Done, Fault> {
        match request {
            Request::Alias { name, value } => self.alias(name.as_slice(), value.as_slice())?,
            Request::Unalias { name } => self.unalias(name.as_slice())?,
            Request::Load { template } => self.load(template.as_slice())?,
            Request::Unload => self.unload()?,
            Request::List { script } => {
                let added = self.list(script.as_slice(), slots)?;
                return Ok(Done::Listed(added));
            }
        }
        Ok(Done::Accepted)
    }

    fn none_loaded(&self) -> Result<(), Fault> {
        match self.template {
            Some(_) => Err(refused(Reason::TemplateLoaded, 0)),
            None => Ok(()),
        }
    }

    fn alias(&mut self, name: &[u8], value: &[u8]) -> Result<(), Fault> {
        self.none_loaded()?;
        check_alias(name, value)?;
        if !self.aliases.contains_key(name) && self.aliases.len() >= MOST_ALIASES {
            return Err(refused(Reason::TooManyAliases, 0));
        }
        let name = Vec::from_slice(self.heap, name)?;
        let value = Vec::from_slice(self.heap, value)?;
        self.aliases.insert(name, value)?;
        Ok(())
    }

    fn unalias(&mut self, name: &[u8]) -> Result<(), Fault> {
        self.none_loaded()?;
        match self.aliases.remove(name) {
            Some(_) => Ok(()),
            None => Err(refused(Reason::NoSuchAlias, 0)),
        }
    }

    fn load(&mut self, template: &[u8]) -> Result<(), Fault> {
        self.none_loaded()?;
        let aliases = self.alias_list()?;
        let reading = read_template(self.heap, template, aliases.as_slice())?;
        if let Some(refusal) = reading.refusal {
            return Err(Fault::Refused(refusal));
        }
        let template = Vec::from_slice(self.heap, template)?;
        self.template = Some(template);
        Ok(())
    }

    fn unload(&mut self) -> Result<(), Fault> {
        if self.template.is_none() {
            return Err(refused(Reason::NoTemplate, 0));
        }
        self.template = None;
        self.texts.clear();
        Ok(())
    }

    fn list(&self, script: &[u8], slots: &mut Slots) -> Result<usize, Fault> {
        let reading = self.reading(script)?;
        slots.receive(&reading)?.map_err(Fault::Refused)
    }

    // A script as it reads under the aliases.
    pub fn reading(&self, script: &[u8]) -> Result<Reading, AllocError> {
        let aliases = self.alias_list()?;
        read_script(self.heap, script, aliases.as_slice())
    }

    // The aliases as the second reader takes them.
    fn alias_list(&self) -> Result<Vec<Alias>, AllocError> {
        let mut all = Vec::new(self.heap);
        for (name, value) in self.aliases.iter() {
            let name = Vec::from_slice(self.heap, name.as_slice())?;
            let value = Vec::from_slice(self.heap, value.as_slice())?;
            all.push(Alias { name, value })?;
        }
        Ok(all)
    }
}

impl fmt::Display for Book {
    fn fmt<W: fmt::Write>(&self, f: &mut fmt::Formatter<W>) -> fmt::Result {
        for (name, value) in self.aliases.iter() {
            let name = name.as_slice().escape_ascii();
            let value = value.as_slice().escape_ascii();
            write!(f, "alias {name}=\"{value}\", ")?;
        }
        match &self.template {
            Some(template) => write!(f, "template \"{}\"", template.as_slice().escape_ascii()),
            None => write!(f, "no template"),
        }
    }
}
