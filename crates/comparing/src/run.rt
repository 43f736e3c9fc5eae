// One text at a time: what the second reader makes of it, and after it the reader beside it.
ghost use Rattle.std.specs.Prelude.{◌≡◌, vec_len};

use super::alias_tables::{entwined, some};
use super::beside::{Beside, Text};
use super::families::Family;
use super::fill::{put_backslash, put_single, reads_alike, script_of};
use super::refusals::{REASONS, Refusals};
use super::room::{Room, below, room_of, sum};
use super::tally::Tally;
use basics::refusal::Refusal;
use descent::{read_script, read_template};
use descent_lexer::item::{Alias, Reading};
use listing::record::Counts;
use random::Numbers;
use scripts::Scripts;
use std::alloc::{AllocError, Global};
use std::io;

// What a script may have at most.
const LONGEST_SCRIPT: usize = 4096;

const TEXTS: usize = 10;

#[derive(Drop)]
pub struct Run<B> {
    pub(crate) heap: Global,
    pub(crate) scripts: Scripts,
    // the aliases that texts are read under
    aliases: Vec<Alias>,
    pub beside: B,
    // of the family that is read now
    pub(crate) tally: Tally,
    // of all that is read
    refusals: Refusals,
    // templates that were filled and read again, and those that did not read as their template does
    filled: u64,
    unlike: u64,
}

impl<B: Beside> Run<B> {
    pub fn new(heap: Global, seed: u64, beside: B) -> Self
        ensures { (result.beside ≡ beside) × (vec_len result.aliases ≡ 0) × (result.filled ≡ 0) × (result.unlike ≡ 0) }
    {
        Run {
            heap,
            scripts: Scripts::new(heap, seed),
            aliases: Vec::new(heap),
            beside,
            tally: Tally::new(),
            refusals: Refusals::new(),
            filled: 0,
            unlike: 0,
        }
    }

    // Reads the families, and prints what was read of each, why readings were refused, and how filled templates read.
    pub fn read(&mut self, rt: &HostRuntime, families: &[Family]) -> io::Result<()> {
        for family in families {
            let tally = self.read_family(*family)?;
            println!(rt; "{family}: {tally}")?;
        }
        for &reason in &REASONS {
            let times = self.refusals.times(reason);
            if times > 0 {
                println!(rt; "refused {} {}: {times}", u8::from(reason), reason.words())?;
            }
        }
        println!(rt;
            "{} filled templates, {} read unlike their templates",
            self.filled, self.unlike
        )
    }

    // From here on texts are read under no aliases, under the fixed ones, or under others.
    pub(crate) fn without_aliases(&mut self) {
        self.take_aliases(Vec::new(self.heap));
    }

    pub(crate) fn under_entwined(&mut self) -> Result<(), AllocError> {
        let aliases = entwined(self.heap)?;
        self.take_aliases(aliases);
        Ok(())
    }

    pub(crate) fn under_others(&mut self) -> Result<(), AllocError> {
        let aliases = some(self.heap, &mut self.scripts)?;
        self.take_aliases(aliases);
        Ok(())
    }

    fn take_aliases(&mut self, aliases: Vec<Alias>) {
        self.beside.take_aliases(aliases.as_slice());
        self.aliases = aliases;
    }

    // As a script and as a template.
    pub(crate) fn try_text(&mut self, text: &[u8]) -> Result<(), AllocError> {
        self.try_script(text)?;
        self.try_template(text)
    }

    // Lists a script on a sheet with just enough room, on one that may be too small and, at times, on a bad one.
    fn try_script(&mut self, script: &[u8]) -> Result<(), AllocError> {
        let reading = read_script(self.heap, script, self.aliases.as_slice())?;
        let room = room_of(&reading);
        self.list(script, &reading, Room::Free(room))?;
        let more = Counts {
            records: 2,
            letters: 2,
        };
        let tight = below(&mut self.scripts.random, sum(room, more));
        self.list(script, &reading, Room::Free(tight))?;
        if self.beside.takes_all() && self.scripts.random.once_in(16) {
            self.list(script, &reading, Room::Bad)?;
        }
        Ok(())
    }

    // Lists a script on sheets of every size that may matter.
    pub(crate) fn try_rooms(&mut self, script: &[u8]) -> Result<(), AllocError> {
        let reading = read_script(self.heap, script, self.aliases.as_slice())?;
        for records in 0..=reading.items.len() {
            for letters in 0..=reading.letters() {
                self.list(script, &reading, Room::Free(Counts { records, letters }))?;
            }
        }
        if self.beside.takes_all() {
            self.list(script, &reading, Room::Bad)?;
        }
        Ok(())
    }

    // One list of a script, which is counted as it came out.
    fn list(&mut self, script: &[u8], reading: &Reading, room: Room) -> Result<(), AllocError> {
        let text = Text {
            bytes: script,
            aliases: self.aliases.as_slice(),
            reading,
        };
        let refusal = self.beside.list(&text, room, &mut self.scripts.random)?;
        self.count(reading, refusal);
        Ok(())
    }

    fn count(&mut self, reading: &Reading, refusal: Option<Refusal>) {
        self.tally.add(reading, refusal);
        if let Some(refusal) = refusal {
            self.refusals.add(refusal.reason);
        }
    }

    // Reads one template, and where it reads, fills it in two ways and reads the scripts.
    pub(crate) fn try_template(&mut self, template: &[u8]) -> Result<(), AllocError> {
        let reading = read_template(self.heap, template, self.aliases.as_slice())?;
        self.count(&reading, reading.refusal);
        self.beside.check(&Text {
            bytes: template,
            aliases: self.aliases.as_slice(),
            reading: &reading,
        })?;
        if reading.refusal.is_none() && reading.holes() != 0 {
            self.try_filled(template, &reading, put_single)?;
            self.try_filled(template, &reading, put_backslash)?;
        }
        Ok(())
    }

    fn try_filled<F: Fn(&mut Vec<u8>, &[u8]) -> Result<(), AllocError>>(
        &mut self,
        template: &[u8],
        reading: &Reading,
        put_form: F,
    ) -> Result<(), AllocError>
        requires { F.IsAlwaysCallable put_form }
    {
        let texts = self.some_texts()?;
        let script = script_of(self.heap, template, texts.as_slice(), put_form)?;
        if script.len() > LONGEST_SCRIPT {
            return Ok(());
        }
        let shown = read_script(self.heap, script.as_slice(), self.aliases.as_slice())?;
        if self.beside.takes_all() {
            self.list(script.as_slice(), &shown, Room::Free(room_of(&shown)))?;
        }
        self.filled = self.filled.saturating_add(1);
        if !reads_alike(self.heap, reading, texts.as_slice(), &shown)? {
            self.unlike = self.unlike.saturating_add(1);
        }
        Ok(())
    }

    fn some_texts(&mut self) -> Result<Vec<Vec<u8>>, AllocError> {
        let mut all = Vec::new(self.heap);
        for _ in 0..TEXTS {
            let mut text = Vec::new(self.heap);
            self.scripts.text(&mut text)?;
            all.push(text)?;
        }
        Ok(all)
    }
}
