// Pseudo-random scripts and templates, from a small grammar: lists, pipes, groups, words, quotes, substitutions,
// redirections and here-documents.
ghost use Rattle.std.specs.Prelude.{◌≡◌, ◌<◌, false, length, vec_len};

use super::words::{
    ASSIGNMENTS, BLANKS, BODY_LINES, COMMAND_NAMES, CONNECTORS, DELIMITERS, ESCAPES, EXPANSIONS,
    PLAINS, QUOTED, REDIRECTIONS, RESERVED, put,
};
use random::{Numbers, Random};
use std::alloc::{AllocError, Global};

// Substitutions and groups nest at most so deep.
const DEEPEST: usize = 3;

#[derive(Drop)]
pub struct Scripts {
    pub heap: Global,
    pub random: Random,
    // whether words may have holes
    holes: bool,
    // here-documents whose bodies are to come: the line that ends each
    pending: Vec<&'static str>,
}

impl Scripts {
    pub fn new(heap: Global, seed: u64) -> Scripts
        ensures { (result.holes ≡ false) × (vec_len result.pending ≡ 0) }
    {
        Scripts {
            heap,
            random: Random::new(seed),
            holes: false,
            pending: Vec::new(heap),
        }
    }

    // Puts a script in `out`.
    pub fn script(&mut self, out: &mut Vec<u8>) -> Result<(), AllocError> {
        self.holes = false;
        self.whole(out, DEEPEST)
    }

    // Puts a template in `out`.
    pub fn template(&mut self, out: &mut Vec<u8>) -> Result<(), AllocError> {
        self.holes = true;
        self.whole(out, 2)
    }

    fn whole(&mut self, out: &mut Vec<u8>, left: usize) -> Result<(), AllocError> {
        out.clear();
        self.pending.clear();
        self.commands(out, left)
    }

    // Puts one of these texts in `out`.
    pub(crate) fn put_one(&mut self, out: &mut Vec<u8>, texts: &[&str]) -> Result<(), AllocError>
        requires { 0 < length texts.now }
    {
        put(out, self.random.pick(texts))
    }

    // Commands and what parts them, and then the bodies that are still to come.
    #[cycle(command_commands_double_quotes_head_piece_redirection_substitution_word)]
    fn commands(&mut self, out: &mut Vec<u8>, left: usize) -> Result<(), AllocError> {
        let outer = std::mem::replace(&mut self.pending, Vec::new(self.heap));
        for _ in 0..self.random.below(3) {
            self.command(out, left)?;
            self.part(out)?;
        }
        self.command(out, left)?;
        if !self.pending.is_empty() || self.random.once_in(6) {
            self.newline(out)?;
        }
        self.pending = outer;
        Ok(())
    }

    fn part(&mut self, out: &mut Vec<u8>) -> Result<(), AllocError> {
        if self.random.once_in(3) {
            return self.newline(out);
        }
        self.put_one(out, &CONNECTORS)?;
        if self.random.once_in(6) {
            self.newline(out)?;
        }
        Ok(())
    }

    // A newline, with a comment before it at times, and the bodies that are due.
    fn newline(&mut self, out: &mut Vec<u8>) -> Result<(), AllocError> {
        if self.random.once_in(5) {
            put(out, " #it's $(")?;
        }
        put(out, "\n")?;
        let due = std::mem::replace(&mut self.pending, Vec::new(self.heap));
        for line in due {
            for _ in 0..self.random.below(3) {
                self.put_one(out, &BODY_LINES)?;
                put(out, "\n")?;
            }
            put(out, line)?;
            put(out, "\n")?;
        }
        Ok(())
    }

    fn blank(&mut self, out: &mut Vec<u8>) -> Result<(), AllocError> {
        self.put_one(out, &BLANKS)
    }

    #[cycle(command_commands_double_quotes_head_piece_redirection_substitution_word)]
    fn command(&mut self, out: &mut Vec<u8>, left: usize) -> Result<(), AllocError> {
        if left > 0 && self.random.once_in(8) {
            put(out, "(")?;
            self.commands(out, left - 1)?;
            put(out, ")")?;
        } else {
            self.head(out, left)?;
            self.command_name(out)?;
            for _ in 0..self.random.below(4) {
                self.blank(out)?;
                self.word(out, left)?;
            }
        }
        for _ in 0..self.random.below(2) {
            self.redirection(out, left)?;
        }
        Ok(())
    }

    // A name, or once in a while a reserved word.
    fn command_name(&mut self, out: &mut Vec<u8>) -> Result<(), AllocError> {
        if self.random.once_in(40) {
            return self.put_one(out, &RESERVED);
        }
        self.put_one(out, &COMMAND_NAMES)
    }

    // Assignments and redirections before a name.
    #[cycle(command_commands_double_quotes_head_piece_redirection_substitution_word)]
    fn head(&mut self, out: &mut Vec<u8>, left: usize) -> Result<(), AllocError> {
        if self.random.once_in(4) {
            self.put_one(out, &ASSIGNMENTS)?;
            self.word(out, left)?;
            self.blank(out)?;
        }
        if self.random.once_in(8) {
            self.redirection(out, left)?;
            self.blank(out)?;
        }
        Ok(())
    }

    #[cycle(command_commands_double_quotes_head_piece_redirection_substitution_word)]
    fn redirection(&mut self, out: &mut Vec<u8>, left: usize) -> Result<(), AllocError> {
        if self.random.once_in(2) {
            self.blank(out)?;
        }
        if self.random.once_in(3) {
            put(out, "2")?;
        }
        if self.random.once_in(3) {
            return self.here_document(out);
        }
        self.put_one(out, &REDIRECTIONS)?;
        if self.random.once_in(3) {
            self.blank(out)?;
        }
        self.word(out, left)
    }

    fn here_document(&mut self, out: &mut Vec<u8>) -> Result<(), AllocError> {
        put(out, "<<")?;
        if self.random.once_in(2) {
            put(out, "-")?;
        }
        if self.random.once_in(3) {
            self.blank(out)?;
        }
        let delimiter = self.random.pick(&DELIMITERS);
        self.pending.push(delimiter.line)?;
        put(out, delimiter.written)
    }

    #[cycle(command_commands_double_quotes_head_piece_redirection_substitution_word)]
    fn word(&mut self, out: &mut Vec<u8>, left: usize) -> Result<(), AllocError> {
        self.piece(out, left)?;
        for _ in 0..self.random.below(3) {
            self.piece(out, left)?;
        }
        Ok(())
    }

    #[cycle(command_commands_double_quotes_head_piece_redirection_substitution_word)]
    fn piece(&mut self, out: &mut Vec<u8>, left: usize) -> Result<(), AllocError> {
        if self.holes && self.random.once_in(4) {
            return self.hole(out);
        }
        // Stays: a match on the number that was drawn, since the arms show how often each is taken, and call with different
        // arguments; so do the other choices that are drawn.
        match self.random.below(12) {
            0 => self.single_quotes(out),
            1 | 2 => self.double_quotes(out, left),
            3 => put(out, "\\;"),
            4 => put(out, "\\\nx"),
            5 | 6 => self.expansion(out),
            7 => self.substitution(out, left),
            _ => self.put_one(out, &PLAINS),
        }
    }

    fn hole(&mut self, out: &mut Vec<u8>) -> Result<(), AllocError> {
        put(out, "@{")?;
        let digit = self.random.below(10);
        out.push(b'0' + digit as u8)?;
        put(out, "}")
    }

    fn expansion(&mut self, out: &mut Vec<u8>) -> Result<(), AllocError> {
        self.put_one(out, &EXPANSIONS)
    }

    #[cycle(command_commands_double_quotes_head_piece_redirection_substitution_word)]
    fn substitution(&mut self, out: &mut Vec<u8>, left: usize) -> Result<(), AllocError> {
        if left == 0 {
            return put(out, "$()");
        }
        put(out, "$(")?;
        self.commands(out, left - 1)?;
        put(out, ")")
    }

    fn single_quotes(&mut self, out: &mut Vec<u8>) -> Result<(), AllocError> {
        put(out, "'")?;
        for _ in 0..self.random.below(3) {
            self.put_one(out, &QUOTED)?;
        }
        put(out, "'")
    }

    #[cycle(command_commands_double_quotes_head_piece_redirection_substitution_word)]
    fn double_quotes(&mut self, out: &mut Vec<u8>, left: usize) -> Result<(), AllocError> {
        put(out, "\"")?;
        for _ in 0..self.random.below(4) {
            match self.random.below(6) {
                0 => self.substitution(out, left)?,
                1 => self.expansion(out)?,
                2 => self.put_one(out, &ESCAPES)?,
                _ => self.put_one(out, &QUOTED)?,
            }
        }
        put(out, "\"")
    }
}
