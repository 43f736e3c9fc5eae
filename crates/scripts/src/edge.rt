// Scripts at the edges of what is taken: frames, pending here-documents, long delimiters and many replacements.
use super::grammar::Scripts;
use super::words::put;
use random::Numbers;
use std::alloc::AllocError;

fn repeat(out: &mut Vec<u8>, text: &str, times: usize) -> Result<(), AllocError> {
    for _ in 0..times {
        put(out, text)?;
    }
    Ok(())
}

// What stands in the innermost of many frames.
static INMOST: [&str; 12] = [
    "a",
    "a 'b'",
    "a \"b\"",
    "a $(b)",
    "(a)",
    "a <<E\nE\n",
    "a $((",
    "a <<$(b)",
    "a ${x}`",
    "a @{0}",
    "@{1}",
    "a;",
];

// A way to open frames and to close them again.
#[derive(Clone, Copy)]
struct Way {
    opener: &'static str,
    closer: &'static str,
    // how often it opens at the least, which comes near to the most frames
    least: usize,
}

static WAYS: [Way; 5] = [
    Way {
        opener: "(",
        closer: ")",
        least: 29,
    },
    Way {
        opener: "$(",
        closer: ")",
        least: 29,
    },
    Way {
        opener: "\"$(",
        closer: ")\"",
        least: 14,
    },
    Way {
        opener: "a \"$(",
        closer: ")\"",
        least: 14,
    },
    Way {
        opener: "x=$(",
        closer: ") b",
        least: 29,
    },
];

impl Scripts {
    // Puts a script at one of the edges in `out`.
    pub fn edge(&mut self, out: &mut Vec<u8>) -> Result<(), AllocError> {
        out.clear();
        // Stays: a match on the number that was drawn, as in the grammar.
        match self.random.below(12) {
            0 => self.many_pending(out),
            1 => self.long_delimiter(out),
            2 => self.many_replaced(out),
            3 => self.long(out),
            4 => self.zero(out),
            _ => self.deep(out),
        }
    }

    fn deep(&mut self, out: &mut Vec<u8>) -> Result<(), AllocError> {
        let way = self.random.pick(&WAYS);
        let times = way.least + self.random.below(5);
        repeat(out, way.opener, times)?;
        self.put_one(out, &INMOST)?;
        let closed = times - self.random.below(2);
        repeat(out, way.closer, closed)
    }

    fn many_pending(&mut self, out: &mut Vec<u8>) -> Result<(), AllocError> {
        let outside = self.random.below(10);
        let inside = self.random.below(4);
        put(out, "a")?;
        repeat(out, "<<E", outside)?;
        put(out, " $(b")?;
        repeat(out, " <<E", inside)?;
        put(out, "\n")?;
        repeat(out, "E\n", inside)?;
        put(out, ")\n")?;
        repeat(out, "x\nE\n", outside)
    }

    fn long_delimiter(&mut self, out: &mut Vec<u8>) -> Result<(), AllocError> {
        let long = 30 + self.random.below(5);
        put(out, "a <<")?;
        repeat(out, "d", long)?;
        put(out, "\nx\n")?;
        repeat(out, "d", long)
    }

    // About as long as a template or a script may be.
    fn long(&mut self, out: &mut Vec<u8>) -> Result<(), AllocError> {
        let most = if self.random.once_in(2) { 1022 } else { 4094 };
        let times = most + self.random.below(5);
        let bytes = if self.random.once_in(2) { "a" } else { "'" };
        repeat(out, bytes, times)
    }

    fn zero(&mut self, out: &mut Vec<u8>) -> Result<(), AllocError> {
        let times = self.random.below(9);
        repeat(out, "a ", times)?;
        put(out, "\0'\0")
    }

    fn many_replaced(&mut self, out: &mut Vec<u8>) -> Result<(), AllocError> {
        let times = 20 + self.random.below(50);
        repeat(out, "ls;", times)?;
        put(out, "a")
    }
}
