// The pieces that scripts are made of.
ghost use Rattle.std.specs.Prelude.{◌≡◌, ◌+◌, length, vec_len, OnOk};

use std::alloc::AllocError;

pub fn put(out: &mut Vec<u8>, text: &str) -> Result<(), AllocError>
    ensures { OnOk result (vec_len out.new ≡ vec_len out.old + length text.now) }
{
    out.extend_from_slice(text.as_bytes())
}

// Command names, which may be the names of aliases too.
pub static COMMAND_NAMES: [&str; 9] = ["a", "b", "ls", "e", "i", "2", "cat", "ab", "c"];

// Words that no command may begin with.
pub static RESERVED: [&str; 15] = [
    "!", "{", "}", "if", "then", "elif", "else", "fi", "while", "until", "do", "done", "for",
    "case", "esac",
];

// Words of an alias's value.
pub static ALIAS_WORDS: [&str; 14] = [
    "a", "b", "ls", "-l", "x=1", "e", "2", "@{0}", "c", "_y=", "ab", "cat", "i", "if",
];

pub static PLAINS: [&str; 12] = [
    "x", "-l", "12", "a=b", "f.txt", "a#b", "{", "done", "@", "%", "_y", "ls",
];

pub static ASSIGNMENTS: [&str; 6] = ["x=", "y=1", "_z9=", "9x=", "x\\\n=2", "x''=3"];

pub static REDIRECTIONS: [&str; 9] = ["<", ">", ">>", "<&", ">&", "<>", ">|", ">\\\n>", "<\\\n"];

// A delimiter as it is written, and the line that ends its body.
#[derive(Clone, Copy)]
pub struct Delimiter {
    pub written: &'static str,
    pub line: &'static str,
}

pub static DELIMITERS: [Delimiter; 8] = [
    Delimiter {
        written: "E",
        line: "E",
    },
    Delimiter {
        written: "'E'",
        line: "E",
    },
    Delimiter {
        written: "\\E",
        line: "E",
    },
    Delimiter {
        written: "E\"F\"",
        line: "EF",
    },
    Delimiter {
        written: "E\\\nF",
        line: "EF",
    },
    Delimiter {
        written: "''",
        line: "",
    },
    Delimiter {
        written: "-x",
        line: "-x",
    },
    Delimiter {
        written: "$",
        line: "$",
    },
];

pub static BODY_LINES: [&str; 8] = ["text", "\tE", "$x `y` \\", "E ", "'", "\t", "E\tF", ")"];

pub static EXPANSIONS: [&str; 14] = [
    "$x",
    "$x1_",
    "$1",
    "$@",
    "$#",
    "$$",
    "$-",
    "${x}",
    "${_y2}",
    "$\\\nx",
    "${\\\nx\\\n}",
    "$",
    "$%",
    "$!",
];

// A single space more often than the others.
pub static BLANKS: [&str; 9] = ["\t", "  ", " \\\n", "\\\n ", " ", " ", " ", " ", " "];

pub static CONNECTORS: [&str; 7] = ["|", "&&", "||", "&\\\n&", "&", ";", " ; "];

// What stands between quotes of either kind.
pub static QUOTED: [&str; 8] = ["b c", "#", "\n", "\t|", "(;)", "\\x", "", "="];

// A backslash in double quotes and what follows it.
pub static ESCAPES: [&str; 7] = ["\\$", "\\`", "\\\"", "\\\\", "\\a", "\\'", "\\\n"];
