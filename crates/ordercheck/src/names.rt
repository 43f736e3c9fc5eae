// Names and values of aliases to draw from, besides those that scripts are made with.

// Good names; with the names of the scripts' commands there are more than an order takes.
pub static GOOD_NAMES: [&str; 9] = [
    "d",
    "_x",
    "9",
    "a!",
    "A,b%",
    "@",
    "if",
    "abcdefghijklmnop",
    "Z",
];

// Names that are not good ones, but for the last.
pub static ODD_NAMES: [&str; 12] = [
    "",
    "abcdefghijklmnopq",
    "a b",
    "x=1",
    "ls\0",
    "-l",
    "a/b",
    "{",
    "b;",
    "ab\u{e9}",
    "not a name, and too long",
    "!",
];

// Values that are not good ones, but for the last three.
pub static ODD_VALUES: [&str; 18] = [
    "",
    " ",
    "\t \t",
    "a;b",
    " ls\n",
    "a $x",
    "'a'",
    "a \"b\"",
    "#a",
    "a\\",
    "`b`",
    "a (b)",
    "a >f <g",
    "a | b & c",
    "a\0",
    "\u{e9}t\u{e9}",
    "\r\x0b",
    "!",
];

// Behind a template: what begins as a hole does and is none.
pub static BAD_HOLES: [&str; 5] = [" @{x}", " @{10}", " @{1", "@{", " @{@{1}}"];
