// What the program is asked to do.
use aliases::table::AliasTable;
use anyhow::{anyhow, bail, ensure};
use basics::refusal::Reason;
use journal::style::Style;
use std::env;

// What the program is, the commands that quote, and what holds of these: the help in its parts. With all of it come the
// commands that read scripts, templates and journals.
pub const ABOUT: &str =
    "jamisthmus quotes texts for a shell, so that no text is read as anything but one word.

";

pub const ABOUT_ALL: &str =
    "jamisthmus quotes texts for a shell, so that no text is read as anything but one word, and lists what a shell reads.

";

pub const QUOTING: &str = "  jamisthmus quote [single|backslash] [--explain]
      the form of standard input, in single quotes unless backslash is asked for
      printf '%s' \"it's\" | jamisthmus quote           gives 'it'\\''s'
  jamisthmus unquote [--explain]
      the text of a form, or the place of its first unlawful byte
      printf '%s' \"'a b'\" | jamisthmus unquote        gives a b
";

pub const REST: &str = "  jamisthmus help
      this text

Input is taken to the last byte, and nothing is added to the output, so that unquote gives back what quote took.
--explain says in words, on standard error, what was done. A text with byte 0 and an unlawful form are refused:
nothing is written then, and the status is 1.
";

pub const REST_ALL: &str = "  jamisthmus list [--alias NAME=VALUE]... [--json] [FILE]
      the items of a script: words and operators, one a line, or one JSON object a line
      echo 'cat <in >out' | jamisthmus list
  jamisthmus check [--alias NAME=VALUE]... [--json] [FILE]
      whether a template reads without fault, and which holes it has
      echo 'cp @{0} @{1}' | jamisthmus check          gives accepted: holes 0 and 1
  jamisthmus replay [FILE]
      a journal of calls, one a line: an answer to each
      printf 'order single\\nlist 9 99 a%%20b\\n' | jamisthmus replay
  jamisthmus help all
      this text

Without FILE, standard input is read. Letters are shown in runs: b: bare, q: quoted, e: of an expansion, h: of a
here-document; a byte outside ! to ~, and %, is shown as % and two digits. list and check show what is refused and
where; that is an answer, with status 0.
For quote and unquote, input is taken to the last byte and nothing is added to the output, so that unquote gives back
what quote took. --explain says in words, on standard error, what was done. A text with byte 0 and an unlawful form
are refused: nothing is written then, and the status is 1.
";

// The text to read, and the aliases that it is read under.
#[derive(Drop)]
pub struct Text {
    pub aliases: AliasTable,
    pub file: Option<String>,
    pub json: bool,
}

#[derive(Drop)]
pub enum Command {
    Help,
    HelpAll,
    Quote { style: Style, explain: bool },
    Unquote { explain: bool },
    List(Text),
    Check(Text),
    Replay(Option<String>),
}

// The words after the command: at most one style, and --explain.
fn parse_quote(words: env::Args) -> anyhow::Result<Command> {
    let mut style = Style::Single;
    let mut explain = false;
    for word in words {
        match word.as_str() {
            "--explain" => explain = true,
            name => style = style_of(name)?,
        }
    }
    Ok(Command::Quote { style, explain })
}

fn style_of(name: &str) -> anyhow::Result<Style> {
    name.parse().map_err(|_| {
        anyhow!("quote takes single or backslash, and --explain; the text comes on standard input")
    })
}

fn parse_unquote(words: env::Args) -> anyhow::Result<Command> {
    let mut explain = false;
    for word in words {
        ensure!(
            word.as_str() == "--explain",
            "unquote takes only --explain; the form comes on standard input"
        );
        explain = true;
    }
    Ok(Command::Unquote { explain })
}

// What an alias may be, for one that was refused.
fn alias_rule(reason: Reason) -> &'static str {
    match reason {
        Reason::TooLong => "a name has at most 16 bytes, a value 64",
        Reason::TooManyAliases => "give at most 8",
        _ => "names are letters, digits and _!%,@; values have no quote, operator, \\, $ or #",
    }
}

// An alias as it is given on the command line.
fn define(aliases: &mut AliasTable, given: &str) -> anyhow::Result<()> {
    let (name, value) = given.split_once('=').ok_or_else(|| anyhow!(
        "write --alias NAME=VALUE, not --alias {given}"
    ))?;
    aliases
        .define(name.as_bytes(), value.as_bytes())
        .map_err(|refusal| {
            let rule = alias_rule(refusal.reason);
            anyhow!("--alias refused {refusal}: {rule}: {given}")
        })
}

// The words after list and check: aliases, --json, and a file.
fn parse_text(mut words: env::Args) -> anyhow::Result<Text> {
    let mut text = Text {
        aliases: AliasTable::new(),
        file: None,
        json: false,
    };
    while let Some(word) = words.next() {
        match word.as_str() {
            "--alias" => {
                let Some(given) = words.next() else {
                    bail!("write NAME=VALUE after --alias");
                };
                define(&mut text.aliases, given.as_str())?;
            }
            "--json" => text.json = true,
            option if option.starts_with('-') || text.file.is_some() => {
                bail!("give --alias NAME=VALUE, --json or one file, not {option}");
            }
            _ => text.file = Some(word),
        }
    }
    Ok(text)
}

fn parse_replay(mut words: env::Args) -> anyhow::Result<Command> {
    let file = words.next();
    ensure!(
        words.next().is_none(),
        "replay takes one journal: name its file, or give it on standard input"
    );
    Ok(Command::Replay(file))
}

// Behind help, one word asks for all of it.
fn parse_help(mut words: env::Args) -> Command {
    match words.next() {
        Some(word) if word.as_str() == "all" => Command::HelpAll,
        _ => Command::Help,
    }
}

pub fn parse(rt: &HostRuntime) -> anyhow::Result<Command> {
    let Ok(mut words) = env::args(rt) else {
        bail!("write the command line in UTF-8");
    };
    words.next();
    let Some(name) = words.next() else {
        return Ok(Command::Help);
    };
    match name.as_str() {
        "quote" => parse_quote(words),
        "unquote" => parse_unquote(words),
        "list" => parse_text(words).map(Command::List),
        "check" => parse_text(words).map(Command::Check),
        "replay" => parse_replay(words),
        "help" => Ok(parse_help(words)),
        "--help" | "-h" => Ok(Command::Help),
        _ => bail!("no such command: run jamisthmus help for the commands"),
    }
}
