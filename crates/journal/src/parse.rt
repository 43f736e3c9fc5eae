// One line of a journal: a call and its words, parted by one space each.
ghost use Rattle.std.specs.Prelude.{◌≡◌, true, ◌∷◌, ◌++◌, IfOk, None, Ok, codes, MatchOption};
ghost use Rattle.journal.specs.Calls.{blank, Blankless, passed_over, Stands, Counts, Spells, SpellsAlone, Spelled};

use crate::call::Call;
use crate::fault::Fault;
use crate::unescape::unescape;
use std::alloc::Global;

const ORDER: &str = "order single, or order backslash";

const ALIAS: &str = "alias NAME VALUE";

const UNALIAS: &str = "unalias NAME";

const LOAD: &str = "load TEMPLATE";

const UNLOAD: &str = "unload";

const LIST: &str = "list RECORDS LETTERS SCRIPT";

// The call of a line; none in an empty line and in a comment.
pub fn parse_line(heap: Global, line: &str) -> Result<Option<Call>, Fault>
    ensures spells { IfOk result (λ o. Spelled line.now o) }
    ensures passes { passed_over line.now ≡ true → result ≡ Ok None }
{
    if let [] | [b'#', ..] = line.as_bytes() {
        return Ok(None);
    }
    let call = match cut(line) {
        Some((name, rest)) => parse_call(heap, name, rest)?,
        None => parse_alone(line)?,
    };
    Ok(Some(call))
}

// A name alone: a call that is given nothing, or one that lacks its words.
fn parse_alone(name: &str) -> Result<Call, Fault>
    ensures { IfOk result (λ call. SpellsAlone name.now call) }
{
    match name {
        "unload" => Ok(Call::Unload),
        "order" => Err(Fault::Form(ORDER)),
        "alias" => Err(Fault::Form(ALIAS)),
        "unalias" => Err(Fault::Form(UNALIAS)),
        "load" => Err(Fault::Form(LOAD)),
        "list" => Err(Fault::Form(LIST)),
        _ => Err(Fault::UnknownCall),
    }
}

fn parse_call(heap: Global, name: &str, rest: &str) -> Result<Call, Fault>
    ensures { IfOk result (λ call. Spells name.now rest.now call) }
{
    match name {
        "order" => parse_order(rest),
        "alias" => parse_alias(heap, rest),
        "unalias" => bytes_of(heap, rest).map(|name| Call::Unalias { name }),
        "load" => bytes_of(heap, rest).map(|template| Call::Load { template }),
        "unload" => Err(Fault::Form(UNLOAD)),
        "list" => parse_list(heap, rest),
        _ => Err(Fault::UnknownCall),
    }
}

fn parse_order(rest: &str) -> Result<Call, Fault>
    ensures { IfOk result (λ call. Spells (codes "order") rest.now call) }
{
    let style = rest.parse().map_err(|_| Fault::Form(ORDER))?;
    Ok(Call::Order(style))
}

fn parse_alias(heap: Global, rest: &str) -> Result<Call, Fault>
    ensures { IfOk result (λ call. Spells (codes "alias") rest.now call) }
{
    let (name, value) = cut(rest).ok_or(Fault::Form(ALIAS))?;
    let name = bytes_of(heap, name)?;
    let value = bytes_of(heap, value)?;
    Ok(Call::Alias { name, value })
}

fn parse_list(heap: Global, rest: &str) -> Result<Call, Fault>
    ensures { IfOk result (λ call. Spells (codes "list") rest.now call) }
{
    let (records, rest) = cut(rest).ok_or(Fault::Form(LIST))?;
    let (letters, script) = cut(rest).ok_or(Fault::Form(LIST))?;
    let records = number(records)?;
    let letters = number(letters)?;
    let script = bytes_of(heap, script)?;
    Ok(Call::List {
        records,
        letters,
        script,
    })
}

// The parts of a line before and behind its first blank.
fn cut(line: &str) -> Option<(&str, &str)>
    ensures { MatchOption result (Blankless line.now) (λ x. (line.now ≡ x.0.now ++ (blank ∷ x.1.now)) × Blankless x.0.now) }
{
    line.split_once(' ')
}

// The bytes that a word stands for.
fn bytes_of(heap: Global, word: &str) -> Result<Vec<u8>, Fault>
    ensures { IfOk result (λ v. Stands word.now v.items) }
{
    unescape(heap, word.as_bytes())?.ok_or(Fault::Escape)
}

// A number of slots.
fn number(word: &str) -> Result<usize, Fault>
    ensures { IfOk result (λ n. Counts word.now n) }
{
    word.parse().map_err(|_| Fault::Form(LIST))
}
