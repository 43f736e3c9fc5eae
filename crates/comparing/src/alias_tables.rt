// Tables of aliases to read under.
use descent_lexer::item::Alias;
use random::Numbers;
use scripts::Scripts;
use std::alloc::{AllocError, Global};

// A table has at most so many.
const MOST: usize = 8;

// Aliases that stand for one another, for themselves, for assignments, for a reserved word and for a number.
static ENTWINED: [(&str, &str); MOST] = [
    ("ls", "ls -l "),
    ("a", "b"),
    ("b", " x=1 a"),
    ("e", "x=1 y=2"),
    ("i", "if"),
    ("2", "two 2"),
    ("!", "@{0} ="),
    ("1", "e\ta"),
];

// A name that has a value keeps it.
fn define(aliases: &mut Vec<Alias>, name: Vec<u8>, value: Vec<u8>) -> Result<(), AllocError> {
    if !aliases.iter().any(|alias| alias.name == name) {
        aliases.push(Alias { name, value })?;
    }
    Ok(())
}

pub(crate) fn entwined(heap: Global) -> Result<Vec<Alias>, AllocError> {
    let mut all = Vec::new(heap);
    for (name, value) in &ENTWINED {
        let name = Vec::from_slice(heap, name.as_bytes())?;
        let value = Vec::from_slice(heap, value.as_bytes())?;
        define(&mut all, name, value)?;
    }
    Ok(all)
}

// A table of some aliases.
pub(crate) fn some(heap: Global, scripts: &mut Scripts) -> Result<Vec<Alias>, AllocError> {
    let mut all = Vec::new(heap);
    for _ in 0..scripts.random.below(MOST + 1) {
        let mut name = Vec::new(heap);
        scripts.alias_name(&mut name)?;
        let mut value = Vec::new(heap);
        scripts.alias_value(&mut value)?;
        define(&mut all, name, value)?;
    }
    Ok(all)
}
