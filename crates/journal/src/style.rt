// How texts are quoted.
ghost use Rattle.std.specs.Prelude.{◌≡◌, Some};
ghost use Rattle.journal.specs.Names.{style_name};
ghost use Rattle.journal.specs.Styles.{FindsStyle};

use std::fmt;
use std::str::FromStr;
use thiserror::Error;

#[derive(Clone, Copy, Debug, PartialEq, Eq)]
pub enum Style {
    Single,
    Backslash,
}

impl Style {
    pub fn name(self) -> &'static str
        ensures { result.now ≡ style_name self }
    {
        match self {
            Style::Single => "single",
            Style::Backslash => "backslash",
        }
    }
}

// A name that no style has.
#[derive(Clone, Copy, Debug, PartialEq, Eq, Error)]
#[error("write single or backslash")]
pub struct UnknownStyle;

impl FromStr for Style {
    type Err = UnknownStyle;

    ghost from_str_gives = { FindsStyle };

    fn from_str(name: &str) -> Result<Self, UnknownStyle> {
        match name {
            "single" => Ok(Style::Single),
            "backslash" => Ok(Style::Backslash),
            _ => Err(UnknownStyle),
        }
    }
}

impl fmt::Display for Style {
    ghost output = { λ x. Some (style_name x) };

    fn fmt<W: fmt::Write>(&self, f: &mut fmt::Formatter<W>) -> fmt::Result {
        f.write_str(self.name())
    }
}
