// What a word is to its command.
ghost use Rattle.std.specs.Prelude.{◌≡◌};
ghost use Rattle.std.specs.Option.{ok_or};
ghost use Rattle.commands.specs.Roles.{role_number, role_of, use_of, is_name_use};

use crate::stage::Stage;

#[derive(Clone, Copy, Debug, PartialEq, Eq)]
pub enum Role {
    // the command's name
    Name = 1,
    Arg = 2,
    // an assignment before the name
    Assign = 3,
    // what a redirection goes to
    Target = 4,
    // a here-document's delimiter
    Delim = 5,
    // the descriptor before a redirection
    Number = 6,
}

impl From<Role> for u8 {
    ghost from_gives = { λ role number. number ≡ role_number role };

    fn from(role: Role) -> u8 {
        role as u8
    }
}

// A number that is no role's.
#[derive(Clone, Copy, Debug, PartialEq, Eq)]
pub struct UnknownRole(pub u8);

impl TryFrom<u8> for Role {
    type Error = UnknownRole;

    ghost try_from_gives = { λ number r. r ≡ ok_or (role_of number) (record { 0 = number }) };

    fn try_from(number: u8) -> Result<Self, UnknownRole> {
        match number {
            1 => Ok(Role::Name),
            2 => Ok(Role::Arg),
            3 => Ok(Role::Assign),
            4 => Ok(Role::Target),
            5 => Ok(Role::Delim),
            6 => Ok(Role::Number),
            _ => Err(UnknownRole(number)),
        }
    }
}

// A word's role, and the stage after it.
#[derive(Clone, Copy, Debug, PartialEq, Eq)]
pub struct Use {
    pub role: Role,
    pub stage: Stage,
}

// The use of a word by its stage, or none where it is out of place.
pub fn use_of(g: Stage, reserved: bool, assign: bool) -> Option<Use>
    ensures { result ≡ use_of g reserved assign }
{
    let (role, stage) = match g {
        Stage::Args => (Role::Arg, Stage::Args),
        Stage::Done => return None,
        Stage::Start | Stage::Must if reserved => return None,
        _ if assign => (Role::Assign, Stage::Head),
        _ => (Role::Name, Stage::Args),
    };
    Some(Use { role, stage })
}

// A word of that use would be a command's name.
pub fn is_name(u: Option<Use>) -> bool
    ensures { result ≡ is_name_use u }
{
    matches!(
        u,
        Some(Use {
            role: Role::Name,
            ..
        })
    )
}
