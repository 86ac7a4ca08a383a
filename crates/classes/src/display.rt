// The names of classes in words, and a name by its byte in a report.
ghost use Rattle.std.specs.Prelude.{◌≡◌, Some};
ghost use Rattle.classes.specs.Words.{name_by_number, name_word};

use crate::Name;
use std::fmt;

// The name of a byte in a report. (The bytes of names are 1 to 7; every other reads as unbounded.)
impl From<u8> for Name {
    ghost from_gives = { λ b n. n ≡ name_by_number b };

    fn from(b: u8) -> Name {
        match b {
            1 => Name::Unreachable,
            2 => Name::Irrelevant,
            3 => Name::Heavy,
            4 => Name::Balanced,
            5 => Name::Unbalanced,
            6 => Name::Bounded,
            _ => Name::Unbounded,
        }
    }
}

impl fmt::Display for Name {
    ghost output = { λ n. Some (name_word n) };

    fn fmt<W: fmt::Write>(&self, f: &mut fmt::Formatter<W>) -> fmt::Result {
        match self {
            Name::Unreachable => write!(f, "unreachable"),
            Name::Irrelevant => write!(f, "irrelevant"),
            Name::Heavy => write!(f, "heavy"),
            Name::Balanced => write!(f, "balanced"),
            Name::Unbalanced => write!(f, "unbalanced"),
            Name::Bounded => write!(f, "bounded"),
            Name::Unbounded => write!(f, "unbounded"),
        }
    }
}
