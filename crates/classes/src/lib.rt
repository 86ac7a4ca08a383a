// Classes of an action: their names (here), their numbers (number), and what a class has at a moment (names; by its rows: class_at, with
// the counted places of components: labels; the words of names: display).
#![tactic(auto)]

mod class_at;
mod display;
mod labels;
pub mod names;
pub mod number;

ghost use Rattle.std.specs.Prelude.{◌≡◌};
ghost use Rattle.classes.specs.Classes.{name_number};
ghost use Rattle.classes.specs.Held.{count_of, usage_mark};

use literals::Usage;
use literals::limits::MAX_LITERALS;

// The names of a class at a moment, in the order of their tests.
#[derive(Clone, Copy, PartialEq, Eq, Debug)]
pub enum Name {
    Unreachable,
    Irrelevant,
    Heavy,
    Balanced,
    Unbalanced,
    Bounded,
    Unbounded,
}

// A byte for each literal of an action, or for each of its classes.
pub type Marks = [u8; MAX_LITERALS];

// In sections of a byte for each class of an action: which of its literals is a true condition at the start, and which an add there; the
// same two at the end; which is asked as a true condition at the end. 0 for none, k + 1 for the literal k alone, 255 for more.
pub type Soles = [u8; 5 * MAX_LITERALS];

// The sections by their numbers; those of the adds follow those of the true conditions.
pub const AT_START: usize = 0;

pub const AT_END: usize = 2;

pub const ASKED: usize = 4;

// How many literals pass a test: none, one, by its number, or more.
#[derive(Clone, Copy, PartialEq, Eq, Debug)]
pub enum Count {
    Zero,
    One(u8),
    More,
}

// The true conditions and the adds of a class at a moment.
#[derive(Clone, Copy, PartialEq, Eq, Debug)]
pub struct Sole {
    pub conditions: Count,
    pub adds: Count,
}

// The byte of a usage in a memory: 1 to 4 for a true condition, false condition, add or delete, 0 for none.
pub(crate) fn usage_mark(usage: Option<Usage>) -> u8
    ensures { result ≡ usage_mark usage }
{
    match usage {
        Some(usage) => u8::from(usage) + 1,
        None => 0,
    }
}

// The byte of a name in the report.
impl From<Name> for u8 {
    ghost from_gives = { λ n b. b ≡ name_number n };

    fn from(n: Name) -> u8 {
        match n {
            Name::Unreachable => 1,
            Name::Irrelevant => 2,
            Name::Heavy => 3,
            Name::Balanced => 4,
            Name::Unbalanced => 5,
            Name::Bounded => 6,
            Name::Unbounded => 7,
        }
    }
}

// A count by its byte in `Soles`.
impl From<u8> for Count {
    ghost from_gives = { λ b c. c ≡ count_of b };

    fn from(b: u8) -> Count {
        match b {
            0 => Count::Zero,
            255 => Count::More,
            _ => Count::One(b - 1),
        }
    }
}
