// A domain: numberings, moments, roles and labels (here); a domain that was read (head); the fields of a record (fields); the rows of the
// literal table (row), and those of one action (span); key tuples (keys, and what is worked out of them once a domain, key_places).
#![tactic(auto)]

pub mod fault;
pub mod fields;
pub mod head;
pub mod key_places;
pub mod keys;
pub mod limits;
pub mod row;
pub mod span;

ghost use Rattle.std.specs.Prelude.{◌≡◌, ◌<◌};
ghost use Rattle.literals.specs.Domain.{is_every, usage_of, role_of, usage_number, first_role, same_time, may_clear, is_key, is_counted};
ghost use Rattle.literals.specs.Decode.{argument_of, label_of};
ghost use Rattle.literals.specs.Held.{usage_for, number_for};
ghost use Rattle.literals.specs.Matching.{moment_number};

// Variables, objects and keys are three separate numberings, each from 0.
#[derive(Clone, Copy, PartialEq, Eq, Debug)]
pub struct Variable(pub u8);

#[derive(Clone, Copy, PartialEq, Eq, Debug)]
pub struct Object(pub u8);

#[derive(Clone, Copy, PartialEq, Eq, Debug)]
pub struct Key(pub u8);

// One label of a component: a key, or the counted argument.
#[derive(Clone, Copy, PartialEq, Eq, Debug)]
pub enum Label {
    Key(Key),
    Counted,
}

// One argument of a literal: a variable, or every object.
#[derive(Clone, Copy, PartialEq, Eq, Debug)]
pub enum Argument {
    Variable(Variable),
    Every,
}

// A moment of an action: an action at once has its start alone.
#[derive(Clone, Copy, PartialEq, Eq, Debug)]
pub enum Moment {
    Start,
    End,
}

// When a literal of a lasting action counts; a literal of an action at once counts at the start.
#[derive(Clone, Copy, PartialEq, Eq, Debug)]
pub enum Time {
    AtStart,
    OverAll,
    AtEnd,
}

// What a literal is there: true condition, false condition, add, delete.
#[derive(Clone, Copy, PartialEq, Eq, Debug)]
pub enum Usage {
    Positive,
    Negative,
    Add,
    Delete,
}

impl Usage {
    // Whether literals of a usage may have FF: false conditions and deletes.
    pub fn may_clear(self) -> bool
        ensures { result ≡ may_clear self }
    {
        matches!(self, Usage::Negative | Usage::Delete)
    }
}

#[derive(Clone, Copy, PartialEq, Eq, Debug)]
pub struct Role {
    pub time: Time,
    pub usage: Usage,
}

// The byte of a moment in the report.
impl From<Moment> for u8 {
    ghost from_gives = { λ m n. n ≡ moment_number m };

    fn from(m: Moment) -> u8 {
        match m {
            Moment::Start => 0,
            Moment::End => 1,
        }
    }
}

// The label of a byte: FF is the counted argument, every other a key.
impl From<u8> for Label {
    ghost from_gives = { λ b l. l ≡ label_of b };

    fn from(b: u8) -> Label {
        if b == 255 {
            return Label::Counted;
        }
        Label::Key(Key(b))
    }
}

// The argument of a byte: FF is every object, every other a variable.
impl From<u8> for Argument {
    ghost from_gives = { λ b a. a ≡ argument_of b };

    fn from(b: u8) -> Argument {
        if b == 255 {
            return Argument::Every;
        }
        Argument::Variable(Variable(b))
    }
}

// The usage of a number: the role byte that it has at the start.
impl From<u8> for Usage {
    ghost from_gives = { λ n u. u ≡ usage_of n };

    fn from(n: u8) -> Usage {
        match n {
            0 => Usage::Positive,
            1 => Usage::Negative,
            2 => Usage::Add,
            _ => Usage::Delete,
        }
    }
}

// The role byte, sorted by its ranges. Reading refuses a byte above 9 before it is sorted.
impl From<u8> for Role {
    ghost from_gives = { λ b r. r ≡ role_of b };

    fn from(b: u8) -> Role {
        match b {
            0..=3 => Role {
                time: Time::AtStart,
                usage: Usage::from(b),
            },
            4..=5 => Role {
                time: Time::OverAll,
                usage: Usage::from(b - 4),
            },
            _ => Role {
                time: Time::AtEnd,
                usage: Usage::from(b - 6),
            },
        }
    }
}

// The number of a usage.
impl From<Usage> for u8 {
    ghost from_gives = { λ u n. n ≡ usage_number u };

    fn from(u: Usage) -> u8 {
        match u {
            Usage::Positive => 0,
            Usage::Negative => 1,
            Usage::Add => 2,
            Usage::Delete => 3,
        }
    }
}

// The usage of a role byte at a time, if it is a role of that time.
#[tactic(auto, unfolding(crate::specs::Held::usage_for))]
pub fn usage_for(time: Time, role: u8) -> Option<Usage>
    ensures { number_for result ≡ usage_for time role }
{
    let sorted = Role::from(role);
    if time == sorted.time {
        return Some(sorted.usage);
    }
    None
}
