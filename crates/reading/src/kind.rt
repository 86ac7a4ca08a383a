// The kinds of a domain file's records.
ghost use Rattle.reading.specs.Kinds.{KindOf};

use literals::fault::Fault;

#[derive(Clone, Copy, Debug, PartialEq, Eq)]
pub enum Kind {
    Relation,
    Action,
    Literal,
    Component,
    Closing,
}

// By the number in a record's head.
impl TryFrom<u16> for Kind {
    type Error = Fault;

    ghost try_from_gives = { KindOf };

    fn try_from(number: u16) -> Result<Kind, Fault> {
        match number {
            1 => Ok(Kind::Relation),
            2 => Ok(Kind::Action),
            3 => Ok(Kind::Literal),
            4 => Ok(Kind::Component),
            5 => Ok(Kind::Closing),
            _ => Err(Fault::UnknownKind),
        }
    }
}
