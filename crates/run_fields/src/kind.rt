// The kinds of a run file's records.
ghost use Rattle.run_fields.specs.Kinds.{KindOf};

use run_semantics::Stop;

#[derive(Clone, Copy, Debug, PartialEq, Eq)]
pub enum Kind {
    Objects,
    Fact,
    Event,
    Step,
    End,
}

// By the number in a record's head.
impl TryFrom<u16> for Kind {
    type Error = Stop;

    ghost try_from_gives = { KindOf };

    fn try_from(number: u16) -> Result<Kind, Stop> {
        match number {
            16 => Ok(Kind::Objects),
            17 => Ok(Kind::Fact),
            18 => Ok(Kind::Event),
            19 => Ok(Kind::Step),
            20 => Ok(Kind::End),
            _ => Err(Stop::Malformed),
        }
    }
}
