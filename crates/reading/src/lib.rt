// Reading a domain file: how far it has come (here), the kinds of its records (kind), what one record adds to the domain (take), the file
// (read).
#![tactic(auto)]

pub mod kind;
pub mod read;
pub mod take;

ghost use Rattle.std.specs.Prelude.{◌≡◌, ◌+◌, ◌<◌, ◌^◌};
ghost use Rattle.literals.specs.Decode.{refuse_at};
ghost use Rattle.literals.specs.Faults.{told_stop};
ghost use Rattle.reading.specs.Held.{refusal_of};

use literals::fault::{Fault, RecordFault};

// Where reading stands: the next record's offset, and whether the closing record is read.
#[derive(Clone, Copy, Debug, PartialEq, Eq)]
pub struct Progress {
    pub at: usize,
    pub closed: bool,
}

// Why a file is refused, the place of the fault, and where the record at fault starts.
#[derive(Clone, Copy, Debug, PartialEq, Eq)]
pub struct Refusal {
    pub fault: Fault,
    pub place: usize,
    pub start: usize,
}

impl Refusal {
    // For the record that starts at an offset.
    fn of_record(fault: RecordFault, start: usize) -> Refusal
        requires { start + fault.within < 2 ^ 64 }
        ensures { refusal_of result ≡ refuse_at (told_stop fault) start }
    {
        Refusal {
            fault: fault.fault,
            place: start + usize::from(fault.within),
            start,
        }
    }
}
