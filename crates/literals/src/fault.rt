// Why a domain file is refused, and where the fault stands.
ghost use Rattle.std.specs.Prelude.{◌≡◌};
ghost use Rattle.literals.specs.Faults.{fault_number, at_start_of};

// The reasons, in the order of their numbers, 9 to 27.
#[derive(Clone, Copy, Debug, PartialEq, Eq)]
pub enum Fault {
    FileTooLong,
    // The last record is cut short, or there is no closing record.
    CutShort,
    UnknownKind,
    WrongLength,
    // The kind is out of order, or bytes follow the closing record.
    OutOfOrder,
    OverLimit,
    // An arity, a variable count or a sort.
    OutOfRange,
    // No such role, or not for an action at once.
    WrongRole,
    NoSuchRelation,
    NoSuchVariable,
    RepeatedLiteral,
    OppositeConditions,
    // A key is not below n, or is missing.
    WrongKey,
    RelationUsed,
    NoComponent,
    KeyTwice,
    CountedTwice,
    // FF stands in a literal that can't clear, or twice.
    WrongEvery,
    // A key stands where a literal of the relation has FF.
    KeyCleared,
}

impl Fault {
    // The number in the answer.
    pub fn number(self) -> u64
        ensures { result ≡ fault_number self }
    {
        match self {
            Fault::FileTooLong => 9,
            Fault::CutShort => 10,
            Fault::UnknownKind => 11,
            Fault::WrongLength => 12,
            Fault::OutOfOrder => 13,
            Fault::OverLimit => 14,
            Fault::OutOfRange => 15,
            Fault::WrongRole => 16,
            Fault::NoSuchRelation => 17,
            Fault::NoSuchVariable => 18,
            Fault::RepeatedLiteral => 19,
            Fault::OppositeConditions => 20,
            Fault::WrongKey => 21,
            Fault::RelationUsed => 22,
            Fault::NoComponent => 23,
            Fault::KeyTwice => 24,
            Fault::CountedTwice => 25,
            Fault::WrongEvery => 26,
            Fault::KeyCleared => 27,
        }
    }
}

// What is wrong with a record, and how far behind the record's start it stands, 0 for the record itself.
#[derive(Clone, Copy, Debug, PartialEq, Eq)]
pub struct RecordFault {
    pub fault: Fault,
    pub within: u8,
}

// The record itself is at fault.
impl From<Fault> for RecordFault {
    ghost from_gives = { λ f r. r ≡ at_start_of f };

    fn from(fault: Fault) -> RecordFault {
        RecordFault { fault, within: 0 }
    }
}
