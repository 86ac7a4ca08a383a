// Run files and the player: definitions, what is claimed of them, and its proofs. The code is what stops a run, and its number.
#![tactic(auto)]

ghost use Rattle.std.specs.Prelude.{◌≡◌};
ghost use Rattle.run_semantics.specs.Numbers.{stop_number};

// What stops a run at a record.
#[derive(Clone, Copy, Debug, PartialEq, Eq)]
pub enum Stop {
    // the run file is not a row of records: one is cut short, unknown, out of its order, or too long or short
    Malformed,
    // a number is out of range: it names nothing
    NamesNothing,
    // more than the player holds
    TooMany,
    // an event gives two variables the same object
    BoundTwice,
    // the step has this event already
    EventRepeated,
    // at the step's close something that must hold does not
    ConditionFails,
    // two events of the step disturb each other
    Interference,
    // the step ends something that is not open with these objects
    EndNotOpen,
}

impl Stop {
    // Its number in the answer of a call.
    pub fn number(self) -> u64
        ensures { result ≡ stop_number self }
    {
        match self {
            Stop::Malformed => 50,
            Stop::NamesNothing => 51,
            Stop::TooMany => 52,
            Stop::BoundTwice => 53,
            Stop::EventRepeated => 54,
            Stop::ConditionFails => 55,
            Stop::Interference => 56,
            Stop::EndNotOpen => 57,
        }
    }
}
