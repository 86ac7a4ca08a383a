// The player: where it stands (here), a run file record by record (playing) and whole (run), and the calls: without an instance (play)
// and with one (track).
#![tactic(auto)]

pub mod play;
pub mod playing;
pub mod run;
pub mod track;

ghost use Rattle.std.specs.Prelude.{◌≡◌};
ghost use Rattle.player.specs.Held.{ending_number};

use machine::State;
use run_semantics::Stop;
use std::num::NonZeroU8;

// The tally of a run: the steps made, the highest weight.
#[derive(Clone, Copy, Debug, PartialEq, Eq)]
pub struct Tally {
    pub steps: usize,
    pub weight: usize,
}

// Where playing stands: the next record's offset, whether the run's close is read, whether the start is over (a record of kind 18 to 20
// is met), the object count, once its record is read, and the machine's state. The agenda, which is what is open and what
// waits, is in a memory of its own, as the facts are. (The small fields stand together: a single byte before a number leaves a gap
// that is copied with every record, and slowly.)
#[derive(Clone, Copy, Debug, PartialEq, Eq)]
pub struct Player {
    pub at: usize,
    pub closed: bool,
    pub begun: bool,
    pub objects: Option<NonZeroU8>,
    pub state: State,
    pub tally: Tally,
}

// How playing ends: the run is played to its close, or a record is stopped.
#[derive(Clone, Copy, Debug, PartialEq, Eq)]
pub enum Ending {
    Played,
    Stopped(Stop),
}

impl Ending {
    // Its number in the answer of a call.
    pub fn number(self) -> u64
        ensures { result ≡ ending_number self }
    {
        match self {
            Ending::Played => 2,
            Ending::Stopped(stop) => stop.number(),
        }
    }
}

// Playing is over: how it ended, and where the player stands. (The player in front: so it stands at one place in a `Result<Player, Over>`,
// whichever that is, and is not copied from one to the other with every record.)
#[derive(Clone, Copy, Debug, PartialEq, Eq)]
pub struct Over {
    pub player: Player,
    pub ending: Ending,
}
