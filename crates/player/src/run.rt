// A whole run: its records in file order, up to its end or to the first that is at fault.
ghost use Rattle.std.specs.Prelude.{◌≡◌, List, [], ℕ, ◌≤◌, length, replicate};
ghost use Rattle.records.specs.Memory.{over};
ghost use Rattle.literals.specs.Domain.{Domain};
ghost use Rattle.literals.specs.Held.{Held, Read};
ghost use Rattle.store.specs.Held.{fact_index};
ghost use Rattle.effects.specs.Held.{scratch_bytes};
ghost use Rattle.run_semantics.specs.Play.{work_bytes, held_bytes, play_run};
ghost use Rattle.player.specs.Held.{ending_number, ended_of};
ghost use Rattle.events.specs.Held.{agenda_bytes, agenda_open, open_of};

use super::{Over, Player, Tally};
use effects::SCRATCH;
use literals::head::Head;
use literals::limits::MAX_FACTS;
use records::bytes::put_bytes;
use store::index::{FACT_INDEX, FactIndex};

// The bytes of the facts in the work memory.
pub const WORK: usize = 8 * MAX_FACTS;

// How a run ended: the number (2 when it was played), the offset of the record at fault, whether the start was over, what was counted,
// and how many facts are held and how many entries are open. (A number, since `answer_by` answers for any.)
#[derive(Clone, Copy, Debug, PartialEq, Eq)]
pub struct Ended {
    pub number: u64,
    pub place: usize,
    pub begun: bool,
    pub tally: Tally,
    pub facts: usize,
    pub opened: usize,
}

// How a run ended where playing is over.
fn ended_by(over: Over) -> Ended
    ensures { result ≡ record {
      number = ending_number over.ending;
      place = over.player.at;
      begun = over.player.begun;
      tally = over.player.tally;
      facts = over.player.state.facts;
      opened = over.player.state.opened;
    } }
{
    let last = over.player;
    let at = last.at;
    let tally = last.tally;
    let state = last.state;
    Ended {
        number: over.ending.number(),
        place: at,
        begun: last.begun,
        tally,
        facts: state.facts,
        opened: state.opened,
    }
}

// The records of a run file, where the work memory holds no fact yet and the agenda nothing; it is then that of the end. `scratch` is
// memory for each step to work in.
fn play_records(
    head: &Head,
    table: &[u8],
    run: &[u8],
    work: &mut [u8],
    index: &mut FactIndex,
    agenda: &mut [u8],
    scratch: &mut [u8],
) -> Ended
    requires domain { Read head.now table.now }
    requires room { work_bytes ≤ length work.old }
    requires no_fact { work.old ≡ over (held_bytes []) work.old }
    requires index { index.old ≡ replicate fact_index 0 }
    requires agenda { agenda.old ≡ replicate agenda_bytes 0 }
    requires scratch { length scratch.old ≡ scratch_bytes }
    ensures { (D : Domain) (old : List ℕ) → Held D head.now table.now
        → work.old ≡ over (held_bytes []) old
        → (result ≡ ended_of (play_run D run.now))
        × (work.new ≡ over (held_bytes (play_run D run.now).facts) old)
        × (agenda_open result.opened agenda.new ≡ open_of (play_run D run.now).running) }
{
    let mut player = Player::new();
    loop {
        match player.step(head, table, run, work, index, agenda, scratch) {
            Ok(next) => player = next,
            Err(over) => return ended_by(over),
        }
    }
}

// Plays a run file on a domain that was read; the agenda, which is all 0 before, is then that of the end.
pub fn play_run(head: &Head, table: &[u8], run: &[u8], work: &mut [u8], agenda: &mut [u8]) -> Ended
    requires domain { Read head.now table.now }
    requires room { work_bytes ≤ length work.old }
    requires agenda { agenda.old ≡ replicate agenda_bytes 0 }
    ensures { (D : Domain) → Held D head.now table.now
        → (result ≡ ended_of (play_run D run.now))
        × (work.new ≡ over (held_bytes (play_run D run.now).facts) work.old)
        × (agenda_open result.opened agenda.new ≡ open_of (play_run D run.now).running) }
{
    let zeros = [0u8; WORK];
    put_bytes(work, 0, &zeros);
    let mut index = [0u64; FACT_INDEX];
    // Memory that each step works in, cleared only here.
    let mut scratch = [0u8; SCRATCH];
    play_records(head, table, run, work, &mut index, agenda, &mut scratch)
}
