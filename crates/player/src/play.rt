// The call: a domain file, a run file, and lent work memory.
ghost use Rattle.std.specs.Prelude.{◌≡◌, ◌*◌, ◌≤◌, get_or, replicate};
ghost use Rattle.literals.specs.Decode.{max_literals, max_actions};
ghost use Rattle.reading.specs.Held.{EnoughTable};
ghost use Rattle.run_semantics.specs.Play.{Outcome, call, played, work_after, returned, returned_bytes};
ghost use Rattle.run_semantics.specs.Claims.{PlaysAsMachine, StaysLow};
ghost use Rattle.player.specs.Held.{ended_of};
ghost use Rattle.player.specs.Called.{file_of, offset_of};
ghost use Rattle.player.specs.Held.{fault_file, fault_offset, part_at, answer_of, answer_by, answer_unplayed, tracked_if, tracked_of};

use super::run::{Ended, WORK, play_run};
use super::track::track_run;
use events::AGENDA;
use literals::head::HEAD;
use literals::limits::{MAX_ACTIONS, MAX_LITERALS};
use reading::read::read_domain;

// How many literals the table of a small domain file has room for. A literal takes at least 6 bytes of the file, and 8 of the table.
const FEW: usize = 512;

const ALL: usize = MAX_LITERALS * MAX_ACTIONS;

// The lengths of the tables.
const FEW_ROWS: usize = 8 * FEW;

const ALL_ROWS: usize = 8 * ALL;

// Where the record at fault starts: an offset of the domain file, or of the run file.
#[derive(Clone, Copy, Debug, PartialEq, Eq)]
pub enum Fault {
    Domain(usize),
    Run(usize),
}

// The answer: the number (2 when the run was played), its place, the steps made, the highest weight, and the record at fault. (Its number,
// as the call of C answers it.)
#[derive(Clone, Copy, Debug, PartialEq, Eq)]
pub struct PlayAnswer {
    pub number: u64,
    pub place: usize,
    pub steps: usize,
    pub weight: usize,
    pub fault: Fault,
}

// The same with the total of an instance.
#[derive(Clone, Copy, Debug, PartialEq, Eq)]
pub struct Tracked {
    pub played: PlayAnswer,
    pub total: usize,
}

// The file of the record at fault: 0 the domain file, 1 the run file. (No one function for the file and its offset: a pair would only be
// taken apart again, as the calls answer each in a place of its own.)
pub fn file_of(fault: Fault) -> u64
    ensures { result ≡ fault_file fault }
{
    match fault {
        Fault::Domain(_) => 0,
        Fault::Run(_) => 1,
    }
}

// Its offset there.
pub fn offset_of(fault: Fault) -> usize
    ensures { result ≡ fault_offset fault }
{
    match fault {
        Fault::Domain(at) | Fault::Run(at) => at,
    }
}

// The record at fault as a part of one of the two files, from there to the end. (Each offset is one of its
// file; the minimum gives the checker the bound that the slice needs.)
pub fn part<'a>(domain: &'a [u8], run: &'a [u8], fault: Fault) -> &'a [u8]
    ensures { result.now ≡ part_at domain.now run.now fault }
{
    let (file, at) = match fault {
        Fault::Domain(at) => (domain, at),
        Fault::Run(at) => (run, at),
    };
    &file[at.min(file.len())..]
}

// What the end of a run tells: with 2 no record is at fault, and the empty end of the run file comes back.
pub fn answer_by(ended: Ended) -> PlayAnswer
    ensures { (o : Outcome) → ended ≡ ended_of o → result ≡ answer_by o }
{
    let tally = ended.tally;
    let stopped = PlayAnswer {
        number: ended.number,
        place: ended.place,
        steps: tally.steps,
        weight: tally.weight,
        fault: Fault::Run(ended.place),
    };
    if ended.number == 2 {
        return PlayAnswer {
            place: 0,
            ..stopped
        };
    }
    stopped
}

// An answer without a run: no step is made, and the highest weight is 0.
fn unplayed(number: u64, place: usize, fault: Fault) -> PlayAnswer
    ensures { result ≡ answer_unplayed number place fault }
{
    PlayAnswer {
        number,
        place,
        steps: 0,
        weight: 0,
        fault,
    }
}

// A domain file, read into a table of this length or refused 9 to 27, then 58 where the work memory is too small, then the run file;
// with an instance where one is given, and without a total where none is.
fn play_in<const ROWS: usize>(
    domain: &[u8],
    run: &[u8],
    instance: &[u8],
    given: bool,
    work: &mut [u8],
) -> Tracked
    requires enough { EnoughTable «domain».now (replicate ROWS 0) }
    requires few { ROWS ≤ 8 * (max_literals * max_actions) }
    ensures answer { result ≡ tracked_of (tracked_if given «domain».now instance.now run.now
        work.old) }
    ensures work { work.new ≡ (tracked_if given «domain».now instance.now run.now
        work.old).call.memory }
{
    let mut head = [0u8; HEAD];
    let mut table = [0u8; ROWS];
    if let Err(refusal) = read_domain(domain, &mut head, &mut table) {
        return Tracked {
            played: unplayed(
                refusal.fault.number(),
                refusal.place,
                Fault::Domain(refusal.start),
            ),
            total: 0,
        };
    }
    let room = work.len();
    if room < WORK {
        return Tracked {
            played: unplayed(58, 0, Fault::Run(run.len())),
            total: 0,
        };
    }
    if given {
        return track_run(&head, &table, run, instance, work);
    }
    let mut agenda = [0u8; AGENDA];
    let ended = play_run(&head, &table, run, work, &mut agenda);
    Tracked {
        played: answer_by(ended),
        total: 0,
    }
}

// The same: a small domain file gets a small table, since clearing a large one would cost more than a short run.
pub fn play_with(
    domain: &[u8],
    run: &[u8],
    instance: &[u8],
    given: bool,
    work: &mut [u8],
) -> Tracked
    ensures answer { result ≡ tracked_of (tracked_if given «domain».now instance.now run.now
        work.old) }
    ensures work { work.new ≡ (tracked_if given «domain».now instance.now run.now
        work.old).call.memory }
{
    if domain.len() <= 6 * FEW {
        return play_in::<FEW_ROWS>(domain, run, instance, given, work);
    }
    play_in::<ALL_ROWS>(domain, run, instance, given, work)
}

// Plays a run file on a domain file.
pub fn play_files(domain: &[u8], run: &[u8], work: &mut [u8]) -> PlayAnswer
    ensures answer { result ≡ answer_of (call «domain».now run.now work.old) }
    ensures work { work.new ≡ work_after «domain».now run.now work.old }
{
    let tracked = play_with(domain, run, &run[0..0], false, work);
    tracked.played
}

// Plays a run file on a domain file: leaves six numbers (the number, its place, the steps made, the highest weight, and of which file, 0
// the domain file and 1 the run file, and from which offset the record at fault comes back) and the facts in the work memory, and hands
// back that part. What it leaves is what the machine does on the start facts and steps of the run file, over the whole list; where the
// template is accepted and the start weighs at most 1, no state reached weighs more.
pub fn play<'a>(domain: &'a [u8], run: &'a [u8], work: &mut [u8], answer: &mut [u64; 6]) -> &'a [u8]
    ensures number { get_or answer.new 0 0
        ≡ (played «domain».now run.now work.old).number }
    ensures place { get_or answer.new 1 0 ≡ (played «domain».now run.now work.old).first }
    ensures steps { get_or answer.new 2 0 ≡ (played «domain».now run.now work.old).steps }
    ensures weight { get_or answer.new 3 0
        ≡ (played «domain».now run.now work.old).weight }
    ensures file { get_or answer.new 4 0
        ≡ file_of (returned «domain».now run.now work.old) }
    ensures offset { get_or answer.new 5 0
        ≡ offset_of (returned «domain».now run.now work.old) }
    ensures part { result.now ≡ returned_bytes «domain».now run.now (returned «domain».now
        run.now work.old) }
    ensures work { work.new ≡ work_after «domain».now run.now work.old }
    ensures machine { PlaysAsMachine «domain».now run.now work.old
        (get_or answer.new 0 0) (get_or answer.new 1 0)
        (get_or answer.new 2 0) (get_or answer.new 3 0) work.new }
    ensures low { StaysLow «domain».now run.now (get_or answer.new 3 0) }
{
    let told = play_files(domain, run, work);
    let fault = told.fault;
    let file = file_of(fault);
    let at = offset_of(fault);
    *answer = [
        told.number,
        told.place as u64,
        told.steps as u64,
        told.weight as u64,
        file,
        at as u64,
    ];
    part(domain, run, fault)
}
