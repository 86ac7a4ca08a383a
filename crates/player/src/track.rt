// Playing with an instance: whether it stops the run, and its total at the end.
ghost use Rattle.std.specs.Prelude.{◌≡◌, true, ◌≤◌, length, get_or, unwrap_or, IfSome};
ghost use Rattle.records.specs.Memory.{over};
ghost use Rattle.literals.specs.Domain.{Domain};
ghost use Rattle.literals.specs.Held.{HeadOf, Held, Read};
ghost use Rattle.verdict.specs.Claims.{well_formed};
ghost use Rattle.run_semantics.specs.Play.{work_bytes, held_bytes, returned_bytes};
ghost use Rattle.run_semantics.specs.Track.{count_of, objects_given, instance_stop, track_run, reported_total, tracked};
ghost use Rattle.run_semantics.specs.Claims.{AsPlayed, TotalOfRun, NothingGained};
ghost use Rattle.run_semantics.specs.Numbers.{stopped_by};
ghost use Rattle.player.specs.Called.{file_of, offset_of};
ghost use Rattle.player.specs.Held.{answer_by, tracked_of};

use super::play::{Fault, PlayAnswer, Tracked, answer_by, file_of, offset_of, part, play_with};
use super::run::{WORK, play_run};
use events::AGENDA;
use journeys::total_of;
use literals::head::{Head, keys_in};
use records::bytes::{any_from, put_zeros};
use records::{Record, record_at};
use run_fields::kind::Kind;
use run_fields::objects_stop;
use run_semantics::Stop;

// The object count of a record of this kind and payload, if it is of kind 16 and nothing stops it.
fn count_of(kind: u16, p: &[u8]) -> Option<u8>
    ensures is { unwrap_or result 0 ≡ count_of kind p.now }
    ensures some { IfSome result (λ objects. 1 ≤ objects) }
{
    if Kind::try_from(kind) != Ok(Kind::Objects) {
        return None;
    }
    match objects_stop(None, p) {
        Ok(()) => Some(p[0]),
        Err(_) => None,
    }
}

// The object count of a run: that of its first record.
fn objects_given(run: &[u8]) -> Option<u8>
    ensures is { unwrap_or result 0 ≡ objects_given run.now }
    ensures some { IfSome result (λ objects. 1 ≤ objects) }
{
    let Record::Whole { kind, start, len } = record_at(run, 0) else {
        return None;
    };
    let end = start + len;
    count_of(kind, &run[start..end])
}

// Whether the instance stops the run: it has another count than the keys, or an object that the run does not have.
fn instance_stop(head: &Head, run: &[u8], instance: &[u8]) -> Result<(), Stop>
    ensures { (D : Domain) → HeadOf D head.now → stopped_by result ≡ instance_stop D instance.now run.now }
{
    match objects_given(run) {
        None => Ok(()),
        Some(objects) => {
            if instance.len() != keys_in(head) || any_from(instance, 0, objects) {
                return Err(Stop::NamesNothing);
            }
            Ok(())
        }
    }
}

// Plays a run file with an instance on a domain that was read.
pub fn track_run(head: &Head, table: &[u8], run: &[u8], instance: &[u8], work: &mut [u8]) -> Tracked
    requires domain { Read head.now table.now }
    requires room { work_bytes ≤ length work.old }
    ensures { (D : Domain) → Held D head.now table.now → well_formed D ≡ true
        → (result ≡ record {
          played = answer_by (track_run D instance.now run.now);
          total = reported_total D instance.now (track_run D instance.now run.now);
        })
        × (work.new ≡ over (held_bytes (track_run D instance.now run.now).facts) work.old) }
{
    if let Err(stop) = instance_stop(head, run, instance) {
        put_zeros(work, 0, WORK);
        return Tracked {
            played: PlayAnswer {
                number: stop.number(),
                place: 0,
                steps: 0,
                weight: 0,
                fault: Fault::Run(0),
            },
            total: 0,
        };
    }
    let mut agenda = [0u8; AGENDA];
    let ended = play_run(head, table, run, work, &mut agenda);
    if !ended.begun {
        return Tracked {
            played: answer_by(ended),
            total: 0,
        };
    }
    let total = total_of(
        head,
        table,
        work,
        ended.facts,
        &agenda,
        ended.opened,
        instance,
    );
    Tracked {
        played: answer_by(ended),
        total,
    }
}

// A domain file, an instance and a run file.
pub fn track_files(domain: &[u8], run: &[u8], instance: &[u8], work: &mut [u8]) -> Tracked
    ensures answer { result
        ≡ tracked_of (tracked «domain».now instance.now run.now work.old) }
    ensures work { work.new
        ≡ (tracked «domain».now instance.now run.now work.old).call.memory }
{
    play_with(domain, run, instance, true, work)
}

// Plays a run file on a domain file with an instance: leaves seven numbers (the number, its place, the steps made, the highest weight,
// the instance's total after the last step made, and of which file and from which offset the record at fault comes back) and the facts
// in the work memory, and hands back that part. Where the instance stops nothing, all but the total is as `play` has it; and for a
// template with verdict 1 the total is never above that of the start, where the instance weighs at most 1 there. (No one function for this
// and `play`: the total stands between their common numbers, so each place would depend on the length.)
pub fn track<'a>(
    domain: &'a [u8],
    run: &'a [u8],
    instance: &[u8],
    work: &mut [u8],
    answer: &mut [u64; 7],
) -> &'a [u8]
    ensures number { get_or answer.new 0 0
        ≡ (tracked «domain».now instance.now run.now work.old).call.answer.number }
    ensures place { get_or answer.new 1 0
        ≡ (tracked «domain».now instance.now run.now work.old).call.answer.first }
    ensures steps { get_or answer.new 2 0
        ≡ (tracked «domain».now instance.now run.now work.old).call.answer.steps }
    ensures weight { get_or answer.new 3 0
        ≡ (tracked «domain».now instance.now run.now work.old).call.answer.weight }
    ensures total { get_or answer.new 4 0
        ≡ (tracked «domain».now instance.now run.now work.old).total }
    ensures file { get_or answer.new 5 0
        ≡ file_of (tracked «domain».now instance.now run.now work.old).call.part }
    ensures offset { get_or answer.new 6 0
        ≡ offset_of (tracked «domain».now instance.now run.now work.old).call.part }
    ensures part { result.now ≡ returned_bytes «domain».now run.now
        (tracked «domain».now instance.now run.now work.old).call.part }
    ensures work { work.new
        ≡ (tracked «domain».now instance.now run.now work.old).call.memory }
    ensures same { AsPlayed «domain».now instance.now run.now work.old }
    ensures last { TotalOfRun «domain».now instance.now run.now work.old
        (get_or answer.new 4 0) }
    ensures gained { NothingGained «domain».now instance.now run.now
        (get_or answer.new 4 0) }
{
    let told = track_files(domain, run, instance, work);
    let played = told.played;
    let fault = played.fault;
    let file = file_of(fault);
    let at = offset_of(fault);
    *answer = [
        played.number,
        played.place as u64,
        played.steps as u64,
        played.weight as u64,
        told.total as u64,
        file,
        at as u64,
    ];
    part(domain, run, fault)
}
