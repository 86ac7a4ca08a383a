// The library for C and Rust: no call asks anything of its caller beyond memory that it may read and write.
#![tactic(auto)]

ghost use Rattle.std.specs.Prelude.{◌≡◌};
ghost use Rattle.verdict.specs.Judged.{judged, report_after, witness_after};
ghost use Rattle.verdict.specs.Claims.{DecidesFile, AcceptedSafe, RefusedHarmful, WitnessHarms};
ghost use Rattle.run_semantics.specs.Play.{played, work_after, returned};
ghost use Rattle.player.specs.Called.{file_of, offset_of};
ghost use Rattle.run_semantics.specs.Claims.{PlaysAsMachine, StaysLow, AsPlayed, TotalOfRun, NothingGained};
ghost use Rattle.run_semantics.specs.Track.{tracked};
ghost use Rattle.templates.specs.Templates.{list_file, list_after};
ghost use Rattle.templates.specs.Claims.{EntriesSafe, NothingMissing};
ghost use Rattle.totals.specs.Totals.{totalled, totals_after};
ghost use Rattle.totals.specs.Claims.{CountsFiles, AddsUp};
ghost use Rattle.trying.specs.Trying.{tried_file, tried_after};
ghost use Rattle.trying.specs.Claims.{AgreesWithNames};

use judging::judge;
use player::play::{file_of, offset_of, play_files};
use player::track::track_files;
use templates::list_templates;
use totals::count_box;
use trying::try_facts;

// Judges a domain file: answers the number, and leaves its three places, the report and the witness.
#[unsafe(no_mangle)]
pub extern "C" fn goadlotus_judge(
    file: &[u8],
    report: &mut [u8],
    witness: &mut [u8],
    first: &mut u64,
    second: &mut u64,
    third: &mut u64,
) -> u64
    ensures number { result ≡ (judged file.now report.old witness.old).number }
    ensures first { first.new ≡ (judged file.now report.old witness.old).first }
    ensures second { second.new ≡ (judged file.now report.old witness.old).second }
    ensures third { third.new ≡ (judged file.now report.old witness.old).third }
    ensures report { report.new ≡ report_after file.now report.old witness.old }
    ensures witness { witness.new ≡ witness_after file.now report.old witness.old }
    ensures decides { DecidesFile file.now result first.new second.new third.new }
    ensures safe { AcceptedSafe file.now result }
    ensures exact { RefusedHarmful file.now result }
    ensures shown { WitnessHarms file.now result witness.new
        first.new second.new third.new }
{
    let answer = judge(file, report, witness);
    *first = answer.first;
    *second = answer.second;
    *third = answer.third;
    answer.number
}

// Plays a run file on a domain file: answers the number, and leaves its place, the steps made, the highest weight, the facts in the work
// memory, and where the record at fault comes back from: the file (0 the domain file, 1 the run file) and the offset.
#[unsafe(no_mangle)]
pub extern "C" fn goadlotus_play(
    domain: &[u8],
    run: &[u8],
    work: &mut [u8],
    place: &mut u64,
    steps: &mut u64,
    weight: &mut u64,
    part_file: &mut u64,
    part_at: &mut u64,
) -> u64
    ensures number { result ≡ (played «domain».now run.now work.old).number }
    ensures place { place.new ≡ (played «domain».now run.now work.old).first }
    ensures steps { steps.new ≡ (played «domain».now run.now work.old).steps }
    ensures weight { weight.new ≡ (played «domain».now run.now work.old).weight }
    ensures work { work.new ≡ work_after «domain».now run.now work.old }
    ensures file { part_file.new ≡ file_of (returned «domain».now run.now work.old) }
    ensures offset { part_at.new ≡ offset_of (returned «domain».now run.now work.old) }
    ensures machine { PlaysAsMachine «domain».now run.now work.old result
        place.new steps.new weight.new work.new }
    ensures low { StaysLow «domain».now run.now weight.new }
{
    let answer = play_files(domain, run, work);
    let fault = answer.fault;
    *place = answer.place as u64;
    *steps = answer.steps as u64;
    *weight = answer.weight as u64;
    *part_file = file_of(fault);
    *part_at = offset_of(fault) as u64;
    answer.number
}

// Plays a run file on a domain file with an instance, a byte for each of its objects: answers and leaves what goadlotus_play does, and
// the instance's total after the last step made. (C has no generic calls: so it stands beside goadlotus_play.)
#[unsafe(no_mangle)]
pub extern "C" fn goadlotus_track(
    domain: &[u8],
    run: &[u8],
    instance: &[u8],
    work: &mut [u8],
    place: &mut u64,
    steps: &mut u64,
    weight: &mut u64,
    total: &mut u64,
    part_file: &mut u64,
    part_at: &mut u64,
) -> u64
    ensures number { result
        ≡ (tracked «domain».now instance.now run.now work.old).call.answer.number }
    ensures place { place.new
        ≡ (tracked «domain».now instance.now run.now work.old).call.answer.first }
    ensures steps { steps.new
        ≡ (tracked «domain».now instance.now run.now work.old).call.answer.steps }
    ensures weight { weight.new
        ≡ (tracked «domain».now instance.now run.now work.old).call.answer.weight }
    ensures total { total.new
        ≡ (tracked «domain».now instance.now run.now work.old).total }
    ensures work { work.new
        ≡ (tracked «domain».now instance.now run.now work.old).call.memory }
    ensures file { part_file.new
        ≡ file_of (tracked «domain».now instance.now run.now work.old).call.part }
    ensures offset { part_at.new
        ≡ offset_of (tracked «domain».now instance.now run.now work.old).call.part }
    ensures same { AsPlayed «domain».now instance.now run.now work.old }
    ensures last { TotalOfRun «domain».now instance.now run.now work.old
        total.new }
    ensures gained { NothingGained «domain».now instance.now run.now total.new }
{
    let told = track_files(domain, run, instance, work);
    let answer = told.played;
    let fault = answer.fault;
    *place = answer.place as u64;
    *steps = answer.steps as u64;
    *weight = answer.weight as u64;
    *total = told.total as u64;
    *part_file = file_of(fault);
    *part_at = offset_of(fault) as u64;
    answer.number
}

// Counts a box of domain files, each behind its length in 4 bytes: answers the number, and leaves its place and the totals.
#[unsafe(no_mangle)]
pub extern "C" fn goadlotus_totals(files: &[u8], totals: &mut [u8], first: &mut u64) -> u64
    ensures number { result ≡ (totalled files.now totals.old).number }
    ensures first { first.new ≡ (totalled files.now totals.old).first }
    ensures totals { totals.new ≡ totals_after files.now totals.old }
    ensures counts { CountsFiles files.now result totals.new }
    ensures sums { AddsUp files.now result totals.new }
{
    count_box(files, totals, first)
}

// Lists every template of a single relation of a domain file, with its verdict: answers the number, and leaves its place and the list,
// 3 bytes an entry: relation, counted place (FF for none), verdict.
#[unsafe(no_mangle)]
pub extern "C" fn goadlotus_templates(file: &[u8], list: &mut [u8], first: &mut u64) -> u64
    ensures number { result ≡ (list_file file.now list.old).number }
    ensures first { first.new ≡ (list_file file.now list.old).first }
    ensures list { list.new ≡ list_after file.now list.old }
    ensures safe { EntriesSafe file.now result first.new list.new }
    ensures whole { NothingMissing file.now result first.new list.new }
{
    list_templates(file, list, first)
}

// Tries the facts themselves, for every class of every action at once of a domain file: answers the number, and leaves its place and a byte
// a class in the report's order: 1 where two facts of the class's instance result from at most one, by one step of the machine, else 0.
#[unsafe(no_mangle)]
pub extern "C" fn goadlotus_try(file: &[u8], tried: &mut [u8], first: &mut u64) -> u64
    ensures number { result ≡ (tried_file file.now tried.old).number }
    ensures first { first.new ≡ (tried_file file.now tried.old).first }
    ensures tried { tried.new ≡ tried_after file.now tried.old }
    ensures names { AgreesWithNames file.now result first.new tried.new }
{
    try_facts(file, tried, first)
}
