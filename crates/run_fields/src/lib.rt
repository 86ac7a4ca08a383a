// The fields of a run file's records: each check answers what stops its record, if anything does. And what a record that
// passes adds: a row of a fact, an event that waits. The kinds of the records stand in kind.
#![tactic(auto)]

pub mod kind;

ghost use Rattle.std.specs.Prelude.{◌≡◌, ◌&&◌, not, List, map, ◌+◌, ◌*◌, ◌<◌, ◌≤◌, eqb, length, get_or, drop, OnOk};
ghost use Rattle.std.proofs.Math.Seq.{paste};
ghost use Rattle.records.specs.Lists.{any, distinct, below};
ghost use Rattle.literals.specs.Domain.{Fact, Domain};
ghost use Rattle.literals.specs.Held.{rows_in, lasting_in, HeadOf};
ghost use Rattle.literals.specs.Decode.{max_actions, max_variables, max_arguments};
ghost use Rattle.run_semantics.specs.RunFile.{max_objects, max_events, fact_of, event_of, objects_stop};
ghost use Rattle.run_semantics.specs.RunFile.{fact_stop, event_stop, step_stop, end_stop};
ghost use Rattle.run_semantics.specs.Numbers.{stopped_by};
ghost use Rattle.verdict.specs.Machine.{Event};
ghost use Rattle.verdict.specs.Held.{fact_row};
ghost use Rattle.store.specs.Held.{Few};
ghost use Rattle.events.specs.Held.{ground_bytes, waiting_bytes, ground_row, waiting_of, EventsFit};
ghost use Rattle.run_fields.specs.Held.{objects_or_0, fact_fields, event_fields, stands_again, waits_at};

use events::GROUND;
use events::openings::same_ground;
use literals::head::{Head, actions_in, arity_of, is_lasting, relations_in, variables_of};
use literals::limits::{MAX_EVENTS, MAX_FACTS, MAX_OBJECTS};
use records::bytes::{any_from, put_bytes};
use run_semantics::Stop;
use std::num::NonZeroU8;
use store::rows::has_row;

// ---- the object count, the close of a step and the close of the run

// Kind 16: the object count. `objects` is the count so far, none before its record.
#[tactic(auto, unfolding(run_semantics::specs::RunFile::objects_stop))]
pub fn objects_stop(objects: Option<NonZeroU8>, p: &[u8]) -> Result<(), Stop>
    ensures is { stopped_by result ≡ objects_stop (objects_or_0 objects) p.now }
    ensures fits { OnOk result ((length p.now ≡ 1) × (1 ≤ get_or p.now 0 0) × (get_or p.now 0 0 ≤ max_objects)) }
{
    if objects.is_some() || p.len() != 1 {
        return Err(Stop::Malformed);
    }
    if p[0] == 0 || MAX_OBJECTS < usize::from(p[0]) {
        return Err(Stop::NamesNothing);
    }
    Ok(())
}

// Kind 19: the close of a step has no fields.
#[tactic(auto, unfolding(run_semantics::specs::RunFile::step_stop))]
pub fn step_stop(objects: Option<NonZeroU8>, p: &[u8]) -> Result<(), Stop>
    ensures { stopped_by result ≡ step_stop (objects_or_0 objects) p.now }
{
    if objects.is_none() || p.len() != 0 {
        return Err(Stop::Malformed);
    }
    Ok(())
}

// Kind 20: the close of the run has no fields either, and no event waits.
pub fn end_stop(objects: Option<NonZeroU8>, waiting: usize, p: &[u8]) -> Result<(), Stop>
    ensures { (es : List Event) → length es ≡ waiting → stopped_by result ≡ end_stop (objects_or_0 objects) es p.now }
{
    step_stop(objects, p)?;
    if waiting != 0 {
        return Err(Stop::Malformed);
    }
    Ok(())
}

// ---- rows

// The row of a start fact: relation, how many objects, objects, FF to fill.
pub fn fact_row(p: &[u8]) -> [u8; 8]
    requires relation { 1 ≤ length p.now }
    requires objects { length p.now ≤ 1 + max_arguments }
    ensures { result ≡ fact_row (fact_of p.now) }
{
    let mut row = [255u8; 8];
    row[0] = p[0];
    row[1] = (p.len() - 1) as u8;
    put_bytes(&mut row, 2, &p[1..]);
    row
}

// The row of an event's action: action, objects, FF to fill.
pub fn ground_row(p: &[u8]) -> [u8; GROUND]
    requires action { 2 ≤ length p.now }
    requires objects { length p.now ≤ 2 + max_variables }
    ensures { result ≡ ground_row (event_of p.now).act }
{
    let mut row = [255u8; GROUND];
    put_bytes(&mut row, 0, &p[1..]);
    row
}

// Writes a fact's row behind the first n.
pub fn put_fact(work: &mut [u8], n: usize, row: [u8; 8])
    requires { 8 * n + 8 ≤ length work.old }
    ensures { work.new ≡ paste work.old (8 * n) row 8 }
{
    put_bytes(work, 8 * n, &row);
}

// ---- a start fact

// Kind 17, up to its objects: relation, objects. `begun` where a record of kind 18 to 20 came before.
#[tactic(auto, unfolding(crate::specs::Held::fact_fields))]
fn fact_fields(head: &Head, objects: Option<NonZeroU8>, begun: bool, p: &[u8]) -> Result<(), Stop>
    ensures { stopped_by result ≡ fact_fields head.now (objects_or_0 objects) begun p.now }
{
    let Some(objects) = objects else {
        return Err(Stop::Malformed);
    };
    if begun || p.len() < 1 {
        return Err(Stop::Malformed);
    }
    if relations_in(head) <= usize::from(p[0]) {
        return Err(Stop::NamesNothing);
    }
    if p.len() != 1 + usize::from(arity_of(head, p[0])) {
        return Err(Stop::Malformed);
    }
    if any_from(p, 1, objects.get()) {
        return Err(Stop::NamesNothing);
    }
    Ok(())
}

// Kind 17: a start fact, where the first n rows of the work memory are the facts so far; the 1,025th different one is too many.
pub fn fact_stop(
    head: &Head,
    objects: Option<NonZeroU8>,
    begun: bool,
    work: &[u8],
    n: usize,
    p: &[u8],
) -> Result<(), Stop>
    requires { 8 * n ≤ length work.now }
    ensures is { (D : Domain) (fs : List Fact) → HeadOf D head.now
        → rows_in n work.now ≡ map fact_row fs → n ≡ length fs → Few fs
        → stopped_by result ≡ fact_stop D (objects_or_0 objects) begun fs p.now }
    ensures fits { OnOk result ((1 ≤ length p.now) × (length p.now ≤ 1 + max_arguments)) }
{
    fact_fields(head, objects, begun, p)?;
    if n < MAX_FACTS || has_row(work, n, fact_row(p)) {
        return Ok(());
    }
    Err(Stop::TooMany)
}

// ---- an event

// Whether a moment is the end of an action that does not last.
fn ends_at_once(head: &Head, moment: u8, action: usize) -> bool
    requires { action < max_actions }
    ensures { result ≡ eqb moment 1 && not (lasting_in head.now action) }
{
    moment == 1 && !is_lasting(head, action)
}

// Kind 18, up to its objects: moment, action, objects. Moment 1 is the end of a lasting action.
#[tactic(auto, unfolding(crate::specs::Held::event_fields))]
fn event_fields(head: &Head, objects: Option<NonZeroU8>, p: &[u8]) -> Result<(), Stop>
    ensures { stopped_by result ≡ event_fields head.now (objects_or_0 objects) p.now }
{
    let Some(objects) = objects else {
        return Err(Stop::Malformed);
    };
    if p.len() < 2 {
        return Err(Stop::Malformed);
    }
    if 1 < p[0] {
        return Err(Stop::NamesNothing);
    }
    let action = usize::from(p[1]);
    if actions_in(head) <= action {
        return Err(Stop::NamesNothing);
    }
    if p.len() != 2 + usize::from(variables_of(head, action)) {
        return Err(Stop::Malformed);
    }
    if ends_at_once(head, p[0], action) || any_from(p, 2, objects.get()) {
        return Err(Stop::NamesNothing);
    }
    Ok(())
}

// Whether the byte at a place stands behind it again.
fn stands_again(p: &[u8], i: usize) -> bool
    requires { i < length p.now }
    ensures { result ≡ stands_again p.now i }
{
    p[i + 1..].contains(&p[i])
}

// Whether a byte from `from` on stands twice.
fn twice_from(p: &[u8], from: usize) -> bool
    ensures { result ≡ not (distinct eqb (drop from p.now)) }
{
    (from..p.len()).any(|i| stands_again(p, i))
}

// Whether the event at a place of those that wait is this one.
#[tactic(auto, unfolding(crate::specs::Held::waits_at))]
fn waits_at(moments: &[u8], rows: &[u8], moment: u8, act: &[u8], i: usize) -> bool
    requires moment { i < length moments.now }
    requires event { ground_bytes * i + ground_bytes ≤ length rows.now }
    requires row { length act.now ≡ ground_bytes }
    ensures { result ≡ waits_at moments.now rows.now moment act.now i }
{
    moment == moments[i] && same_ground(rows, GROUND * i, act)
}

// Whether this event waits: an action with objects, at the moment of this byte.
fn is_waiting(moments: &[u8], rows: &[u8], count: usize, moment: u8, act: [u8; GROUND]) -> bool
    requires few { count ≤ max_events }
    requires moments { length moments.now ≡ max_events }
    requires events { length rows.now ≡ waiting_bytes }
    ensures { result ≡ any (waits_at moments.now rows.now moment act) (below count) }
{
    (0..count).any(|i| waits_at(moments, rows, moment, &act, i))
}

// Kind 18: an event, where so many wait already.
pub fn event_stop(
    head: &Head,
    objects: Option<NonZeroU8>,
    moments: &[u8],
    rows: &[u8],
    count: usize,
    p: &[u8],
) -> Result<(), Stop>
    requires few { count ≤ max_events }
    requires moments { length moments.now ≡ max_events }
    requires events { length rows.now ≡ waiting_bytes }
    ensures is { (D : Domain) (es : List Event) → HeadOf D head.now → objects_or_0 objects ≤ max_objects
        → record { count = count; moments = moments.now; rows = rows.now } ≡ waiting_of es
        → EventsFit D es → stopped_by result ≡ event_stop D (objects_or_0 objects) es p.now }
    ensures fits { OnOk result ((2 ≤ length p.now) × (length p.now ≤ 2 + max_variables) × (count < max_events)) }
{
    event_fields(head, objects, p)?;
    if twice_from(p, 2) {
        return Err(Stop::BoundTwice);
    }
    if is_waiting(moments, rows, count, p[0], ground_row(p)) {
        return Err(Stop::EventRepeated);
    }
    if MAX_EVENTS <= count {
        return Err(Stop::TooMany);
    }
    Ok(())
}
