// The step's close: what forbids it, and the state after it.
ghost use Rattle.std.specs.Prelude.{◌≡◌, List, [], ◌++◌, map, ℕ, ◌-◌, ◌*◌, ◌<◌, ◌≤◌, length, get_or, take, replicate, IfOk, OnOk, OnErr};
ghost use Rattle.records.specs.Lists.{In};
ghost use Rattle.records.specs.Memory.{over};
ghost use Rattle.literals.specs.declared.Object.{Object};
ghost use Rattle.literals.specs.Domain.{Domain};
ghost use Rattle.literals.specs.Held.{rows_in, Held};
ghost use Rattle.verdict.specs.Machine.{Event, State as MachineState, top_weight};
ghost use Rattle.verdict.specs.Held.{fact_row};
ghost use Rattle.store.specs.Held.{note_at, Indexed};
ghost use Rattle.run_semantics.specs.RunFile.{max_facts};
ghost use Rattle.run_semantics.specs.Play.{forbidden};
ghost use Rattle.run_semantics.specs.Numbers.{stopped_by};
ghost use Rattle.events.specs.Held.{agenda_bytes, agenda_open, open_of, max_ground, grounded_bytes, Grounded};
ghost use Rattle.effects.specs.Held.{scratch_bytes, literals_in};
ghost use Rattle.machine.specs.Held.{state_in, state_of, Kept, StepHeld, Noted, Closable, close_stop, close_state, Leaves};
ghost use Rattle.machine.specs.Held.{state_left, weight_left};

use super::State;
use applicability::conditions::{events_met, open_met};
use applicability::interference::independent;
use effects::facts_after;
use events::grounding::{GROUNDED, ground_step};
use events::openings::{agenda_after, ends_open};
use events::{AGENDA, EVENTS_AT, MOMENTS_AT};
use literals::head::Head;
use records::bytes::{put_bytes, put_zeros};
use run_semantics::Stop;
use store::index::{FactIndex, NOTE};
use store::weighing::top_from;

// What closing a step led to: the state after it, and the highest weight.
#[derive(Clone, Copy, Debug, PartialEq, Eq)]
pub struct Closed {
    pub state: State,
    pub weight: usize,
}

// The first n rows of a memory in place of the rows that the work memory holds; zeros where it held more.
fn settle(work: &mut [u8], held: usize, rows: &[u8], n: usize)
    requires held_few { held ≤ max_facts }
    requires held { 8 * held ≤ length work.old }
    requires few { n ≤ max_facts }
    requires room { 8 * n ≤ length work.old }
    requires rows { 8 * n ≤ length rows.now }
    ensures { work.new
        ≡ over (take (8 * n) rows.now ++ replicate (8 * held - 8 * n) 0) work.old }
{
    let end = 8 * n;
    put_bytes(work, 0, &rows[..end]);
    if n < held {
        put_zeros(work, end, 8 * held - end);
    }
}

// Whether a step may be taken: it may not where an end is not open, a condition fails, or events interfere. Where nothing forbids it, its
// ground literals are in the memory afterwards, and so many come back.
fn forbidden(
    head: &Head,
    table: &[u8],
    agenda: &[u8],
    state: State,
    memory: &mut [u8],
    index: &FactIndex,
    work: &[u8],
) -> Result<usize, Stop>
    requires agenda { length agenda.now ≡ agenda_bytes }
    requires memory { length memory.old ≡ grounded_bytes }
    requires few { state.facts ≤ max_facts }
    requires facts { 8 * state.facts ≤ length work.now }
    ensures few { IfOk result (λ literals. literals ≤ max_ground) }
    ensures asked { (D : Domain) (objs : List Object) (s : MachineState) (es : List Event)
        → Held D head.now table.now → (o : Object) × In o objs → Kept D objs s es
        → state_in state agenda.now ≡ state_of s es
        → rows_in state.facts work.now ≡ map fact_row s.facts
        → Indexed head.now index.now (map fact_row s.facts)
        → (stopped_by result ≡ forbidden D objs s es)
        × IfOk result (λ literals. Grounded D head.now es memory.new literals) }
{
    let entries = &agenda[0..MOMENTS_AT];
    let moments = &agenda[MOMENTS_AT..EVENTS_AT];
    let events = &agenda[EVENTS_AT..AGENDA];
    if !ends_open(entries, state.opened, moments, events, state.waits) {
        return Err(Stop::EndNotOpen);
    }
    if !open_met(
        head,
        table,
        entries,
        state.opened,
        memory,
        index,
        work,
        state.facts,
    ) {
        return Err(Stop::ConditionFails);
    }
    let literals = ground_step(head, table, moments, events, state.waits, memory);
    if !events_met(memory, literals, index, work, state.facts) {
        return Err(Stop::ConditionFails);
    }
    if !independent(memory, state.waits, literals) {
        return Err(Stop::Interference);
    }
    Ok(literals)
}

// Takes a step that nothing forbids: its facts are then in the work memory, its entries in the agenda, and no event waits. Where facts or
// entries are too many, both memories are as they were. The facts are put together in `scratch` first, which holds the step's ground
// literals, `literals` of them.
fn advance(
    head: &Head,
    agenda: &mut [u8],
    state: State,
    index: &mut FactIndex,
    work: &mut [u8],
    weight: usize,
    scratch: &mut [u8],
    literals: usize,
) -> Result<Closed, Stop>
    requires closable { Closable state.facts work.old }
    requires agenda { length agenda.old ≡ agenda_bytes }
    requires scratch { length scratch.old ≡ scratch_bytes }
    requires literals { literals ≤ max_ground }
    ensures leaves { (D : Domain) (objs : List Object) (s : MachineState) (es : List Event) (table old : List ℕ)
        → StepHeld D objs s es head.now table (state_in state agenda.old) work.old old
        → Grounded D head.now es (literals_in scratch.old) literals
        → top_weight D s.facts ≤ weight → forbidden D objs s es ≡ 0
        → Indexed head.now index.old (map fact_row s.facts)
        → Leaves D objs s es old weight (stopped_by result)
        (state_in (state_left state result) agenda.new) (weight_left weight result) work.new }
    ensures indexed { (D : Domain) (objs : List Object) (s : MachineState) (es : List Event) (table old : List ℕ)
        → StepHeld D objs s es head.now table (state_in state agenda.old) work.old old
        → Grounded D head.now es (literals_in scratch.old) literals
        → forbidden D objs s es ≡ 0
        → Indexed head.now index.old (map fact_row s.facts)
        → OnOk result (Indexed head.now index.new (map fact_row (close_state D objs s es).facts)) }
    ensures beside { get_or index.new note_at 0 ≡ get_or index.old note_at 0 }
    ensures refused { OnErr result (agenda.new ≡ agenda.old) }
{
    let after = facts_after(head, work, state.facts, scratch, literals, index);
    let Some(facts) = after.facts else {
        return Err(Stop::TooMany);
    };
    let Some(opened) = agenda_after(head, agenda, state.opened, state.waits) else {
        return Err(Stop::TooMany);
    };
    settle(work, state.facts, scratch, facts);
    let highest = top_from(head, work, facts, after.kept, weight, index);
    Ok(Closed {
        state: State {
            facts,
            opened,
            waits: 0,
        },
        weight: highest,
    })
}

// A step without events, which changes nothing: the over-all conditions of everything open are asked, unless the index's last
// number says that they hold. The agenda is asked where it stands: for so short a step a copy would cost the most.
pub fn rest(
    head: &Head,
    table: &[u8],
    agenda: &[u8],
    state: State,
    memory: &mut [u8],
    index: &mut FactIndex,
    work: &[u8],
) -> Result<(), Stop>
    requires agenda { length agenda.now ≡ agenda_bytes }
    requires memory { length memory.old ≡ grounded_bytes }
    requires few { state.facts ≤ max_facts }
    requires facts { 8 * state.facts ≤ length work.now }
    ensures { (D : Domain) (objs : List Object) (s : MachineState)
        → Held D head.now table.now → Kept D objs s []
        → agenda_open state.opened agenda.now ≡ open_of s.running
        → rows_in state.facts work.now ≡ map fact_row s.facts
        → Noted D objs head.now index.old s
        → (stopped_by result ≡ close_stop D objs s [])
        × OnOk result (Noted D objs head.now index.new (close_state D objs s [])) }
{
    if index[NOTE] != 1 {
        if !open_met(
            head,
            table,
            &agenda[0..MOMENTS_AT],
            state.opened,
            memory,
            index,
            work,
            state.facts,
        ) {
            return Err(Stop::ConditionFails);
        }
        index[NOTE] = 1;
    }
    Ok(())
}

impl State {
    // Closes the step that is read: takes it, or refuses it and changes nothing but the index and `scratch`, which is memory to work in.
    // The agenda is changed where it stands, since a copy of it would cost much of a short step.
    pub fn step(
        self,
        head: &Head,
        table: &[u8],
        agenda: &mut [u8],
        work: &mut [u8],
        weight: usize,
        index: &mut FactIndex,
        scratch: &mut [u8],
    ) -> Result<Closed, Stop>
        requires closable { Closable self.facts work.old }
        requires agenda { length agenda.old ≡ agenda_bytes }
        requires scratch { length scratch.old ≡ scratch_bytes }
        ensures leaves { (D : Domain) (objs : List Object) (s : MachineState) (es : List Event) (old : List ℕ)
            → StepHeld D objs s es head.now table.now (state_in self agenda.old) work.old old
            → top_weight D s.facts ≤ weight → Noted D objs head.now index.old s
            → Leaves D objs s es old weight (stopped_by result)
            (state_in (state_left self result) agenda.new) (weight_left weight result) work.new }
        ensures noted { (D : Domain) (objs : List Object) (s : MachineState) (es : List Event) (old : List ℕ)
            → StepHeld D objs s es head.now table.now (state_in self agenda.old) work.old old
            → Noted D objs head.now index.old s
            → OnOk result (Noted D objs head.now index.new (close_state D objs s es)) }
        ensures refused { OnErr result (agenda.new ≡ agenda.old) }
    {
        index[NOTE] = 0;
        let literals = forbidden(
            head,
            table,
            agenda,
            self,
            &mut scratch[0..GROUNDED],
            index,
            work,
        )?;
        advance(head, agenda, self, index, work, weight, scratch, literals)
    }
}
