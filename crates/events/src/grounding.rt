// Ground literals: those of actions with their objects that count at a time, one behind the other in one memory. The conditions, the
// interference and the effects of a step are all worked out from them.
ghost use Rattle.std.specs.Prelude.{◌≡◌, List, [], ◌∷◌, ◌++◌, ◌+◌, ◌*◌, ◌<◌, ◌≤◌, length, get_or, take, drop};
ghost use Rattle.literals.specs.Domain.{Domain};
ghost use Rattle.literals.specs.Decode.{max_literals};
ghost use Rattle.literals.specs.Held.{rows_in, Held};
ghost use Rattle.literals.specs.Matching.{moment_number};
ghost use Rattle.verdict.specs.Machine.{GroundAction, Event};
ghost use Rattle.run_semantics.specs.RunFile.{max_events};
ghost use Rattle.events.specs.Held.{ground_bytes, waiting_bytes, ground_row, waiting_of, GroundFits, EventsFit, ground_literals};
ghost use Rattle.events.specs.Held.{event_literals, row_literals, max_ground, counts_at, grounded_bytes, ground_in, Grounded};

use super::facts::{bound_row, ground_at, time_at};
use literals::head::{Head, actions_in, rows_of};
use literals::limits::{MAX_EVENTS, MAX_LITERALS};
use literals::{Time, usage_for};

// How many a step has at most.
pub const MAX_GROUND: usize = MAX_EVENTS * MAX_LITERALS;

// Their memory, in sections: a row for each one (relation, arity, arguments: objects, or FF for every object; FF to fill), behind the rows
// a byte for each one's usage, and behind that a byte for each event of a step, how many it has.
pub const USAGES: usize = 8 * MAX_GROUND;

pub const COUNTS: usize = USAGES + MAX_GROUND;

pub const GROUNDED: usize = COUNTS + MAX_EVENTS;

// The bytes of the usages there: one more than the usage's number, so that 0 stands for none.
pub const TRUE_CONDITION: u8 = 1;

pub const FALSE_CONDITION: u8 = 2;

pub const ADD: u8 = 3;

pub const DELETE: u8 = 4;

// Appends a ground literal to the first n.
fn put_literal(memory: &mut [u8], n: usize, usage: u8, row: [u8; 8])
    requires memory { length memory.old ≡ grounded_bytes }
    requires room { n < max_ground }
    ensures literals { ground_in (n + 1) memory.new
        ≡ ground_in n memory.old ++ (record { usage = usage; row = row } ∷ []) }
    ensures counts { drop counts_at memory.new ≡ drop counts_at memory.old }
{
    memory[8 * n..8 * n + 8].copy_from_slice(&row);
    memory[USAGES + n] = usage;
}

// Appends that of the literal's row at an offset to the first n, if it counts at this time; answers the new count.
fn ground_literal(
    memory: &mut [u8],
    n: usize,
    time: Time,
    head: &Head,
    act: &[u8],
    rows: &[u8],
    row: usize,
) -> usize
    requires memory { length memory.old ≡ grounded_bytes }
    requires room { n < max_ground }
    requires bound { length act.now ≡ ground_bytes }
    requires literal { row + 8 ≤ length rows.now }
    ensures literals { ground_in result memory.new ≡ ground_in n memory.old
        ++ row_literals time head.now act.now (take 8 (drop row rows.now) ∷ []) }
    ensures counts { drop counts_at memory.new ≡ drop counts_at memory.old }
{
    let Some(usage) = usage_for(time, rows[row]) else {
        return n;
    };
    put_literal(
        memory,
        n,
        u8::from(usage) + 1,
        bound_row(head, act, rows, row),
    );
    n + 1
}

// Appends those of the first k rows of an action's literals to the first `at`; answers the new count.
fn ground_literals(
    memory: &mut [u8],
    at: usize,
    time: Time,
    head: &Head,
    act: &[u8],
    rows: &[u8],
    k: usize,
) -> usize
    requires memory { length memory.old ≡ grounded_bytes }
    requires room { at + k ≤ max_ground }
    requires bound { length act.now ≡ ground_bytes }
    requires literals { 8 * k ≤ length rows.now }
    ensures literals { ground_in result memory.new ≡ ground_in at memory.old
        ++ row_literals time head.now act.now (rows_in k rows.now) }
    ensures counts { drop counts_at memory.new ≡ drop counts_at memory.old }
{
    let mut n = at;
    for i in 0..k {
        n = ground_literal(memory, n, time, head, act, rows, 8 * i);
    }
    n
}

// Appends those of an action with its objects that count at this time to the first n; answers the new count.
pub fn ground_action(
    head: &Head,
    table: &[u8],
    time: Time,
    act: &[u8],
    memory: &mut [u8],
    n: usize,
) -> usize
    requires bound { length act.now ≡ ground_bytes }
    requires memory { length memory.old ≡ grounded_bytes }
    requires room { n + max_literals ≤ max_ground }
    ensures few { (n ≤ result) × (result ≤ n + max_literals) }
    ensures literals { (D : Domain) (g : GroundAction)
        → Held D head.now table.now → GroundFits D g → act.now ≡ ground_row g
        → ground_in result memory.new ≡ ground_in n memory.old ++ ground_literals D time g }
    ensures counts { drop counts_at memory.new ≡ drop counts_at memory.old }
{
    let action = usize::from(act[0]);
    if actions_in(head) <= action {
        return n;
    }
    let span = rows_of(head, table, action);
    let from = 8 * span.from;
    let to = 8 * span.to;
    ground_literals(
        memory,
        n,
        time,
        head,
        act,
        &table[from..to],
        span.to - span.from,
    )
}

// Appends those of the waiting event i.
fn ground_event(
    head: &Head,
    table: &[u8],
    moments: &[u8],
    events: &[u8],
    i: usize,
    memory: &mut [u8],
    n: usize,
) -> usize
    requires moments { length moments.now ≡ max_events }
    requires events { length events.now ≡ waiting_bytes }
    requires event { i < max_events }
    requires memory { length memory.old ≡ grounded_bytes }
    requires room { n + max_literals ≤ max_ground }
    ensures few { (n ≤ result) × (result ≤ n + max_literals) }
    ensures literals { (D : Domain) (e : Event)
        → Held D head.now table.now → GroundFits D e.act
        → get_or moments.now i 0 ≡ moment_number e.moment
        → take ground_bytes (drop (ground_bytes * i) events.now) ≡ ground_row e.act
        → ground_in result memory.new ≡ ground_in n memory.old ++ event_literals D e }
    ensures counts { drop counts_at memory.new ≡ drop counts_at memory.old }
{
    ground_action(
        head,
        table,
        time_at(moments[i]),
        ground_at(events, i),
        memory,
        n,
    )
}

// Writes those of every waiting event, in order; answers how many they are.
pub fn ground_step(
    head: &Head,
    table: &[u8],
    moments: &[u8],
    events: &[u8],
    count: usize,
    memory: &mut [u8],
) -> usize
    requires moments { length moments.now ≡ max_events }
    requires events { length events.now ≡ waiting_bytes }
    requires memory { length memory.old ≡ grounded_bytes }
    ensures few { result ≤ max_ground }
    ensures grounded { (D : Domain) (es : List Event)
        → Held D head.now table.now
        → record { count = count; moments = moments.now; rows = events.now } ≡ waiting_of es → EventsFit D es
        → length es ≤ max_events → Grounded D head.now es memory.new result }
{
    if MAX_EVENTS < count {
        return 0;
    }
    let mut n = 0;
    for i in 0..count {
        let end = ground_event(head, table, moments, events, i, memory, n);
        memory[COUNTS + i] = (end - n) as u8;
        n = end;
    }
    n
}
