// The list of open lasting actions: which ends are open, and what a step leaves of it. An entry is a row of 17 bytes: action,
// objects, FF to fill.
ghost use Rattle.std.specs.Prelude.{◌≡◌, List, [], ◌++◌, ℕ, ◌+◌, ◌*◌, ◌≤◌, ◌<◌, eqb, leb, length, get_or, take, drop, replicate};
ghost use Rattle.std.specs.Prelude.{Some, None, is_some};
ghost use Rattle.records.specs.Lists.{all, below, same_list};
ghost use Rattle.literals.specs.Domain.{Domain};
ghost use Rattle.literals.specs.Held.{Bounded, HeadOf};
ghost use Rattle.verdict.specs.Machine.{GroundAction, Event, is_open, close_all, opened_by};
ghost use Rattle.events.specs.Held.{ground_bytes, open_bytes, waiting_bytes, grounds_in, open_of, waiting_of, GroundsFit, EventsFit};
ghost use Rattle.events.specs.Held.{event_at, events_in, end_open, entry_place, close_entry, close_event};
ghost use Rattle.events.specs.Held.{close_events, join_entry, opens_by, join_event};
ghost use Rattle.events.specs.Held.{join_events, count_after, rows_after, agenda_bytes, agenda_open, agenda_waiting};
ghost use Rattle.store.specs.Held.{has_row};
ghost use Rattle.run_semantics.specs.RunFile.{max_running, max_events};

use super::facts::ground_at;
use super::{AGENDA, END, EVENTS_AT, GROUND, MOMENTS_AT, OPEN_ROWS};
use literals::head::{Head, actions_in, is_lasting};
use literals::limits::{MAX_EVENTS, MAX_RUNNING};
use records::bytes::{put_bytes, put_zeros};

// The offset of the last entry that there is room for.
const LAST_ROW: usize = OPEN_ROWS - GROUND;

// The events that wait: the byte of each one's moment, and the rows of their actions with objects.
#[derive(Clone, Copy)]
struct Waiting<'a> {
    moments: &'a [u8],
    rows: &'a [u8],
    count: usize,
    ghost moments_sized: { length moments.now ≡ max_events },
    ghost rows_sized: { length rows.now ≡ waiting_bytes },
    ghost few: { count ≤ max_events },
}

// Whether the bytes of the entry at an offset are these.
fn same_bytes(memory: &[u8], at: usize, act: &[u8]) -> bool
    requires entry { at + ground_bytes ≤ length memory.now }
    requires row { length act.now ≡ ground_bytes }
    ensures { result ≡ all (λ i. eqb (get_or act.now i 0) (get_or memory.now (at + i) 0)) (below ground_bytes) }
{
    (0..GROUND).all(|i| act[i] == memory[at + i])
}

// Whether the entry at an offset is this one. (Byte by byte, and not by slices: `==` of slices is a call for each entry that is looked at.)
pub fn same_ground(memory: &[u8], at: usize, act: &[u8]) -> bool
    requires entry { at + ground_bytes ≤ length memory.now }
    requires row { length act.now ≡ ground_bytes }
    ensures { result ≡ same_list eqb act.now (take ground_bytes (drop at memory.now)) }
{
    same_bytes(memory, at, act)
}

// The number of the first of n entries that is this one.
fn entry_of(rows: &[u8], n: usize, act: &[u8]) -> Option<usize>
    requires entries { ground_bytes * n ≤ length rows.now }
    requires row { length act.now ≡ ground_bytes }
    ensures { result ≡ entry_place act.now (grounds_in n rows.now) }
{
    (0..n).position(|k| same_ground(rows, GROUND * k, act))
}

// Whether one of n entries is this one.
fn is_open(rows: &[u8], n: usize, act: &[u8]) -> bool
    requires entries { ground_bytes * n ≤ length rows.now }
    requires row { length act.now ≡ ground_bytes }
    ensures { result ≡ has_row act.now (grounds_in n rows.now) }
{
    (0..n).any(|k| same_ground(rows, GROUND * k, act))
}

// Whether the waiting event i, where it is an end, is open.
#[tactic(auto, unfolding(crate::specs::Held::end_open))]
fn end_open(rows: &[u8], n: usize, waiting: &Waiting, i: usize) -> bool
    requires entries { ground_bytes * n ≤ length rows.now }
    requires event { i < max_events }
    ensures { result ≡ end_open (grounds_in n rows.now) (event_at waiting.now.moments.now waiting.now.rows.now i) }
{
    waiting.moments[i] != END || is_open(rows, n, ground_at(waiting.rows, i))
}

// Whether every end of the waiting events is open.
fn all_open(rows: &[u8], n: usize, waiting: &Waiting) -> bool
    requires entries { ground_bytes * n ≤ length rows.now }
    ensures { result ≡ all (end_open (grounds_in n rows.now))
        (events_in waiting.now.count waiting.now.moments.now waiting.now.rows.now) }
{
    (0..waiting.count).all(|i| end_open(rows, n, waiting, i))
}

// Whether every end of the step is open, by the entries and events of which there are so many.
pub fn ends_open(rows: &[u8], n: usize, moments: &[u8], events: &[u8], count: usize) -> bool
    requires entries { length rows.now ≡ open_bytes }
    requires moments { length moments.now ≡ max_events }
    requires events { length events.now ≡ waiting_bytes }
    ensures { (D : Domain) (gs : List GroundAction) (es : List Event) → Bounded D → GroundsFit D gs → EventsFit D es
        → length gs ≤ max_running → length es ≤ max_events
        → record { count = n; rows = rows.now } ≡ open_of gs
        → record { count = count; moments = moments.now; rows = events.now } ≡ waiting_of es
        → result ≡ all (is_open gs) es }
{
    if MAX_EVENTS < count || MAX_RUNNING < n {
        return false;
    }
    let waiting = Waiting {
        moments,
        rows: events,
        count,
    };
    all_open(rows, n, &waiting)
}

// Whether an event of this moment and action is the start of a lasting action.
#[tactic(auto, unfolding(crate::specs::Held::opens_by))]
fn opens_entry(head: &Head, moment: u8, action: u8) -> bool
    ensures { result ≡ opens_by head.now moment action }
{
    let i = usize::from(action);
    moment != END && i < actions_in(head) && is_lasting(head, i)
}

// Removes the entry k: the later ones move forward, zeros fill the end. (From a copy of 544 bytes: `rotate_left` clears 4,096 for itself.)
fn without(rows: &mut [u8], k: usize)
    requires entries { length rows.old ≡ open_bytes }
    requires entry { k < max_running }
    ensures { rows.new ≡ take (ground_bytes * k) rows.old
        ++ (drop (ground_bytes * k + ground_bytes) rows.old ++ replicate ground_bytes 0) }
{
    let mut old = [0u8; OPEN_ROWS];
    put_bytes(&mut old, 0, rows);
    put_bytes(rows, GROUND * k, &old[GROUND * k + GROUND..]);
    put_zeros(rows, LAST_ROW, GROUND);
}

// Takes the first of n entries that is this one out; the count afterwards.
fn close(rows: &mut [u8], n: usize, act: &[u8]) -> usize
    requires entries { length rows.old ≡ open_bytes }
    requires few { n ≤ max_running }
    requires entry { length act.now ≡ ground_bytes }
    ensures { record { count = result; rows = rows.new }
        ≡ close_entry act.now (record { count = n; rows = rows.old }) }
{
    let Some(k) = entry_of(rows, n, act) else {
        return n;
    };
    without(rows, k);
    n - 1
}

// Takes the entry of the event i out, where it is an end; the count afterwards.
#[tactic(auto, unfolding(crate::specs::Held::close_event))]
fn close_event(rows: &mut [u8], n: usize, waiting: &Waiting, i: usize) -> usize
    requires entries { length rows.old ≡ open_bytes }
    requires few { n ≤ max_running }
    requires event { i < max_events }
    ensures { record { count = result; rows = rows.new }
        ≡ close_event (event_at waiting.now.moments.now waiting.now.rows.now i) (record { count = n; rows = rows.old }) }
{
    if waiting.moments[i] != END {
        return n;
    }
    close(rows, n, ground_at(waiting.rows, i))
}

// Takes the entries of the ends among the waiting events out; the count of entries afterwards.
fn close_all(rows: &mut [u8], n: usize, waiting: &Waiting) -> usize
    requires entries { length rows.old ≡ open_bytes }
    requires few { n ≤ max_running }
    ensures { record { count = result; rows = rows.new }
        ≡ close_events (events_in waiting.now.count waiting.now.moments.now waiting.now.rows.now) (record { count = n; rows = rows.old }) }
{
    let mut left = n;
    for i in 0..waiting.count {
        left = close_event(rows, left, waiting, i);
    }
    left
}

// Puts an entry behind the first n.
fn join(rows: &mut [u8], n: usize, act: &[u8])
    requires entries { length rows.old ≡ open_bytes }
    requires few { n < max_running }
    requires entry { length act.now ≡ ground_bytes }
    ensures { record { count = n + 1; rows = rows.new }
        ≡ join_entry act.now (record { count = n; rows = rows.old }) }
{
    let at = GROUND * n;
    rows[at..at + GROUND].copy_from_slice(act);
}

// Puts the entry of the event i behind the first n, where it is the start of a lasting action; the count of entries afterwards, if there is
// room for it.
#[tactic(auto, unfolding(crate::specs::Held::join_event))]
fn join_event(head: &Head, rows: &mut [u8], n: usize, waiting: &Waiting, i: usize) -> Option<usize>
    requires entries { length rows.old ≡ open_bytes }
    requires few { n ≤ max_running }
    requires event { i < max_events }
    ensures count { result ≡ count_after (join_event head.now (event_at waiting.now.moments.now waiting.now.rows.now i)
        (record { count = n; rows = rows.old })) }
    ensures rows { rows.new ≡ rows_after (join_event head.now (event_at waiting.now.moments.now waiting.now.rows.now i)
        (record { count = n; rows = rows.old })) }
{
    let act = ground_at(waiting.rows, i);
    if !opens_entry(head, waiting.moments[i], act[0]) {
        return Some(n);
    }
    if MAX_RUNNING <= n {
        return None;
    }
    join(rows, n, act);
    Some(n + 1)
}

// Puts the entries of the starts of lasting actions among the waiting events behind the first n, up to the first for
// which there is no room.
fn join_all(head: &Head, rows: &mut [u8], n: usize, waiting: &Waiting) -> Option<usize>
    requires entries { length rows.old ≡ open_bytes }
    requires few { n ≤ max_running }
    ensures count { result ≡ count_after (join_events head.now (events_in waiting.now.count waiting.now.moments.now waiting.now.rows.now)
        (record { count = n; rows = rows.old })) }
    ensures rows { rows.new ≡ rows_after (join_events head.now (events_in waiting.now.count waiting.now.moments.now waiting.now.rows.now)
        (record { count = n; rows = rows.old })) }
{
    let mut held = n;
    for i in 0..waiting.count {
        held = join_event(head, rows, held, waiting, i)?;
    }
    Some(held)
}

// The entries after a step, in place of those before it: ends are removed, starts of lasting actions are added. Where they do not fit,
// nothing is said of the entries that are left there.
fn open_after(
    head: &Head,
    rows: &mut [u8],
    n: usize,
    moments: &[u8],
    events: &[u8],
    count: usize,
) -> Option<usize>
    requires entries { length rows.old ≡ open_bytes }
    requires moments { length moments.now ≡ max_events }
    requires events { length events.now ≡ waiting_bytes }
    ensures { (D : Domain) (gs : List GroundAction) (es : List Event)
        → HeadOf D head.now → GroundsFit D gs → EventsFit D es → length gs ≤ max_running → length es ≤ max_events
        → record { count = n; rows = rows.old } ≡ open_of gs
        → record { count = count; moments = moments.now; rows = events.now } ≡ waiting_of es
        → (is_some result ≡ leb (length (close_all es gs ++ opened_by D es)) max_running)
        × ((m : ℕ) → result ≡ Some m → record { count = m; rows = rows.new } ≡ open_of (close_all es gs ++ opened_by D es)) }
{
    if MAX_EVENTS < count || MAX_RUNNING < n {
        return None;
    }
    let waiting = Waiting {
        moments,
        rows: events,
        count,
    };
    let left = close_all(rows, n, &waiting);
    join_all(head, rows, left, &waiting)
}

// The agenda after a step: ends are removed, starts of lasting actions are added, and no event waits; the count of entries, where they fit.
// Where they do not, it is as it was: they are worked out beside it.
pub fn agenda_after(head: &Head, agenda: &mut [u8], opened: usize, waits: usize) -> Option<usize>
    requires { length agenda.old ≡ agenda_bytes }
    ensures joined { (D : Domain) (gs : List GroundAction) (es : List Event)
        → HeadOf D head.now → GroundsFit D gs → EventsFit D es → length gs ≤ max_running → length es ≤ max_events
        → agenda_open opened agenda.old ≡ open_of gs → agenda_waiting waits agenda.old ≡ waiting_of es
        → (is_some result ≡ leb (length (close_all es gs ++ opened_by D es)) max_running)
        × ((n : ℕ) → result ≡ Some n → agenda_open n agenda.new ≡ open_of (close_all es gs ++ opened_by D es)) }
    ensures waits { (n : ℕ) → result ≡ Some n → agenda_waiting 0 agenda.new ≡ waiting_of [] }
    ensures refused { result ≡ None → agenda.new ≡ agenda.old }
{
    let mut rows = [0u8; OPEN_ROWS];
    rows.copy_from_slice(&agenda[0..OPEN_ROWS]);
    let count = open_after(
        head,
        &mut rows,
        opened,
        &agenda[MOMENTS_AT..EVENTS_AT],
        &agenda[EVENTS_AT..AGENDA],
        waits,
    )?;
    agenda[0..OPEN_ROWS].copy_from_slice(&rows);
    agenda[MOMENTS_AT..AGENDA].fill(0);
    Some(count)
}
