// Events and open entries as the code holds them (here); the literals of an action as rows (facts), those of events as they count at
// a time, ground, in one memory (grounding); events that wait for the close of their step (waits), the list of open lasting actions
// (openings).
#![tactic(auto)]

pub mod facts;
pub mod grounding;
pub mod openings;
pub mod waits;

use literals::limits::{MAX_EVENTS, MAX_RUNNING, MAX_VARIABLES};

// The byte of an end's moment.
pub const END: u8 = 1;

// The row of an action with its objects: action, objects, FF to fill.
pub const GROUND: usize = 1 + MAX_VARIABLES;

// Room for the rows of what is open, and of the events of a step.
pub const OPEN_ROWS: usize = GROUND * MAX_RUNNING;

pub const WAITING_ROWS: usize = GROUND * MAX_EVENTS;

// What is open and what waits stand in one memory, the agenda: the entries, 0 behind the last; then of the events of the step that
// is read the byte of each one's moment, and their rows.
pub const MOMENTS_AT: usize = OPEN_ROWS;

pub const EVENTS_AT: usize = MOMENTS_AT + MAX_EVENTS;

pub const AGENDA: usize = EVENTS_AT + WAITING_ROWS;
