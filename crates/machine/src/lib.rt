// The machine: its state (here), and the step's close (step). Whether a step may be taken is decided in the crate
// applicability, what it leads to in effects and events; facts are held by the crate store.
#![tactic(auto)]

pub mod step;

// The machine's state, with the step that is read: how many facts are held, how many lasting actions are open, and how many events of the
// step wait. Their rows are lent: the facts in work memory, entries and events in the agenda.
#[derive(Clone, Copy, Debug, PartialEq, Eq)]
pub struct State {
    pub facts: usize,
    pub opened: usize,
    pub waits: usize,
}
