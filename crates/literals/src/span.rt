// The rows of an action's literals in the table.

// From the first, up to the one behind the last.
#[derive(Clone, Copy)]
pub struct Span {
    pub from: usize,
    pub to: usize,
}
