// The counted places of components, and whether literals have FF there.
ghost use Rattle.std.specs.Prelude.{◌≡◌, ◌+◌, ◌*◌, ◌≤◌, ◌<◌, length};
ghost use Rattle.records.specs.Lists.{any, all, below};
ghost use Rattle.literals.specs.Decode.{max_arguments, max_literals, max_components};
ghost use Rattle.classes.specs.Held.{cleared_beside, cleared_at, counted_at, has_counted};

use literals::head::{Head, arity_of, component_byte};
use literals::{Argument, Label};

// Whether an argument is FF where the label beside it is.
fn is_cleared(label: u8, argument: u8) -> bool
    ensures { result ≡ cleared_beside label argument }
{
    Label::from(label) != Label::Counted || Argument::from(argument) == Argument::Every
}

// Whether the first n arguments of the row `j` are FF where the component `c` has it.
pub(crate) fn clears(head: &Head, rows: &[u8], c: usize, j: usize, n: usize) -> bool
    requires component { c < max_components }
    requires row { 8 * j + 8 ≤ length rows.now }
    requires literal { j < max_literals }
    requires arguments { n ≤ max_arguments }
    ensures { result ≡ all (cleared_at head.now rows.now c j) (below n) }
{
    (0..n).all(|i| is_cleared(component_byte(head, c, 1 + i), rows[8 * j + 2 + i]))
}

// Whether one of the first n labels of the component `c` is FF.
fn any_counted(head: &Head, c: usize, n: usize) -> bool
    requires component { c < max_components }
    requires arguments { n ≤ max_arguments }
    ensures { result ≡ any (counted_at head.now c) (below n) }
{
    (0..n).any(|i| Label::from(component_byte(head, c, 1 + i)) == Label::Counted)
}

// Whether the component `c` has a counted place.
#[tactic(auto, unfolding(crate::specs::Held::has_counted))]
pub(crate) fn has_counted(head: &Head, c: usize) -> bool
    requires { c < max_components }
    ensures { result ≡ has_counted head.now c }
{
    any_counted(
        head,
        c,
        usize::from(arity_of(head, component_byte(head, c, 0))),
    )
}
