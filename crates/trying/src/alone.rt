// One step of the machine from an action's true conditions alone.
ghost use Rattle.std.specs.Prelude.{◌≡◌, true, [], ℕ, ◌*◌, ◌≤◌, ◌<◌, length};
ghost use Rattle.literals.specs.Domain.{Domain};
ghost use Rattle.literals.specs.Decode.{max_actions, max_variables, max_literals};
ghost use Rattle.literals.specs.Held.{rows_in, Held};
ghost use Rattle.verdict.specs.Claims.{well_formed};
ghost use Rattle.store.specs.Held.{Sized, Indexed};
ghost use Rattle.effects.specs.Held.{scratch_bytes, effects_in, Once};
ghost use Rattle.trying.specs.Held.{ActionHeld, BaseOf, FewOf, AloneOf};

use super::plain::ground_plain;
use applicability::conditions::events_met;
use effects::{SCRATCH, facts_after, step_effects};
use events::grounding::{GROUNDED, TRUE_CONDITION};
use literals::head::{Head, variables_of};
use literals::limits::MAX_FACTS;
use records::bytes::put_bytes;
use store::index::{FACT_INDEX, FactIndex, enter};

// What an action brings with it: how many variables it has, how many ground literals, and how many true conditions.
#[derive(Clone, Copy)]
pub struct Base {
    pub variables: u8,
    pub literals: usize,
    pub held: usize,
}

// Besides, what the step from the true conditions comes to: whether it is allowed, and how many facts it leaves.
#[derive(Clone, Copy)]
pub struct Alone {
    pub counts: Base,
    pub allowed: bool,
    pub left: usize,
}

// Enters the first n rows of a memory into an index of none.
fn enter_rows(head: &Head, rows: &[u8], n: usize, index: &mut FactIndex)
    requires { 8 * n ≤ length rows.now }
    ensures { Indexed head.now index.old [] → Sized head.now (rows_in n rows.now)
        → Indexed head.now index.new (rows_in n rows.now) }
{
    for i in 0..n {
        enter(index, head, rows, 8 * i);
    }
}

// The ground literals of the action i, and behind them its true conditions.
fn ground_base(head: &Head, table: &[u8], i: usize, base: &mut [u8]) -> Base
    requires action { i < max_actions }
    requires base { length base.old ≡ scratch_bytes }
    ensures few { (result.variables ≤ max_variables) × (result.literals ≤ max_literals) × (result.held ≤ max_literals) }
    ensures base { (D : Domain) → Held D head.now table.now → well_formed D ≡ true
        → i < length D.actions → BaseOf D i head.now result base.new }
{
    let literals = ground_plain(head, table, i, &mut base[0..GROUNDED]);
    let held = step_effects(base, 0, literals, TRUE_CONDITION);
    Base {
        variables: variables_of(head, i),
        literals,
        held,
    }
}

// One step from them: `after` gets the facts that it leaves. The index serves this step alone.
fn step_base(head: &Head, base: &[u8], counts: Base, after: &mut [u8]) -> Alone
    requires variables { counts.variables ≤ max_variables }
    requires literals { counts.literals ≤ max_literals }
    requires held { counts.held ≤ max_literals }
    requires base { length base.now ≡ scratch_bytes }
    requires after { length after.old ≡ scratch_bytes }
    requires once { Once (rows_in counts.held (effects_in base.now)) }
    ensures few { FewOf result }
    ensures alone { (D : Domain) (i : ℕ) → well_formed D ≡ true → i < length D.actions
        → BaseOf D i head.now counts base.now
        → AloneOf D i head.now result base.now after.new }
{
    let literals = &base[0..GROUNDED];
    let held = &base[GROUNDED..SCRATCH];
    put_bytes(after, 0, base);
    let mut index = [0u64; FACT_INDEX];
    enter_rows(head, held, counts.held, &mut index);
    let allowed = events_met(literals, counts.literals, &index, held, counts.held);
    let left = facts_after(head, held, counts.held, after, counts.literals, &mut index);
    Alone {
        counts,
        allowed,
        left: left.facts.unwrap_or(MAX_FACTS + 1),
    }
}

// Both, of the action i.
pub fn step_alone(head: &Head, table: &[u8], i: usize, base: &mut [u8], after: &mut [u8]) -> Alone
    requires action { i < max_actions }
    requires listed { ActionHeld head.now table.now i }
    requires base { length base.old ≡ scratch_bytes }
    requires after { length after.old ≡ scratch_bytes }
    ensures few { FewOf result }
    ensures alone { (D : Domain) → Held D head.now table.now → well_formed D ≡ true
        → i < length D.actions → AloneOf D i head.now result base.new after.new }
{
    let counts = ground_base(head, table, i, base);
    step_base(head, base, counts, after)
}
