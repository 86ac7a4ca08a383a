// Weights of instances, by the rows of facts: an instance is the key tuple of a fact, as a row of 8 bytes.
ghost use Rattle.std.specs.Prelude.{◌≡◌, List, map, ℕ, ◌+◌, ◌*◌, ◌<◌, ◌≤◌, max, eqb, length, take, drop};
ghost use Rattle.records.specs.Lists.{In, add_if, any, same_list};
ghost use Rattle.literals.specs.Domain.{Fact, Domain};
ghost use Rattle.literals.specs.Held.{rows_in, keys_in, component_rows_in, HeadOf};
ghost use Rattle.verdict.specs.Machine.{largest};
ghost use Rattle.verdict.specs.Held.{fact_row};
ghost use Rattle.store.specs.Held.{FactFits, instance_rows, top_from, row_weight, top_rows, wrap, Indexed};

use super::index::{FactIndex, INSTANCES, key_slot};
use super::keys::key_of;
use literals::head::Head;

// Whether the fact at an offset has this key tuple: the component by the fact's relation first, then its keys.
fn has_key(head: &Head, memory: &[u8], at: usize, row: [u8; 8]) -> bool
    requires { at + 8 ≤ length memory.now }
    ensures { result ≡ any (same_list eqb row)
        (instance_rows (keys_in head.now) (component_rows_in head.now) (take 8 (drop at memory.now))) }
{
    match key_of(head, memory, at) {
        Some(other) => row == other,
        None => false,
    }
}

// 1 where the fact at an offset has this key tuple, else 0.
pub fn weight_at(head: &Head, memory: &[u8], at: usize, row: [u8; 8]) -> usize
    requires { at + 8 ≤ length memory.now }
    ensures { result ≡ add_if (any (same_list eqb row)
        (instance_rows (keys_in head.now) (component_rows_in head.now) (take 8 (drop at memory.now)))) 0 }
{
    usize::from(has_key(head, memory, at, row))
}

// The weight of the instance with this key tuple among the first n facts.
pub fn weigh(head: &Head, memory: &[u8], n: usize, row: [u8; 8]) -> usize
    requires { 8 * n ≤ length memory.now }
    ensures { result ≡ row_weight (keys_in head.now) (component_rows_in head.now)
        (rows_in n memory.now) row }
{
    (0..n)
        .filter(|i| has_key(head, memory, 8 * *i, row))
        .count()
}

// The higher of `least` and the weight of the instance of the fact at an offset, among the first n facts; it is weighed only
// where the index has more than `least` facts in its slot.
fn heavier(
    head: &Head,
    memory: &[u8],
    n: usize,
    at: usize,
    least: usize,
    index: &FactIndex,
) -> usize
    requires few { n < wrap }
    requires rows { 8 * n ≤ length memory.now }
    requires row { at + 8 ≤ length memory.now }
    ensures { Indexed head.now index.now (rows_in n memory.now)
        → result ≡ max least (largest (map
        (row_weight (keys_in head.now) (component_rows_in head.now) (rows_in n memory.now))
        (instance_rows (keys_in head.now) (component_rows_in head.now) (take 8 (drop at memory.now))))) }
{
    match key_of(head, memory, at) {
        Some(row) => {
            if index[INSTANCES + key_slot(row)] <= least as u64 {
                least
            } else {
                least.max(weigh(head, memory, n, row))
            }
        }
        None => least,
    }
}

// The highest of `least` and the weights of the instances of the facts from one place on, among the first n facts.
pub fn top_from(
    head: &Head,
    memory: &[u8],
    n: usize,
    from: usize,
    least: usize,
    index: &FactIndex,
) -> usize
    requires few { n < wrap }
    requires rows { 8 * n ≤ length memory.now }
    ensures rows { Indexed head.now index.now (rows_in n memory.now)
        → result ≡ max least (top_rows (keys_in head.now) (component_rows_in head.now)
        (rows_in n memory.now) from) }
    ensures weights { (D : Domain) (fs : List Fact) → HeadOf D head.now
        → Indexed head.now index.now (rows_in n memory.now)
        → rows_in n memory.now ≡ map fact_row fs → ((f : Fact) → In f fs → FactFits D f)
        → result ≡ max least (top_from D fs from) }
{
    (from..n).fold(least, |top, i| heavier(head, memory, n, 8 * i, top, index))
}
