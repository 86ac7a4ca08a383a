// Further facts of an instance that no literal of the event is about: such a fact is in the way of no condition, and stays.
ghost use Rattle.std.specs.Prelude.{◌≡◌, ◌≤◌, ◌<◌, length};
ghost use Rattle.literals.specs.Decode.{max_components};
ghost use Rattle.store.specs.Held.{instance_bytes_in};
ghost use Rattle.events.specs.Held.{max_ground, grounded_bytes, ground_in};
ghost use Rattle.trying.specs.Held.{is_about, component_free, any_free};

use events::facts::patterns_meet;
use literals::Object;
use literals::head::{Head, components_in};
use store::instances::put_instance;

// Whether one of the first `total` ground literals is about the fact.
fn is_about(memory: &[u8], total: usize, fact: &[u8]) -> bool
    requires memory { length memory.now ≡ grounded_bytes }
    requires total { total ≤ max_ground }
    requires fact { length fact.now ≡ 8 }
    ensures { result ≡ is_about (ground_in total memory.now) fact.now }
{
    (0..total).any(|i| patterns_meet(memory, 8 * i, fact, 0))
}

// The fact of the instance that the component `c` has, with the object in its counted place.
fn fact_of(head: &Head, c: usize, instance: &[u8], object: Object) -> [u8; 8]
    requires component { c < max_components }
    requires instance { length instance.now ≡ 8 }
    ensures { result ≡ instance_bytes_in head.now c object.0 instance.now }
{
    let mut fact = [255u8; 8];
    put_instance(&mut fact, 0, head, c, instance, object);
    fact
}

// Whether the component `c` has a fact of the instance, with one of n objects in its counted place, that none of them is about.
fn component_free(
    head: &Head,
    c: usize,
    instance: &[u8],
    n: u8,
    memory: &[u8],
    total: usize,
) -> bool
    requires component { c < max_components }
    requires instance { length instance.now ≡ 8 }
    requires memory { length memory.now ≡ grounded_bytes }
    requires total { total ≤ max_ground }
    ensures { result
        ≡ component_free head.now instance.now n (ground_in total memory.now) c }
{
    (0..n).any(|o| !is_about(memory, total, &fact_of(head, c, instance, Object(o))))
}

// Whether a component has one.
pub fn any_free(head: &Head, instance: &[u8], n: u8, memory: &[u8], total: usize) -> bool
    requires instance { length instance.now ≡ 8 }
    requires memory { length memory.now ≡ grounded_bytes }
    requires total { total ≤ max_ground }
    ensures { result ≡ any_free head.now instance.now n (ground_in total memory.now) }
{
    (0..components_in(head)).any(|c| component_free(head, c, instance, n, memory, total))
}
