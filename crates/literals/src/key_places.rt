// What is worked out once a domain, so that no literal looks for its component or for a key again: the component of each relation, and the
// place of the argument under each key.
ghost use Rattle.std.specs.Prelude.{◌≡◌, cond, [], ℕ, ◌+◌, ◌*◌, ◌<◌, length, get_or};
ghost use Rattle.literals.specs.Decode.{max_relations, max_components};
ghost use Rattle.literals.specs.Domain.{key};
ghost use Rattle.literals.specs.Held.{components_in, keys_in, component_row_in, pad, starts, place_under};
ghost use Rattle.literals.specs.Held.{FirstComponents, PlacesIn, PlacesOf};

use super::Key;
use super::head::{Head, component_byte, components_in, keys_in};
use super::keys::{argument_byte, component_of, place_under};
use super::limits::{MAX_COMPONENTS, MAX_RELATIONS};
use super::row::lowered;

// A byte for each relation: its component's number and 1, or 0. Then 8 bytes for each component: the place of the argument under each of
// its keys.
pub const KEY_PLACES: usize = MAX_RELATIONS + 8 * MAX_COMPONENTS;

pub type KeyPlaces = [u8; KEY_PLACES];

// A domain, with the number of its keys, the component of each relation and the places of the keys. (Whoever numbers literals asks for
// them by reference: they are 192 bytes and more.)
#[derive(Clone, Copy)]
pub struct Places<'a> {
    pub head: &'a Head,
    keys: usize,
    bytes: KeyPlaces,
    ghost counted: { keys ≡ keys_in head.now },
    ghost worked_out: { PlacesOf head.now bytes },
}

// Writes the component `c` at its relation.
fn put_component(head: &Head, c: usize, places: &mut [u8])
    requires component { c < max_components }
    requires places { length places.old ≡ max_relations + 8 * max_components }
    ensures { (r : ℕ) → r < max_relations → get_or places.new r 0
        ≡ cond (starts r (component_row_in head.now c)) (c + 1) (get_or places.old r 0) }
{
    let relation = usize::from(component_byte(head, c, 0));
    if relation < MAX_RELATIONS {
        places[relation] = c as u8 + 1;
    }
}

// The component of each relation: the first is written last. `places` is all 0 before.
fn put_components(head: &Head, places: &mut [u8])
    requires { length places.old ≡ max_relations + 8 * max_components }
    ensures { places.old ≡ pad (max_relations + 8 * max_components) []
        → FirstComponents head.now places.new }
{
    for c in (0..components_in(head)).rev() {
        put_component(head, c, places);
    }
}

// Writes the places of the keys of the component `c`.
fn put_component_places(head: &Head, c: usize, places: &mut [u8])
    requires component { c < max_components }
    requires places { length places.old ≡ max_relations + 8 * max_components }
    ensures own { (k : ℕ) → k < keys_in head.now
        → get_or places.new (max_relations + 8 * c + k) 0 ≡ place_under (key k) (component_row_in head.now c) }
    ensures before { (i : ℕ) → i < max_relations + 8 * c
        → get_or places.new i 0 ≡ get_or places.old i 0 }
{
    for k in 0..keys_in(head) {
        let place = place_under(head, c, Key(k as u8));
        places[MAX_RELATIONS + 8 * c + k] = place as u8;
    }
}

// The places of the keys of all components.
fn put_key_places(head: &Head, places: &mut [u8])
    requires { length places.old ≡ max_relations + 8 * max_components }
    ensures keys { PlacesIn head.now places.new }
    ensures before { (i : ℕ) → i < max_relations → get_or places.new i 0 ≡ get_or places.old i 0 }
{
    for c in 0..components_in(head) {
        put_component_places(head, c, places);
    }
}

// Both. `places` is all 0 before.
fn put_places(head: &Head, places: &mut [u8])
    requires { length places.old ≡ max_relations + 8 * max_components }
    ensures { places.old ≡ pad (max_relations + 8 * max_components) []
        → PlacesOf head.now places.new }
{
    put_components(head, places);
    put_key_places(head, places);
}

impl<'a> Places<'a> {
    ghost use Rattle.std.specs.Prelude.{◌≡◌, ◌+◌, ◌<◌, ◌≤◌, length, take, drop};
    ghost use Rattle.records.specs.Lists.{position};
    ghost use Rattle.literals.specs.Held.{components_in, component_row_in, component_rows_in, starts, key_word, marked, mark_of};

    // Those of a domain.
    pub fn of(head: &'a Head) -> Places<'a>
        ensures { result.head.now ≡ head.now }
    {
        let mut bytes = [0u8; KEY_PLACES];
        put_places(head, &mut bytes);
        Places {
            head,
            keys: keys_in(head),
            bytes,
        }
    }

    // The number of the first component with a relation, if there is one. (Of a relation that no domain has it is looked for.)
    pub fn marked_by(&self, relation: u8) -> Option<usize>
        ensures { mark_of result
            ≡ marked (components_in self.now.head.now) (position (starts relation) (component_rows_in self.now.head.now)) }
    {
        let at = usize::from(relation);
        if at < MAX_RELATIONS {
            return usize::from(self.bytes[at]).checked_sub(1);
        }
        component_of(self.head, relation)
    }

    // The key tuple of the row at `at` under the component `c` as one number, the byte under the last key lowest. There are at most six
    // keys, so that no byte falls out, and it is below 2 ^ 48.
    pub fn key_word(&self, c: usize, rows: &[u8], at: usize) -> u64
        requires component { c < components_in self.now.head.now }
        requires row { at + 8 ≤ length rows.now }
        ensures { result ≡ key_word (keys_in self.now.head.now) (component_row_in self.now.head.now c)
            (take 8 (drop at rows.now)) }
    {
        let start = MAX_RELATIONS + 8 * c;
        self.bytes[start..start + self.keys]
            .iter()
            .fold(0, |word, place| {
                lowered(word, argument_byte(rows, at, usize::from(*place)))
            })
    }
}
