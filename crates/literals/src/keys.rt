// Key tuples: the component of a relation, and what a literal or a fact has under its keys.
ghost use Rattle.std.specs.Prelude.{◌≡◌, MatchOption, ◌+◌, ◌<◌, ◌≤◌, length, take, drop};
ghost use Rattle.records.specs.Lists.{position};
ghost use Rattle.literals.specs.Decode.{max_components};
ghost use Rattle.literals.specs.Held.{WordOf, components_in, keys_in, component_row_in, component_rows_in, starts, place_under};
ghost use Rattle.literals.specs.Held.{argument_at, under_key, key_row};

use super::head::{Head, component_byte, components_in, keys_in};
use super::limits::MAX_ARGUMENTS;
use super::row::{lowered, word_row};
use super::{Key, Label};

// The number of the first component with this relation, if there is one.
pub fn component_of(head: &Head, relation: u8) -> Option<usize>
    ensures { MatchOption result
        (position (starts relation) (component_rows_in head.now) ≡ components_in head.now)
        (λ c. (c ≡ position (starts relation) (component_rows_in head.now)) × (c < components_in head.now)) }
{
    (0..components_in(head)).position(|c| relation == component_byte(head, c, 0))
}

// The place of the argument under a key of the component `c`, or how many arguments there may be: so the byte says that stands for it in
// the places of keys.
pub(crate) fn place_under(head: &Head, c: usize, k: Key) -> usize
    requires { c < max_components }
    ensures { result ≡ place_under k (component_row_in head.now c) }
{
    (0..MAX_ARGUMENTS)
        .position(|i| Label::Key(k) == Label::from(component_byte(head, c, i + 1)))
        .unwrap_or(MAX_ARGUMENTS)
}

// The byte of the argument at a place of the row at `at`, or FF: a variable's in a literal, an object's in a fact.
pub(crate) fn argument_byte(rows: &[u8], at: usize, place: usize) -> u8
    requires { at + 8 ≤ length rows.now }
    ensures { result ≡ argument_at rows.now at place }
{
    rows[at + 2..at + 8].get(place).copied().unwrap_or(255)
}

// The byte under a key of the component `c` in the row at `at`. (In the loop below itself, it would be compiled to several times as much,
// and slower.)
fn key_byte(head: &Head, c: usize, rows: &[u8], at: usize, k: u8) -> u8
    requires component { c < max_components }
    requires row { at + 8 ≤ length rows.now }
    requires key { k < 255 }
    ensures { result
        ≡ under_key k (drop 1 (component_row_in head.now c)) (drop 2 (take 8 (drop at rows.now))) }
{
    let place = place_under(head, c, Key(k));
    argument_byte(rows, at, place)
}

// The key tuple's row as a number, the first byte lowest. It starts as FF eight times; from the last key to the first, the byte under the
// key is put in below the others, and the highest falls out.
fn key_number(head: &Head, c: usize, rows: &[u8], at: usize) -> u64
    requires component { c < max_components }
    requires row { at + 8 ≤ length rows.now }
    ensures { WordOf (key_row (keys_in head.now) (component_row_in head.now c)
        (take 8 (drop at rows.now))) result }
{
    let mut word = u64::MAX;
    for k in (0..keys_in(head)).rev() {
        word = lowered(word, key_byte(head, c, rows, at, k as u8));
    }
    word
}

// The key tuple of the row at `at` under the component `c`.
pub fn key_tuple(head: &Head, c: usize, rows: &[u8], at: usize) -> [u8; 8]
    requires component { c < max_components }
    requires row { at + 8 ≤ length rows.now }
    ensures { result ≡ key_row (keys_in head.now) (component_row_in head.now c)
        (take 8 (drop at rows.now)) }
{
    word_row(key_number(head, c, rows, at))
}
