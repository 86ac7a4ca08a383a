// The facts of an instance: of each component one, with any object in its counted place. The instance is a row of 8 bytes: its objects in
// the order of the keys, FF to fill.
ghost use Rattle.std.specs.Prelude.{◌≡◌, ◌+◌, ◌≤◌, ◌<◌, length, get_or, take};
ghost use Rattle.std.proofs.Math.Seq.{paste};
ghost use Rattle.literals.specs.Domain.{object};
ghost use Rattle.literals.specs.Decode.{max_arguments, max_components};
ghost use Rattle.literals.specs.Held.{component_row_in};
ghost use Rattle.store.specs.Held.{object_at, instance_bytes, instance_bytes_in};

use literals::head::{Head, arity_of, component_byte};
use literals::{Key, Label, Object};
use std::array;

// The object under a key of an instance.
fn object_at(instance: &[u8], k: Key) -> Object
    requires { 8 ≤ length instance.now }
    ensures { result ≡ object (get_or (take 8 instance.now) k.0 0) }
{
    Object(instance[..8].get(usize::from(k.0)).copied().unwrap_or(0))
}

// The object under a label: a given one where it is counted.
fn object_under(instance: &[u8], label: Label, counted: Object) -> Object
    requires { 8 ≤ length instance.now }
    ensures { result ≡ object_at counted (take 8 instance.now) label }
{
    match label {
        Label::Key(k) => object_at(instance, k),
        Label::Counted => counted,
    }
}

// A byte of the fact that the component `c`, which has this arity, has.
fn instance_byte(head: &Head, c: usize, arity: u8, instance: &[u8], counted: Object, i: usize) -> u8
    requires component { c < max_components }
    requires arity { arity ≤ max_arguments }
    requires inside { i < 8 }
    requires instance { 8 ≤ length instance.now }
    ensures { result
        ≡ get_or (instance_bytes arity counted.0 (take 8 instance.now) (component_row_in head.now c)) i 0 }
{
    match i {
        0 => component_byte(head, c, 0),
        1 => arity,
        _ if i < 2 + usize::from(arity) => {
            let label = Label::from(component_byte(head, c, i - 1));
            object_under(instance, label, counted).0
        }
        _ => 255,
    }
}

// Writes the fact of an instance that the component `c` has with this object in its counted place, at an offset.
pub fn put_instance(
    out: &mut [u8],
    at: usize,
    head: &Head,
    c: usize,
    instance: &[u8],
    counted: Object,
)
    requires component { c < max_components }
    requires room { at + 8 ≤ length out.old }
    requires instance { 8 ≤ length instance.now }
    ensures { out.new
        ≡ paste out.old at (instance_bytes_in head.now c counted.0 (take 8 instance.now)) 8 }
{
    let arity = arity_of(head, component_byte(head, c, 0));
    let bytes: [u8; 8] = array::from_fn(|i| instance_byte(head, c, arity, instance, counted, i));
    out[at..at + 8].copy_from_slice(&bytes);
}
