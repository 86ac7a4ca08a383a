// The key tuple of a fact: an instance of the template, as a row of 8 bytes.
ghost use Rattle.std.specs.Prelude.{◌≡◌, ◌+◌, ◌≤◌, length, take, drop};
ghost use Rattle.literals.specs.Held.{keys_in, component_rows_in};
ghost use Rattle.store.specs.Held.{instance_rows, keyed_by};

use literals::head::Head;
use literals::keys::{component_of, key_tuple};

// The key tuple of the fact at an offset, as a row, if its relation has a component.
pub fn key_of(head: &Head, memory: &[u8], at: usize) -> Option<[u8; 8]>
    requires { at + 8 ≤ length memory.now }
    ensures { result ≡ keyed_by
        (instance_rows (keys_in head.now) (component_rows_in head.now) (take 8 (drop at memory.now))) }
{
    let c = component_of(head, memory[at])?;
    Some(key_tuple(head, c, memory, at))
}
