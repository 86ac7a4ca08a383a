// Rows of facts: 8 bytes each (relation, arity, arguments, FF to fill).
ghost use Rattle.std.specs.Prelude.{◌≡◌, ◌+◌, ◌*◌, ◌≤◌, eqb, length, take, drop};
ghost use Rattle.records.specs.Lists.{same_list};
ghost use Rattle.literals.specs.Held.{rows_in};
ghost use Rattle.store.specs.Held.{has_row};

use literals::row::same_four;

// The row at an offset.
pub fn row_at(memory: &[u8], at: usize) -> [u8; 8]
    requires { at + 8 ≤ length memory.now }
    ensures { result ≡ take 8 (drop at memory.now) }
{
    let mut row = [0u8; 8];
    row.copy_from_slice(&memory[at..at + 8]);
    row
}

// Whether the row at an offset is this one. (As two numbers: a slice of no known length would be compared by a call.)
pub fn same_row(memory: &[u8], at: usize, row: [u8; 8]) -> bool
    requires { at + 8 ≤ length memory.now }
    ensures { result ≡ same_list eqb row (take 8 (drop at memory.now)) }
{
    same_four(&row, 0, memory, at) && same_four(&row, 4, memory, at + 4)
}

// Whether one of the first n rows is this one.
pub fn has_row(memory: &[u8], n: usize, row: [u8; 8]) -> bool
    requires { 8 * n ≤ length memory.now }
    ensures { result ≡ has_row row (rows_in n memory.now) }
{
    (0..n).any(|i| same_row(memory, 8 * i, row))
}
