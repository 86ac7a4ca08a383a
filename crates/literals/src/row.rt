// Rows of 8 bytes: a payload, and FF to fill.
ghost use Rattle.std.specs.Prelude.{◌≡◌, List, ℕ, ◌+◌, ◌-◌, ◌*◌, ◌%◌, ◌^◌, ◌<◌, ◌≤◌, eqb, length, take, drop, get_or};
ghost use Rattle.std.specs.Int.{w64, from_le_bytes};
ghost use Rattle.std.proofs.Math.Seq.{paste};
ghost use Rattle.records.specs.Lists.{any, same_list};
ghost use Rattle.literals.specs.Held.{row_of, eight_bytes, FourAt, EightAt, WordOf, meet_byte, arguments_meet, rows_meet, meets_as};
ghost use Rattle.literals.specs.Held.{contradicts_row, rows_in};

use records::bytes::found_or_equal;

// The number of the four bytes at an offset, the lowest first.
fn four_at(s: &[u8], at: usize) -> u32
    requires { at + 4 ≤ length s.now }
    ensures { FourAt s.now at result }
{
    u32::from_le_bytes([s[at], s[at + 1], s[at + 2], s[at + 3]])
}

// Whether the four bytes at an offset are the same as those at an offset of another memory. They are compared as one number, which is
// much quicker than byte by byte.
pub fn same_four(x: &[u8], i: usize, y: &[u8], j: usize) -> bool
    requires one { i + 4 ≤ length x.now }
    requires other { j + 4 ≤ length y.now }
    ensures { result ≡ same_list eqb (take 4 (drop i x.now)) (take 4 (drop j y.now)) }
{
    four_at(x, i) == four_at(y, j)
}

// Whether the row at an offset has the relation and the arguments of a row: the bytes 1 to 4, and 4 to 7.
pub fn same_atom(table: &[u8], at: usize, row: &[u8]) -> bool
    requires table { at + 8 ≤ length table.now }
    requires row { length row.now ≡ 8 }
    ensures { result ≡ same_list eqb (drop 1 row.now) (drop 1 (take 8 (drop at table.now))) }
{
    same_four(row, 1, table, at + 1) && same_four(row, 4, table, at + 4)
}

// Whether two bytes at a place meet: they are the same, or one is FF, every object.
fn bytes_meet(a: u8, b: u8) -> bool
    ensures { result ≡ meet_byte a b }
{
    a == b || a == 255 || b == 255
}

// Whether the arguments of the row at an offset meet those of the row at an offset of another memory: the bytes 2 to 7.
pub fn arguments_meet(x: &[u8], i: usize, y: &[u8], j: usize) -> bool
    requires one { i + 8 ≤ length x.now }
    requires other { j + 8 ≤ length y.now }
    ensures { result ≡ arguments_meet (take 8 (drop i x.now)) (take 8 (drop j y.now)) }
{
    (2..8).all(|k| bytes_meet(x[i + k], y[j + k]))
}

// Whether the literal's row at an offset meets the literal's row at an offset of another memory. Most often they have the same relation and
// arguments, or another relation: those are told without going through the arguments.
pub fn rows_meet(x: &[u8], i: usize, y: &[u8], j: usize) -> bool
    requires one { i + 8 ≤ length x.now }
    requires other { j + 8 ≤ length y.now }
    ensures { result ≡ rows_meet (take 8 (drop i x.now)) (take 8 (drop j y.now)) }
{
    if same_four(x, i + 1, y, j + 1) && same_four(x, i + 4, y, j + 4) {
        return true;
    }
    x[i + 1] == y[j + 1] && arguments_meet(x, i, y, j)
}

// The number of the eight bytes at an offset, the lowest first.
fn eight_at(s: &[u8], at: usize) -> u64
    requires { at + 8 ≤ length s.now }
    ensures bytes { EightAt s.now at result }
    ensures number { result ≡ from_le_bytes w64 (eight_bytes s.now at) }
{
    u64::from_le_bytes([
        s[at],
        s[at + 1],
        s[at + 2],
        s[at + 3],
        s[at + 4],
        s[at + 5],
        s[at + 6],
        s[at + 7],
    ])
}

// The number of seven bytes of a number, and a byte below them: the highest byte falls out.
pub fn lowered(word: u64, byte: u8) -> u64
    ensures { result ≡ 256 * (word % 2 ^ 56) + byte }
{
    (word << 8) + u64::from(byte)
}

// The number of a payload's row, byte by byte. It starts as FF eight times; from the last byte to the first, each is put in below the
// others, and the highest falls out.
fn number_row(p: &[u8]) -> u64
    requires { length p.now ≤ 8 }
    ensures { WordOf (row_of p.now) result }
{
    p.iter()
        .rev()
        .fold(u64::MAX, |word, byte| lowered(word, *byte))
}

// The number of a payload's row: it is compared with rows, and written, as one number, which is much quicker than byte by byte. Payloads
// of one, two and six arguments, which are most, are read at once.
pub fn row_word(p: &[u8]) -> u64
    requires { length p.now ≤ 8 }
    ensures { WordOf (row_of p.now) result }
{
    match p.len() {
        4 => u64::from_le_bytes([p[0], p[1], p[2], p[3], 255, 255, 255, 255]),
        3 => u64::from_le_bytes([p[0], p[1], p[2], 255, 255, 255, 255, 255]),
        8 => eight_at(p, 0),
        _ => number_row(p),
    }
}

// The row of a number, written at an offset.
pub fn put_word(out: &mut [u8], at: usize, word: u64)
    requires { at + 8 ≤ length out.old }
    ensures { (row : List ℕ) → WordOf row word → out.new ≡ paste out.old at row 8 }
{
    out[at..at + 8].copy_from_slice(&word.to_le_bytes());
}

// The row of a number, which is written at once: bytes that are written singly and then read back together would be waited for.
pub fn word_row(word: u64) -> [u8; 8]
    ensures { (row : List ℕ) → WordOf row word → result ≡ row }
{
    word.to_le_bytes()
}

// Whether one of the rows from `from` to `to` is the row of a number. All are looked at, also behind one that is: most often none is.
pub fn any_same(table: &[u8], from: usize, to: usize, word: u64) -> bool
    requires span { from ≤ to }
    requires table { 8 * to ≤ length table.now }
    ensures { (row : List ℕ) → WordOf row word
        → result ≡ any (same_list eqb row) (rows_in (to - from) (drop (8 * from) table.now)) }
{
    (from..to).fold(false, |found, i| {
        found_or_equal(found, eight_at(table, 8 * i), word)
    })
}

// Whether the arguments of a payload meet those of the row at an offset. What fills the payload's row meets everything.
fn payload_meets(p: &[u8], table: &[u8], at: usize) -> bool
    requires long { 2 ≤ length p.now }
    requires short { length p.now ≤ 8 }
    requires table { at + 8 ≤ length table.now }
    ensures { result ≡ arguments_meet (row_of p.now) (take 8 (drop at table.now)) }
{
    (2..p.len()).all(|i| bytes_meet(p[i], table[at + i]))
}

// Whether a payload meets the row at an offset.
fn meets_row(p: &[u8], table: &[u8], at: usize) -> bool
    requires long { 2 ≤ length p.now }
    requires short { length p.now ≤ 8 }
    requires table { at + 8 ≤ length table.now }
    ensures { result ≡ rows_meet (row_of p.now) (take 8 (drop at table.now)) }
{
    p[1] == table[at + 1] && payload_meets(p, table, at)
}

// Whether the row at an offset has one of two roles, and a payload meets it.
fn meets_as(p: &[u8], table: &[u8], at: usize, first: u8, second: u8) -> bool
    requires long { 2 ≤ length p.now }
    requires short { length p.now ≤ 8 }
    requires table { at + 8 ≤ length table.now }
    ensures { result ≡ meets_as first second (row_of p.now) (take 8 (drop at table.now)) }
{
    (table[at] == first || table[at] == second) && meets_row(p, table, at)
}

// Whether one of the rows from `from` to `to` has one of two roles, and a payload meets it.
fn any_meets(p: &[u8], table: &[u8], from: usize, to: usize, first: u8, second: u8) -> bool
    requires long { 2 ≤ length p.now }
    requires short { length p.now ≤ 8 }
    requires span { from ≤ to }
    requires table { 8 * to ≤ length table.now }
    ensures { result ≡ any (meets_as first second (row_of p.now)) (rows_in (to - from) (drop (8 * from) table.now)) }
{
    (from..to).any(|i| meets_as(p, table, 8 * i, first, second))
}

// Whether a payload contradicts one of the rows from `from` to `to`. Which roles stand against its own is asked once, not for each row;
// an effect contradicts none.
pub fn any_contradicts(p: &[u8], table: &[u8], from: usize, to: usize) -> bool
    requires long { 2 ≤ length p.now }
    requires short { length p.now ≤ 8 }
    requires span { from ≤ to }
    requires table { 8 * to ≤ length table.now }
    ensures { result ≡ any (contradicts_row (row_of p.now)) (rows_in (to - from) (drop (8 * from) table.now)) }
{
    match p[0] {
        0 => any_meets(p, table, from, to, 1, 1),
        1 => any_meets(p, table, from, to, 0, 0),
        4 => any_meets(p, table, from, to, 5, 7),
        5 => any_meets(p, table, from, to, 4, 6),
        6 => any_meets(p, table, from, to, 5, 7),
        7 => any_meets(p, table, from, to, 4, 6),
        _ => false,
    }
}
