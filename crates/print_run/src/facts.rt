// Prints the facts held in work memory: 8 bytes each, relation, arity, objects, FF to fill; zeros behind the last fact.
ghost use Rattle.std.specs.Prelude.{◌≤◌, length};

use print_verdict::put;
use std::io;
use std::io::Write;

// Whether a row holds no fact. A fact without objects ends in FF, and one whose last byte is an object has an arity.
fn is_unused(row: &[u8]) -> bool
    requires { 8 ≤ length row.now }
{
    row[1] == 0 && row[7] == 0
}

// The line of a fact: its relation, and its objects.
fn put_fact<W: Write>(out: &mut W, row: &[u8]) -> io::Result<()>
    requires { 8 ≤ length row.now }
{
    put(out, b"fact ", row[0])?;
    for object in row[2..8].iter().take(usize::from(row[1])) {
        put(out, b" ", *object)?;
    }
    out.write_all(b"\n")
}

// A line for each fact.
pub fn print<W: Write>(out: &mut W, work: &[u8]) -> io::Result<()> {
    for row in work.chunks_exact(8) {
        if is_unused(row) {
            break;
        }
        put_fact(out, row)?;
    }
    Ok(())
}
