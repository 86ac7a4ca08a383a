// What the programs share: the verdict of a domain file printed with its rows, and lines of words and numbers (here); a file read by its
// name (files).
#![tactic(auto)]

pub mod files;

ghost use Rattle.print_verdict.specs.Lines.{name_line, row_line, row_lines, verdict_line, listing};
ghost use Rattle.std.specs.Io.KnownBytes.{Appends};
ghost use Rattle.std.specs.Prelude.{IfSome, OnOk, ◌++◌, ◌≤◌, length};

use classes::Name;
use literals::limits::{MAX_ACTIONS, MAX_LITERALS};
use std::fmt::Display;
use std::io;
use std::io::Write;
use verdict::Judgement;

// A word, then a value as it prints.
pub fn put<W: Write, T: Display + Copy>(out: &mut W, word: &[u8], value: T) -> io::Result<()>
    ensures { OnOk result (IfSome (T.output value)
        (λ text. Appends (W.contents out.old) (W.contents out.new) (word.now ++ text))) }
{
    out.write_all(word)?;
    write!(out, "{value}")
}

// The name of a byte in a report, the end of a line. (In one write: what prints has no buffer, and `writeln!` writes each piece by itself.)
pub fn name<W: Write>(out: &mut W, n: u8) -> io::Result<()>
    ensures { OnOk result (Appends (W.contents out.old) (W.contents out.new) (name_line n)) }
{
    match Name::from(n) {
        Name::Unreachable => out.write_all(b" unreachable\n"),
        Name::Irrelevant => out.write_all(b" irrelevant\n"),
        Name::Heavy => out.write_all(b" heavy\n"),
        Name::Balanced => out.write_all(b" balanced\n"),
        Name::Unbalanced => out.write_all(b" unbalanced\n"),
        Name::Bounded => out.write_all(b" bounded\n"),
        Name::Unbounded => out.write_all(b" unbounded\n"),
    }
}

// The verdict line.
fn put_verdict<W: Write>(out: &mut W, v: Judgement) -> io::Result<()>
    ensures { OnOk result (Appends (W.contents out.old) (W.contents out.new)
        (verdict_line (record { number = v.number; first = v.first; second = v.second; third = v.third }))) }
{
    put(out, b"verdict ", v.number)?;
    put(out, b" ", v.first)?;
    put(out, b" ", v.second)?;
    put(out, b" ", v.third)?;
    out.write_all(b"\n")
}

// A row of a report: its action, its class, its moment, and the name.
fn put_row<W: Write>(out: &mut W, row: &[u8]) -> io::Result<()>
    requires { 4 ≤ length row.now }
    ensures { OnOk result (Appends (W.contents out.old) (W.contents out.new) (row_line row.now)) }
{
    put(out, b"row ", row[0])?;
    put(out, b" ", row[1])?;
    put(out, b" ", row[2])?;
    name(out, row[3])
}

// The rows of a report: those before the first that was not filled (FF in its name's place).
fn put_rows<W: Write>(out: &mut W, report: &[u8]) -> io::Result<()>
    ensures { OnOk result (Appends (W.contents out.old) (W.contents out.new) (row_lines report.now)) }
{
    for row in report.chunks_exact(4) {
        if row[3] == 255 {
            break;
        }
        put_row(out, row)?;
    }
    Ok(())
}

// The verdict line, then each row (9 to 31: the first line alone). The memories are enough for every file: 4 bytes for each moment, and 8
// for each true condition of an action and for one fact more.
pub fn list<W: Write>(out: &mut W, file: &[u8]) -> io::Result<()>
    ensures { OnOk result (Appends (W.contents out.old) (W.contents out.new) (listing file.now)) }
{
    let mut report = [255u8; 4 * 2 * MAX_LITERALS * MAX_ACTIONS];
    let mut witness = [255u8; 8 * (MAX_LITERALS + 1)];
    let v = judging::judge(file, &mut report, &mut witness);
    put_verdict(out, v)?;
    put_rows(out, &report)
}
