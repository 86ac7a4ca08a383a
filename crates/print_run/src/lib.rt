// Plays two files that a program names: reads them, and prints what the run leads to.
#![tactic(auto)]

mod facts;

ghost use Rattle.std.specs.Prelude.{◌≡◌, length};

use player::play::{Fault, play_files};
use player::run::WORK;
use print_verdict::files::{DOMAIN_ROOM, print_error, read_named};
use std::io;
use std::io::Write;
use std::rt::Files;

// Where the record at fault starts. With 2 and 58 no record is at fault.
fn fault_line<W: Write>(out: &mut W, number: u64, fault: Fault) -> io::Result<()> {
    if matches!(number, 2 | 58) {
        return Ok(());
    }
    match fault {
        Fault::Domain(at) => writeln!(out, "fault domain {at}"),
        Fault::Run(at) => writeln!(out, "fault run {at}"),
    }
}

// Plays a run, and prints the answer, then each fact held, then the record at fault. (Work memory is lent as zeros: where nothing is
// written to it, no fact is held.)
fn play_and_print<W: Write>(out: &mut W, domain: &[u8], run: &[u8]) -> io::Result<()> {
    let mut work = [0u8; WORK];
    let answer = play_files(domain, run, &mut work);
    writeln!(
        out,
        "played {} {} {} {}",
        answer.number, answer.place, answer.steps, answer.weight
    )?;
    facts::print(out, &work)?;
    fault_line(out, answer.number, answer.fault)
}

// Run files have no limit, but the program holds one whole: it plays up to so many bytes, and one byte more tells a longer file.
const MAX_RUN: usize = 1048576;

const RUN_ROOM: usize = MAX_RUN + 1;

// Room for a run file. (A function of its own, since its length is told by a law: so many zeros are not to be counted one by one.)
fn run_buffer() -> [u8; RUN_ROOM]
    ensures { 1048577 ≡ length result }
{
    [0; RUN_ROOM]
}

// Plays the run file of one name on the domain file of the other, or says which of them cannot be played. (There is room for one byte
// more than a domain file may have, so that a longer one gets its 9.)
pub fn play_named<R: Files, W: Write, E: Write>(
    rt: &R,
    out: &mut W,
    errors: &mut E,
    domain_name: &[u8],
    run_name: &[u8],
) -> io::Result<()> {
    let mut domain = [0u8; DOMAIN_ROOM];
    let Ok(n) = read_named(rt, errors, b"play", domain_name, &mut domain)? else {
        return Ok(());
    };
    let mut run = run_buffer();
    let Ok(m) = read_named(rt, errors, b"play", run_name, &mut run)? else {
        return Ok(());
    };
    if m > MAX_RUN {
        return print_error(errors, b"play", b": over 1,048,576 bytes: ", run_name);
    }
    play_and_print(out, &domain[..n], &run[..m])
}
