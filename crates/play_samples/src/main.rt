// Plays each pair of files that its arguments name, a domain file and a run file, and prints the names above what comes of them.
#![tactic(auto)]

use print_verdict::files::{NAME_ROOM, argument, argument_count};
use std::env::Env;
use std::io;
use std::io::Write;
use std::rt::Files;

fn play_pair<R: Env + Files, W: Write, E: Write>(
    rt: &R,
    out: &mut W,
    errors: &mut E,
    domain_at: usize,
    run_at: usize,
) -> io::Result<()> {
    let mut domain = [0u8; NAME_ROOM];
    let n = argument(rt, domain_at, &mut domain);
    let mut run = [0u8; NAME_ROOM];
    let m = argument(rt, run_at, &mut run);
    out.write_all(&domain[..n])?;
    out.write_all(b" ")?;
    out.write_all(&run[..m])?;
    out.write_all(b"\n")?;
    print_run::play_named(rt, out, errors, &domain[..n], &run[..m])
}

fn main(rt: HostRuntime) -> io::Result<()> {
    let pairs = argument_count(&rt) / 2;
    for i in 0..pairs {
        play_pair(
            &rt,
            &mut rt.stdout(),
            &mut rt.stderr(),
            2 * i + 1,
            2 * i + 2,
        )?;
    }
    Ok(())
}
