// Plays the run file that its second argument names on the domain file that its first names.
#![tactic(auto)]

use print_verdict::files::{NAME_ROOM, argument, argument_count};
use std::io;

fn main(rt: HostRuntime) -> io::Result<()> {
    if argument_count(&rt) != 3 {
        return rt.stderr().write_all(b"usage: play DOMAIN RUN\n");
    }
    let mut domain = [0u8; NAME_ROOM];
    let n = argument(&rt, 1, &mut domain);
    let mut run = [0u8; NAME_ROOM];
    let m = argument(&rt, 2, &mut run);
    print_run::play_named(
        &rt,
        &mut rt.stdout(),
        &mut rt.stderr(),
        &domain[..n],
        &run[..m],
    )
}
