// Lists the domain file on standard input.
#![tactic(auto)]

use print_verdict::files::{DOMAIN_ROOM, read_full};
use std::io;

fn main(rt: HostRuntime) -> io::Result<()> {
    let mut file = [0u8; DOMAIN_ROOM];
    let n = read_full(&mut rt.stdin(), &mut file);
    print_verdict::list(&mut rt.stdout(), &file[..n])
}
