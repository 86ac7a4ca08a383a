// Lists each domain file that its arguments name.
#![tactic(auto)]

use print_verdict::files::{
    DOMAIN_ROOM, NAME_ROOM, argument, argument_count, open_named, read_full,
};
use std::env::Env;
use std::io;
use std::io::Write;
use std::rt::Files;

// One line: the file's name, and why it cannot be opened, in the system's words. (Behind them std puts the error's number, which is left
// out.)
fn print_reason<W: Write>(errors: &mut W, name: &[u8], error: io::Error) -> io::Result<()> {
    let mut text = [0u8; 256];
    let mut room = &mut text[..];
    write!(room, "{error}")?;
    let words = str::from_utf8(&text).unwrap_or("");
    let (reason, _) = words.split_once(" (os error ").unwrap_or((words, ""));
    errors.write_all(name)?;
    errors.write_all(b": ")?;
    errors.write_all(reason.trim_end_matches('\0').as_bytes())?;
    errors.write_all(b"\n")
}

fn list_one<R: Env + Files, W: Write, E: Write>(
    rt: &R,
    out: &mut W,
    errors: &mut E,
    i: usize,
) -> io::Result<()> {
    let mut path = [0u8; NAME_ROOM];
    let length = argument(rt, i, &mut path);
    let name = &path[..length];
    let mut input = match open_named(rt, name) {
        Ok(input) => input,
        Err(error) => return print_reason(errors, name, error),
    };
    out.write_all(name)?;
    out.write_all(b"\n")?;
    let mut file = [0u8; DOMAIN_ROOM];
    let n = read_full(&mut input, &mut file);
    print_verdict::list(out, &file[..n])
}

fn main(rt: HostRuntime) -> io::Result<()> {
    let count = argument_count(&rt);
    for i in 1..count {
        list_one(&rt, &mut rt.stdout(), &mut rt.stderr(), i)?;
    }
    Ok(())
}
