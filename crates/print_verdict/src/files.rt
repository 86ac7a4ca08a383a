// Reads a file by name, or says on standard error why a program does nothing with it; and the names, which the program's arguments are.
ghost use Rattle.std.specs.Counts.{IsPrefixLen};
ghost use Rattle.std.specs.Io.KnownBytes.{Appends};
ghost use Rattle.std.specs.Prelude.{[], ◌++◌, ◌≡◌, IfOk, IsUtf8, MatchResult, OnOk, length, ◌∷◌};

use literals::limits::MAX_FILE;
use std::env::{Env, FillError};
use std::fs::File;
use std::io;
use std::io::{Read, Write};
use std::rt::Files;

// Room for a domain file, and for one byte more than it may have, so that a longer one gets its 9.
pub const DOMAIN_ROOM: usize = MAX_FILE + 1;

// Room for a file's name.
pub const NAME_ROOM: usize = 4096;

// That a file cannot be opened, or cannot be read to its end; and how many bytes of it were put into memory before that.
#[derive(Clone, Copy, Debug, PartialEq, Eq)]
pub struct Unread(pub usize);

// How many arguments the program was started with, its own name among them. (No contract says what an environment holds.)
pub fn argument_count(env: &impl Env) -> usize {
    (0..usize::MAX)
        .find(|&i| matches!(env.arg(i, &mut [0u8; 1]), Err(FillError::NotPresent)))
        .unwrap_or(usize::MAX)
}

// Puts an argument at the start of a memory, and returns its length: 0 where it is missing or longer than the memory.
pub fn argument(env: &impl Env, i: usize, name: &mut [u8]) -> usize
    ensures { IsPrefixLen result name.new }
{
    env.arg(i, name).unwrap_or(0)
}

// One line: the program, why, and the file's name.
pub fn print_error<W: Write>(
    errors: &mut W,
    program: &[u8],
    why: &[u8],
    name: &[u8],
) -> io::Result<()>
    ensures { OnOk result (Appends (W.contents errors.old) (W.contents errors.new)
        (program.now ++ why.now ++ name.now ++ (10 ∷ []))) }
{
    errors.write_all(program)?;
    errors.write_all(why)?;
    errors.write_all(name)?;
    errors.write_all(b"\n")
}

// That a file cannot be opened. An argument that is too long for a name comes as an empty one.
fn print_open_error<W: Write>(errors: &mut W, program: &[u8], name: &[u8]) -> io::Result<()> {
    if name.len() == 0 {
        return print_error(errors, program, b": a file name is empty or too long", name);
    }
    print_error(errors, program, b": cannot open ", name)
}

// Opens a file for reading. A name is text: one that is not UTF-8 names no file.
pub fn open_named<R: Files>(rt: &R, name: &[u8]) -> io::Result<R::File>
    ensures { OnOk result (IsUtf8 name.now) }
{
    match str::from_utf8(name) {
        Ok(path) => File::open(rt, path),
        Err(_) => Err(io::Error::new(io::ErrorKind::InvalidInput, "a file name is not UTF-8")),
    }
}

// Reads until the memory is full, the input ends or a read fails, and returns how many bytes it put at the start of the memory. (By that
// number, which is the answer: what is left of the memory, cut off read by read, would be no plainer.)
pub fn read_full<R: Read>(input: &mut R, file: &mut [u8]) -> usize
    ensures { IsPrefixLen result file.new }
{
    let mut done = 0;
    while done < file.len() {
        match input.read(&mut file[done..]) {
            Ok(0) | Err(_) => break,
            Ok(n) => done += n,
        }
    }
    done
}

// Whether reading can go on, at the end of a file too. `read_full` stops at a read that fails (of a directory, say) as it does at the
// end; one read more tells which.
fn is_readable<R: Read>(input: &mut R) -> bool {
    input.read(&mut [0u8; 1]).is_ok()
}

// Reads a file from its start for the program of a name, and tells how many bytes of it: all, or as many as there was room for; or that it
// cannot be opened or read, which one line says. (The outer error is one of writing that line.)
pub fn read_named<R: Files, W: Write>(
    rt: &R,
    errors: &mut W,
    program: &[u8],
    name: &[u8],
    file: &mut [u8],
) -> io::Result<Result<usize, Unread>>
    ensures counted { IfOk result (λ read.
        MatchResult read (λ count. IsPrefixLen count file.new) (λ unread. IsPrefixLen unread.0 file.new)) }
    ensures room { length file.new ≡ length file.old }
{
    let Ok(mut input) = open_named(rt, name) else {
        print_open_error(errors, program, name)?;
        return Ok(Err(Unread(0)));
    };
    let count = read_full(&mut input, file);
    if !is_readable(&mut input) {
        print_error(errors, program, b": cannot read ", name)?;
        return Ok(Err(Unread(count)));
    }
    Ok(Ok(count))
}
