// What a program asks of the system: its arguments, a file by its name, and standard error.
ghost use Rattle.std.specs.Counts.{IsPrefixLen};
ghost use Rattle.std.specs.Prelude.{IfSome};

use arrayvec::{ArrayString, ArrayVec};
use std::env::{Env, FillError};
use std::fmt::Write;
use std::fs::File;
use std::io;
use std::io::{Error, ErrorKind, Print};
use std::rt::HostRuntime;

// Room for any path, and for any other argument that a program looks at.
pub const BUFFER: usize = 4096;

// By hand: a Vec would have to be told what becomes of an argument when memory runs out; this cannot run out.
pub type Argument = ArrayVec<u8, BUFFER>;

// How many arguments the program was started with, its own name among them.
pub fn arg_count(rt: &HostRuntime) -> usize {
    (0..usize::MAX)
        .find(|&i| matches!(rt.arg(i, &mut []), Err(FillError::NotPresent)))
        .unwrap_or(usize::MAX)
}

// Puts an argument at the start of `buf` and says its length: none where it is missing or longer than `buf`.
pub fn arg_into(rt: &HostRuntime, i: usize, buf: &mut [u8]) -> Option<usize>
    ensures { IfSome result (λ n. IsPrefixLen n buf.new) }
{
    rt.arg(i, buf).ok()
}

// An argument, none where it is missing or longer than a path may be.
pub fn arg(rt: &HostRuntime, i: usize) -> Option<Argument> {
    let mut bytes = [0u8; BUFFER];
    let n = arg_into(rt, i, &mut bytes)?;
    Argument::try_from(&bytes[..n]).ok()
}

// Opens a file for reading. A name that is not UTF-8 is the name of none.
pub fn open(rt: &HostRuntime, path: &[u8]) -> io::Result<File> {
    match std::str::from_utf8(path) {
        Ok(name) => File::open(rt, name),
        Err(_) => Err(Error::from(ErrorKind::InvalidFilename)),
    }
}

// Writes to standard error. Where that fails, there is nobody to be told.
pub fn complain(rt: &HostRuntime, text: &[u8]) {
    let _ = Print::write_all(&rt.stderr(), text);
}

// Writes a line to standard error: a name, a colon and what is wrong.
pub fn say(rt: &HostRuntime, name: &[u8], what: &str) {
    complain(rt, name);
    complain(rt, b": ");
    complain(rt, what.as_bytes());
    complain(rt, b"\n");
}

// The longest text of an error that is shown whole.
const SHOWN: usize = 256;

// Says what failed, as the caller names it, and the error's text, but not the system's number for it, which stands behind it in brackets.
pub fn fail(rt: &HostRuntime, what: &[u8], error: Error) {
    let mut text: ArrayString<SHOWN> = ArrayString::new();
    let _ = write!(text, "{error}");
    let text = text.as_str();
    say(
        rt,
        what,
        text.split_once(" (os error ")
            .map_or(text, |(before, _)| before),
    );
}
