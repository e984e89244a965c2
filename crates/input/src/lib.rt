// Input that is read whole, what a program asks of the system, and the lines and words of a text.
#![tactic(auto)]

mod program;
mod text;

ghost use Rattle.std.specs.Prelude.{◌≤◌, length, IfSome, MatchResult};

pub use program::{Argument, BUFFER, arg, arg_count, arg_into, complain, fail, open, say};
use std::io::Read;
use std::rt::HostRuntime;
pub use text::{Lines, Words};

// The input as far as there is room for it in `buf` or, where a read fails, how many bytes had come. A read that fails is said on standard
// error, with the input's name.
pub fn read<'a, R: Read>(
    rt: &HostRuntime,
    reader: &mut R,
    name: &[u8],
    buf: &'a mut [u8],
) -> Result<&'a [u8], usize>
    ensures { MatchResult result (λ input. length input.now ≤ length buf.old) (λ n. n ≤ length buf.old) }
{
    // By hand: std reads to the end into a Vec only, and the programs have fixed memory.
    let mut n = 0;
    while n < buf.len() {
        match reader.read(&mut buf[n..]) {
            Ok(0) => break,
            Ok(more) => n += more,
            Err(error) => {
                fail(rt, name, error);
                return Err(n);
            }
        }
    }
    Ok(&buf[..n])
}

// A file that cannot be opened is said on standard error too.
pub fn read_file<'a, const ROOM: usize>(
    rt: &HostRuntime,
    path: &[u8],
    room: &'a mut [u8; ROOM],
) -> Option<&'a [u8]>
    ensures { IfSome result (λ input. length input.now ≤ ROOM) }
{
    match open(rt, path) {
        Ok(mut file) => read(rt, &mut file, path, room).ok(),
        Err(error) => {
            fail(rt, path, error);
            None
        }
    }
}

pub const STDIN: &[u8] = b"standard input";

pub fn read_stdin<'a, const ROOM: usize>(
    rt: &HostRuntime,
    room: &'a mut [u8; ROOM],
) -> Option<&'a [u8]>
    ensures { IfSome result (λ input. length input.now ≤ ROOM) }
{
    read(rt, &mut rt.stdin(), STDIN, room).ok()
}

// What a program does with each of its inputs.
pub trait Work {
    fn on(&mut self, rt: &HostRuntime, name: &[u8], input: &[u8]);
}

// Hands each file that an argument names to `work`, with its name, from the argument `first` on; without one, standard input. What has no
// place in `room` is cut off.
// By hand: a trait, since whoever is handed a closure has to ask that it may be called; and the system gives arguments by their numbers.
pub fn each<const ROOM: usize, W>(
    rt: &HostRuntime,
    first: usize,
    room: &mut [u8; ROOM],
    work: &mut W,
)
where
    W: Work,
{
    let count = arg_count(rt);
    if count <= first {
        if let Some(input) = read_stdin(rt, room) {
            work.on(rt, STDIN, input);
        }
    }
    let mut path = [0u8; BUFFER];
    for i in first..count {
        let n = arg_into(rt, i, &mut path).unwrap_or(0);
        if let Some(input) = read_file(rt, &path[..n], room) {
            work.on(rt, &path[..n], input);
        }
    }
}
