// Prints the timing of a clock and a bus frequency, both in hertz: of the two arguments or, where
// there are none, of each line of standard input. With `--bands FILE` before the two arguments it is
// the timing by the bands of that file (rows.rt).
#![tactic(auto)]

mod file;
mod rows;
mod show;

ghost use Rattle.std.specs.Prelude.{◌≤◌, length};

use arrayvec::ArrayVec;
use input::{Argument, BUFFER, Words, complain};
use std::io;
use std::io::Read;
use std::rt::HostRuntime;

// The longest line that is read, and a byte more, by which a longer one is found out: it counts as
// not two numbers.
const LINE: usize = 256;

const ROOM: usize = LINE + 1;

fn answer(rt: &HostRuntime, clock: u32, frequency: u32) -> io::Result<()> {
    let timed = bands::calc_timing_params(clock, frequency);
    show::answer(rt, clock, frequency, timed)
}

fn parse_two(first: &[u8], second: &[u8]) -> Option<(u32, u32)> {
    Some((numerals::parse(first)?, numerals::parse(second)?))
}

// The two numbers that are all the words of a line.
fn parse_line(line: &[u8]) -> Option<(u32, u32)> {
    if line.len() > LINE {
        return None;
    }
    let mut words = Words(line);
    match (words.next(), words.next(), words.next()) {
        (Some(first), Some(second), None) => parse_two(first, second),
        _ => None,
    }
}

// The answer to a line. An empty line and a comment have none.
fn answer_line(rt: &HostRuntime, line: &[u8]) -> io::Result<()> {
    if line.is_empty() || line.starts_with(b"#") {
        return Ok(());
    }
    if let Some((clock, frequency)) = parse_line(line) {
        return answer(rt, clock, frequency);
    }
    complain(rt, b"not two numbers: ");
    complain(rt, &line[..line.len().min(LINE)]);
    complain(rt, b"\n");
    Ok(())
}

// Puts input that has come at the start of `buf`: none at its end.
fn read_input<'a>(rt: &HostRuntime, buf: &'a mut [u8]) -> &'a [u8]
    ensures { length result.now ≤ length buf.old }
{
    match rt.stdin().read(buf) {
        Ok(n) => &buf[..n],
        Err(error) => {
            input::fail(rt, b"standard input", error);
            &[]
        }
    }
}

// The loop is bounded, since the input may have no end: no run gets to make that many reads.
// By hand: fixed memory, and standard input comes as no iterator.
fn answer_input(rt: &HostRuntime) -> io::Result<()> {
    let mut line: ArrayVec<u8, ROOM> = ArrayVec::new();
    for _ in 0..u64::MAX {
        let mut buf = [0u8; BUFFER];
        let input = read_input(rt, &mut buf);
        if input.is_empty() {
            break;
        }
        for &b in input {
            if b == b'\n' {
                answer_line(rt, line.as_slice())?;
                line.clear();
            } else {
                let _ = line.try_push(b);
            }
        }
    }
    answer_line(rt, line.as_slice())
}

// By hand: each program has its own words and options.
fn usage(rt: &HostRuntime) {
    complain(rt, b"usage: timing_main [[--bands FILE] CLOCK FREQUENCY]\n");
}

// The numbers of two arguments. Others are said on standard error.
// By hand: two arguments go side by side here and below, as they came.
fn two_numbers(rt: &HostRuntime, first: &[u8], second: &[u8]) -> Option<(u32, u32)> {
    let numbers = parse_two(first, second);
    if numbers.is_none() {
        complain(rt, b"not two numbers: ");
        complain(rt, first);
        complain(rt, b" ");
        complain(rt, second);
        complain(rt, b"\n");
    }
    numbers
}

fn is_bands(argument: &[u8]) -> bool {
    argument == b"--bands".as_slice()
}

// An argument that is missing or longer than a path may be counts as empty.
fn argument(rt: &HostRuntime, i: usize) -> Argument {
    input::arg(rt, i).unwrap_or_default()
}

fn answer_arguments(rt: &HostRuntime) -> io::Result<()> {
    let first = argument(rt, 1);
    let second = argument(rt, 2);
    if is_bands(first.as_slice()) {
        usage(rt);
        return Ok(());
    }
    match two_numbers(rt, first.as_slice(), second.as_slice()) {
        Some((clock, frequency)) => answer(rt, clock, frequency),
        None => Ok(()),
    }
}

fn answer_option(rt: &HostRuntime) -> io::Result<()> {
    let option = argument(rt, 1);
    let path = argument(rt, 2);
    let first = argument(rt, 3);
    let second = argument(rt, 4);
    if !is_bands(option.as_slice()) {
        usage(rt);
        return Ok(());
    }
    match two_numbers(rt, first.as_slice(), second.as_slice()) {
        Some((clock, frequency)) => file::answer(rt, path.as_slice(), clock, frequency),
        None => Ok(()),
    }
}

fn main(rt: HostRuntime) -> io::Result<()> {
    match input::arg_count(&rt) {
        1 => answer_input(&rt),
        3 => answer_arguments(&rt),
        5 => answer_option(&rt),
        _ => {
            usage(&rt);
            Ok(())
        }
    }
}
