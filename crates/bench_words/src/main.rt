// A bench file from text and back (document 01, "Bench"). `bench_words [FILE]` reads a text (text.rt) and writes its words;
// `bench_words --back [FILE]` reads a bench file and writes a text that gives it again (back.rt). Without FILE it reads
// standard input.
#![tactic(auto)]

mod back;
mod names;
mod text;

use back::to_text;
use input::Work;
use std::rt::HostRuntime;
use text::{TEXT, to_words};

// Room for a text and a byte more, by which one that is too long is found out.
const ROOM: usize = TEXT + 1;

// By hand: each program has its own words and options.
fn usage(rt: &HostRuntime) {
    input::complain(rt, b"usage: bench_words [--back] [FILE]\n");
}

fn is_back(argument: &[u8]) -> bool {
    argument == b"--back".as_slice()
}

// A text is turned into words.
#[derive(Drop)]
struct ToWords;

impl Work for ToWords {
    fn on(&mut self, rt: &HostRuntime, name: &[u8], text: &[u8]) {
        to_words(rt, name, text);
    }
}

// A bench file is turned into text.
#[derive(Drop)]
struct ToText;

impl Work for ToText {
    fn on(&mut self, rt: &HostRuntime, name: &[u8], file: &[u8]) {
        to_text(rt, name, file);
    }
}

// By hand: fixed memory here and in `turn_file`, kept out of `main`, where it would be taken for a wrong argument too; the two differ in
// what is read, and `input` has a function for each.
#[inline(never)]
fn turn_input<W: Work>(rt: &HostRuntime, way: &mut W) {
    let mut room = [0u8; ROOM];
    if let Some(input) = input::read_stdin(rt, &mut room) {
        way.on(rt, b"standard input", input);
    }
}

#[inline(never)]
fn turn_file<W: Work>(rt: &HostRuntime, path: &[u8], way: &mut W) {
    let mut room = [0u8; ROOM];
    if let Some(input) = input::read_file(rt, path, &mut room) {
        way.on(rt, path, input);
    }
}

// An argument that is longer than a path may be counts as empty.
fn main(rt: HostRuntime) {
    let first = input::arg(&rt, 1).unwrap_or_default();
    let second = input::arg(&rt, 2).unwrap_or_default();
    let first = first.as_slice();
    match input::arg_count(&rt) {
        1 => turn_input(&rt, &mut ToWords),
        2 if is_back(first) => turn_input(&rt, &mut ToText),
        2 if !first.starts_with(b"--") => turn_file(&rt, first, &mut ToWords),
        3 if is_back(first) => turn_file(&rt, second.as_slice(), &mut ToText),
        _ => usage(&rt),
    }
}
