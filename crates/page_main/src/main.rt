// Prints the service pages of logs, which are little-endian words: of each file that an argument names or, without one, of standard
// input. What is wrong with a log is said on standard error, and it has no page then.
#![tactic(auto)]

use input::{Work, complain, say};
use page::Fault;
use std::io::{Eprint, Print};
use std::rt::HostRuntime;
use window::Cursor;

// The longest log, and a byte more, by which a longer one is found out.
const LOG: usize = 1_048_576;

const ROOM: usize = LOG + 1;

// A page is printed 1,024 entries at a time; one takes 405 bytes at most.
const ENTRIES: u32 = 1024;

const WORDS: usize = 2048;

const PAGE: usize = 414_720;

// The pages' parts in turn, until the log has no more words or cannot be written. No log has as many parts as the loop is bounded by, so
// that the numbers of the entries fit 32 bits.
// By hand: fixed memory, and a part is found by its number.
fn print(rt: &HostRuntime, log: &[u8]) {
    let mut words = [0u32; WORDS];
    let mut out = [0u8; PAGE];
    for part in 0..1024u32 {
        let n = words::decode_from(log, part as usize * WORDS, &mut words);
        if n == 0 {
            return;
        }
        let entries = &words[..n.min(WORDS)];
        let end = page::put_entries(Cursor::new(0), part * ENTRIES + 1, entries, &mut out);
        if let Err(error) = rt.write_all(&out[..end.at.min(PAGE)]) {
            input::fail(rt, b"standard output", error);
            return;
        }
    }
}

fn print_log(rt: &HostRuntime, name: &[u8], log: &[u8]) {
    if log.len() > LOG {
        say(rt, name, "longer than 1 MiB");
        return;
    }
    match page::fault_in(log) {
        Ok(()) => print(rt, log),
        Err(Fault::NotWhole) => say(rt, name, "its last entry is not whole"),
        Err(Fault::UnknownCode(n)) => {
            complain(rt, name);
            let _ = eprintln!(rt; ": entry {n}: no register has its code");
        }
    }
}

// The pages of a log are printed.
#[derive(Drop)]
struct Pages;

impl Work for Pages {
    fn on(&mut self, rt: &HostRuntime, name: &[u8], log: &[u8]) {
        print_log(rt, name, log);
    }
}

fn main(rt: HostRuntime) {
    // By hand: fixed memory, for one log after the other.
    let mut room = [0u8; ROOM];
    input::each(&rt, 1, &mut room, &mut Pages);
}
