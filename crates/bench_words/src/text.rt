// The text of a bench file: words of 32 bits in decimal or, after 0x, hexadecimal, with blanks or line ends between them. `#`
// begins a comment, which ends with its line.
use input::{Lines, Words, complain, say};
use std::io::{Eprint, Print};
use std::rt::HostRuntime;

// The most bytes of a text.
pub const TEXT: usize = 1_048_576;

// How much of a wrong word is shown.
const SHOWN: usize = 40;

fn refuse(rt: &HostRuntime, line: usize, word: &[u8]) {
    let _ = eprint!(rt; "line {line}: not a word of 32 bits: ");
    complain(rt, &word[..word.len().min(SHOWN)]);
    complain(rt, b"\n");
}

// Writes a word as its four bytes, the lowest first, and says whether it could.
fn write(rt: &HostRuntime, n: u32) -> bool {
    let written = rt.write_all(&n.to_le_bytes());
    if let Err(error) = written {
        input::fail(rt, b"standard output", error);
        return false;
    }
    true
}

// Looks at the words of the text, and writes them if that is asked for, until one is wrong or cannot be written. Says whether none was.
fn take_all(rt: &HostRuntime, text: &[u8], writes: bool) -> bool {
    for (number, line) in (1usize..).zip(Lines(text)) {
        for word in Words(line) {
            let Some(n) = numerals::parse(word) else {
                refuse(rt, number, word);
                return false;
            };
            if writes && !write(rt, n) {
                return false;
            }
        }
    }
    true
}

// Writes the words of a text. A text with anything wrong in it is found out before the first is written.
pub fn to_words(rt: &HostRuntime, name: &[u8], text: &[u8]) {
    if text.len() > TEXT {
        say(rt, name, "longer than 1 MiB");
    } else if take_all(rt, text, false) {
        take_all(rt, text, true);
    }
}
