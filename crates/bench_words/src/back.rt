// A bench file as text: laid out for a person where the bodies are as long as the table of contents says, else as bare words.
use crate::names;
use benchfile::{after, body_size, first, plain};
use input::say;
use std::io::Print;
use std::rt::HostRuntime;

// The most words of a body on a line.
const ACROSS: usize = 8;

// The words of the longest bench file.
const WORDS: usize = 16384;

// What the table of contents has of a call: its number, its argument, its head words and its answer words.
type Row = [u32; 4];

// The table of contents and the bodies, which follow it, if they are as long as it says.
fn contents(words: &[u32]) -> Option<(&[Row], &[u32])> {
    let (&count, rest) = words.split_first()?;
    let (table, bodies) = rest.split_at_checked(4 * count as usize)?;
    let (rows, _) = table.as_chunks();
    let mut rest = bodies;
    for row in rows {
        (_, rest) = rest.split_at_checked(body_size(row))?;
    }
    rest.is_empty().then_some((rows, bodies))
}

// Text and numbers go to standard output one by one: where something cannot be written the rest is tried, and nobody is told.
fn show(rt: &HostRuntime, text: &str) {
    let _ = rt.write_all(text.as_bytes());
}

fn show_decimal(rt: &HostRuntime, n: usize) {
    let _ = rt.print(n);
}

fn show_hex(rt: &HostRuntime, word: u32) {
    show(rt, "0x");
    let _ = rt.write_all(&numerals::hex(word));
}

// Small words of a head are bytes, counts and lengths, which read best in decimal.
fn show_word(rt: &HostRuntime, word: u32, hex: bool) {
    if hex || word >= 65_536 {
        show_hex(rt, word);
    } else {
        show_decimal(rt, word as usize);
    }
}

fn show_words(rt: &HostRuntime, words: &[u32], hex: bool) {
    for line in words.chunks(ACROSS) {
        for (i, &word) in line.iter().enumerate() {
            if i > 0 {
                show(rt, " ");
            }
            show_word(rt, word, hex);
        }
        show(rt, "\n");
    }
}

// `# 3: transaction`, counted from 1.
fn show_name(rt: &HostRuntime, row: &Row, place: usize) {
    let number = row[0];
    show(rt, "# ");
    show_decimal(rt, place);
    show(rt, ": ");
    show(rt, names::name(number));
    if plain(number) != number {
        show(rt, ", ManualAck");
    }
    show(rt, "\n");
}

fn show_calls(rt: &HostRuntime, rows: &[Row], bodies: &[u32]) {
    show_decimal(rt, rows.len());
    show(rt, " # calls: number, argument, heads, answers\n");
    for (place, row) in (1usize..).zip(rows) {
        for &word in row {
            show_decimal(rt, word as usize);
            show(rt, " ");
        }
        show_name(rt, row, place);
    }
    let mut rest = bodies;
    for (place, row) in (1usize..).zip(rows) {
        let body = first(rest, body_size(row));
        let heads = row[2] as usize;
        show(rt, "\n");
        show_name(rt, row, place);
        show_words(rt, first(body, heads), false);
        show_words(rt, after(body, heads), true);
        rest = after(rest, body_size(row));
    }
}

fn show_file(rt: &HostRuntime, words: &[u32]) {
    match contents(words) {
        Some((rows, bodies)) => show_calls(rt, rows, bodies),
        None => {
            show(rt, "# the lengths disagree\n");
            show_words(rt, words, true);
        }
    }
}

// Writes the text of a bench file.
pub fn to_text(rt: &HostRuntime, name: &[u8], file: &[u8]) {
    if file.len() > 4 * WORDS {
        say(rt, name, "longer than 65,536 bytes");
    } else if file.len() % 4 != 0 {
        say(rt, name, "its last word is not whole");
    } else {
        // By hand: the programs have fixed memory, and the rows and bodies are parts of one slice of words.
        let mut words = [0u32; WORDS];
        let n = words::decode(file, &mut words);
        show_file(rt, first(&words, n));
    }
}
