// A table of bands from text. A line has a row: five numbers, in decimal or, after 0x, hexadecimal, and the word `equal` or `double`, with
// blanks between them. `#` begins a comment, which ends with its line. The first line that is wrong is named on standard error.
use arrayvec::ArrayVec;
use input::{Lines, Words};
use std::fmt;
use std::io::Eprint;
use std::rt::HostRuntime;

// A row is six words, of which the last is its shape, and a table has at most sixteen rows.
const WORDS: usize = 6;

const TABLE: usize = 16 * 4 * WORDS;

// The little-endian words of the rows.
pub type Table = ArrayVec<u8, TABLE>;

// What is wrong with a line: how many words it has, the word of a column, or its row as the next of the table.
#[derive(Clone, Copy)]
enum Fault {
    WordCount,
    NotANumber(&'static str),
    NotAShape,
    NotAccepted,
    TooMany,
}

impl fmt::Display for Fault {
    fn fmt<W: fmt::Write>(&self, f: &mut fmt::Formatter<W>) -> fmt::Result {
        match self {
            Fault::WordCount => write!(
                f,
                "a row is an upper frequency, a least clock, d, the sdadel divisor, the scldel divisor, and equal or double"
            ),
            Fault::NotANumber(column) => write!(f, "{column} is not a number from 0 to 4294967295"),
            Fault::NotAShape => write!(f, "the shape is neither equal nor double"),
            Fault::NotAccepted => write!(
                f,
                "a row has an upper frequency above that of the row before it, d from 8 to 256, and divisors that are not 0"
            ),
            Fault::TooMany => write!(f, "more than 16 rows"),
        }
    }
}

fn number(word: &[u8], column: &'static str) -> Result<u32, Fault> {
    numerals::parse(word).ok_or(Fault::NotANumber(column))
}

// The number that stands for a shape in a table.
// By hand: a word of the text, and a word of the table, by which `bands` reads it.
fn shape(word: &[u8]) -> Result<u32, Fault> {
    match word {
        b"equal" => Ok(0),
        b"double" => Ok(1),
        _ => Err(Fault::NotAShape),
    }
}

// The rule of a table is asked of its rows so far, so that the first row which breaks it is the one that is named.
fn add_row(row: [u32; WORDS], table: &mut Table) -> Result<(), Fault> {
    for word in row {
        for byte in word.to_le_bytes() {
            table.try_push(byte).map_err(|_| Fault::TooMany)?;
        }
    }
    bands::load(table.as_slice()).map_err(|_| Fault::NotAccepted)
}

// A line without words has no row.
fn take_line(line: &[u8], table: &mut Table) -> Result<(), Fault> {
    let mut words: ArrayVec<&[u8], WORDS> = ArrayVec::new();
    for word in Words(line) {
        words.try_push(word).map_err(|_| Fault::WordCount)?;
    }
    match words.as_slice() {
        [] => Ok(()),
        [upper, least, d, sdadel, scldel, form] => {
            let row = [
                number(upper, "the upper frequency")?,
                number(least, "the least clock")?,
                number(d, "d")?,
                number(sdadel, "the sdadel divisor")?,
                number(scldel, "the scldel divisor")?,
                shape(form)?,
            ];
            add_row(row, table)
        }
        _ => Err(Fault::WordCount),
    }
}

// The table of a text. It is empty, which is no table, where something is wrong.
pub fn read(rt: &HostRuntime, name: &[u8], text: &[u8]) -> Table {
    let mut table = ArrayVec::new();
    for (number, line) in (1usize..).zip(Lines(text)) {
        if let Err(fault) = take_line(line, &mut table) {
            input::complain(rt, name);
            let _ = eprintln!(rt; ":{number}: {fault}");
            return ArrayVec::new();
        }
    }
    if table.is_empty() {
        input::say(rt, name, "no row");
    }
    table
}
