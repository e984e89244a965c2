// The service page of a log: each entry on lines of 80 columns, with the names of its register and of its fields.
#![tactic(auto)]

ghost use Rattle.std.specs.Prelude.{◌≡◌, ◌%◌, ◌<◌};
ghost use Rattle.page.specs.Page.{access_of, is_known, entries_text, page_of, fault_of, left, page_in, page_refusal, page_length};
ghost use Rattle.page.specs.Put.{size_in};
ghost use Rattle.window.specs.Window.{laid, emit_of};
ghost use Rattle.words.specs.Words.{words_in};

use registers::Register;
use window::Cursor;

mod entry;
mod line;
mod names;

// What an entry's code says.
#[derive(Clone, Copy, Debug, PartialEq, Eq)]
pub enum Access {
    Read(Register),
    Write(Register),
}

// What is wrong with a log: its last entry is not whole, or the entry of a number has no register's code.
#[derive(Clone, Copy, Debug, PartialEq, Eq)]
pub enum Fault {
    NotWhole,
    UnknownCode(usize),
}

// Of a page that is laid out and has so many bytes, or is refused: 0, or the number of the refusal.
// By hand: C reads the number.
pub fn refusal(page: Option<usize>) -> u32
    ensures { result ≡ page_refusal page }
{
    match page {
        Some(_) => 0,
        None => 15,
    }
}

// How long it is, 0 if it is refused.
pub fn length(page: Option<usize>) -> usize
    ensures { result ≡ page_length page }
{
    page.unwrap_or(0)
}

// Of an entry's number its last six digits are shown, and no more of it is kept: so it has no end.
fn last_digits(n: u32) -> u32
    ensures { (result ≡ n % 1000000) × (result < 1000000) }
{
    n % 1_000_000
}

// Puts the lines of a log's entries, the first with the number `first`. One whose code is no register's has no line.
// By hand: the numbers have no end, and a range zipped to the entries would end at the top of 32 bits.
pub fn put_entries(p: Cursor, first: u32, log: &[u32], out: &mut [u8]) -> Cursor
    ensures { laid result out.new ≡ emit_of (entries_text first log.now) (laid p out.old) }
{
    let mut q = p;
    let mut n = last_digits(first);
    let (entries, _) = log.as_chunks::<2>();
    for entry in entries {
        q = entry::put_entry(q, n, entry[0], entry[1], out);
        n = last_digits(n + 1);
    }
    q
}

// The same for a log in bytes, from entry 1 on: its page.
// By hand: an entry is two words above and eight bytes here, and a loop for both would take a closure that reads one.
fn put_log(p: Cursor, log: &[u8], out: &mut [u8]) -> Cursor
    ensures { laid result out.new ≡ emit_of (page_of (words_in log.now)) (laid p out.old) }
{
    let mut q = p;
    let mut n = last_digits(1);
    let (entries, _) = log.as_chunks::<8>();
    for entry in entries {
        q = entry::put_entry(q, n, words::get(entry, 0), words::get(entry, 1), out);
        n = last_digits(n + 1);
    }
    q
}

fn is_known(code: u32) -> bool
    ensures { result ≡ is_known (access_of code) }
{
    entry::decoded(code).is_some()
}

// What is wrong with a log in bytes.
pub fn fault_in(log: &[u8]) -> Result<(), Fault>
    ensures { result ≡ fault_of log.now }
{
    let (entries, rest) = log.as_chunks::<8>();
    if !rest.is_empty() {
        return Err(Fault::NotWhole);
    }
    for (i, entry) in entries.iter().enumerate() {
        if !is_known(words::get(entry, 0)) {
            return Err(Fault::UnknownCode(i + 1));
        }
    }
    Ok(())
}

// The size of a log's page, entry by entry, as long as there is room: so no sum can wrap.
// By hand: as in `put_log`.
fn measured(log: &[u8], room: usize) -> Option<usize>
    ensures { result ≡ size_in room (page_of (words_in log.now)) }
{
    let mut left = room;
    let mut n = last_digits(1);
    let (entries, _) = log.as_chunks::<8>();
    for entry in entries {
        let size = entry::size(n, words::get(entry, 0), words::get(entry, 1));
        left = left.checked_sub(size)?;
        n = last_digits(n + 1);
    }
    Some(room - left)
}

// Lays the page of a log out at the start of `out`, and says how long it is; the bytes after it stay. A log with a fault and a page that
// is longer than `out` are refused, and then every byte stays.
pub fn lay_out(log: &[u8], out: &mut [u8]) -> Option<usize>
    ensures { left result out.new ≡ page_in log.now out.old }
{
    fault_in(log).ok()?;
    let size = measured(log, out.len())?;
    put_log(Cursor::new(0), log, out);
    Some(size)
}
