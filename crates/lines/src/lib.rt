// The lines that the bench prints, each put into a window on the whole text.
#![tactic(auto)]

ghost use Rattle.std.specs.Prelude.{◌≡◌};
ghost use Rattle.numerals.specs.Numbers.{hex_of, decimal_of};
ghost use Rattle.window.specs.Window.{laid, emit_of};
ghost use Rattle.lines.specs.Lines.{space, newline, number_field, outcome_word, report_word, call_start, call_line, letter_of, access_line, access_lines, log_text, bytes_text, full_buffer, buffer_line, refusal_line};

use calls::{Outcome, Report};
use kinds::report;
use window::Cursor;

// How a log stands in the text: as access lines, or as a service page.
#[derive(Clone, Copy, Debug, PartialEq, Eq)]
pub enum Form {
    Lines,
    Page,
}

// By hand: as in `put_decimal`, `Display` promises its bytes for a `String` alone.
fn outcome_word(o: Outcome) -> &'static [u8]
    ensures { result.now ≡ outcome_word o }
{
    match o {
        Outcome::Done(_) => b"done",
        Outcome::Bus => b"bus",
        Outcome::Arbitration => b"arbitration",
        Outcome::Nack => b"nack",
        Outcome::Stopped => b"stopped",
        Outcome::ExpectedWrite => b"expected-write",
        Outcome::ExpectedRead => b"expected-read",
        Outcome::EventRead(_) => b"event-read",
        Outcome::EventWrite(_) => b"event-write",
        Outcome::EventStop => b"event-stop",
    }
}

fn report_word(r: Report) -> &'static [u8]
    ensures { result.now ≡ report_word r }
{
    match r {
        Report::Over(o) => outcome_word(o),
        Report::Waiting(_) => b"waiting",
        Report::Refused(_) => b"refused",
        Report::Full => b"full",
    }
}

// By hand: `write!` promises its bytes for a `String` alone, and fixed memory has none.
fn put_decimal(p: Cursor, n: u64, out: &mut [u8]) -> Cursor
    ensures { laid result out.new ≡ emit_of (decimal_of n) (laid p out.old) }
{
    let digits = numerals::digits(n);
    window::put_all(p, numerals::significant(&digits), out)
}

// By hand: a byte and a word have a function each in `numerals`, and what separates has a name as in the definition.
fn put_byte(p: Cursor, b: u8, out: &mut [u8]) -> Cursor
    ensures { laid result out.new ≡ emit_of (hex_of 2 b) (laid p out.old) }
{
    let digits = numerals::hex_byte(b);
    window::put_all(p, &digits, out)
}

fn put_word(p: Cursor, n: u32, out: &mut [u8]) -> Cursor
    ensures { laid result out.new ≡ emit_of (hex_of 8 n) (laid p out.old) }
{
    let digits = numerals::hex(n);
    window::put_all(p, &digits, out)
}

fn put_space(p: Cursor, out: &mut [u8]) -> Cursor
    ensures { laid result out.new ≡ emit_of space (laid p out.old) }
{
    window::put_all(p, b" ", out)
}

fn put_newline(p: Cursor, out: &mut [u8]) -> Cursor
    ensures { laid result out.new ≡ emit_of newline (laid p out.old) }
{
    window::put_all(p, b"\n", out)
}

fn put_number_field(p: Cursor, n: u64, out: &mut [u8]) -> Cursor
    ensures { laid result out.new ≡ emit_of (number_field n) (laid p out.old) }
{
    let p = put_space(p, out);
    put_decimal(p, n, out)
}

#[tactic(auto, using(window::proofs::Laid::then))]
fn put_call_start(p: Cursor, n: u32, r: Report, out: &mut [u8]) -> Cursor
    ensures { laid result out.new ≡ emit_of (call_start n r) (laid p out.old) }
{
    let p = put_decimal(p, n as u64, out);
    let p = put_space(p, out);
    window::put_all(p, report_word(r), out)
}

// The line of a call: its number, what came of it, the answers used and the accesses made.
#[tactic(auto, unfolding(crate::specs::Lines::call_line), using(window::proofs::Laid::then))]
pub fn put_call(
    p: Cursor,
    n: u32,
    r: Report,
    used: usize,
    accesses: usize,
    out: &mut [u8],
) -> Cursor
    ensures { laid result out.new ≡ emit_of (call_line n r used accesses) (laid p out.old) }
{
    let p = put_call_start(p, n, r, out);
    let p = put_number_field(p, report::value(r) as u64, out);
    let p = put_number_field(p, used as u64, out);
    let p = put_number_field(p, accesses as u64, out);
    put_newline(p, out)
}

fn put_letter(p: Cursor, offset: u32, out: &mut [u8]) -> Cursor
    ensures { laid result out.new ≡ emit_of (letter_of offset) (laid p out.old) }
{
    if offset < 0x100 {
        window::put_all(p, b"r ", out)
    } else {
        window::put_all(p, b"w ", out)
    }
}

#[tactic(auto, unfolding(crate::specs::Lines::access_line), using(window::proofs::Laid::then))]
fn put_access(p: Cursor, offset: u32, value: u32, out: &mut [u8]) -> Cursor
    ensures { laid result out.new ≡ emit_of (access_line offset value) (laid p out.old) }
{
    let p = put_letter(p, offset, out);
    let p = put_byte(p, (offset % 0x100) as u8, out);
    let p = put_space(p, out);
    let p = put_word(p, value, out);
    put_newline(p, out)
}

// The lines of the entries that stand in a log's words.
// By hand: the pattern names both words of an entry.
#[tactic(auto, using(crate::proofs::Texts::entries))]
fn put_accesses(p: Cursor, log: &[u32], out: &mut [u8]) -> Cursor
    ensures { laid result out.new ≡ emit_of (access_lines log.now) (laid p out.old) }
{
    let mut q = p;
    let mut rest = log;
    while let [offset, value, others @ ..] = rest {
        q = put_access(q, *offset, *value, out);
        rest = others;
    }
    q
}

// The entries of a log's words in one of the two forms; on a page the first has the number `first`.
#[tactic(auto, unfolding(crate::specs::Lines::log_text))]
pub fn put_log(p: Cursor, form: Form, first: u32, log: &[u32], out: &mut [u8]) -> Cursor
    ensures { laid result out.new ≡ emit_of (log_text form first log.now) (laid p out.old) }
{
    // By hand: who runs the program chooses the form, so a closure for it would be chosen by a `match` too.
    match form {
        Form::Lines => put_accesses(p, log, out),
        Form::Page => page::put_entries(p, first, log, out),
    }
}

#[tactic(auto, using(crate::proofs::Texts::buffer))]
fn put_bytes(p: Cursor, bytes: &[u8], out: &mut [u8]) -> Cursor
    ensures { laid result out.new ≡ emit_of (bytes_text bytes.now) (laid p out.old) }
{
    let mut q = p;
    for &b in bytes {
        q = put_byte(q, b, out);
    }
    q
}

fn put_full_buffer(p: Cursor, bytes: &[u8], out: &mut [u8]) -> Cursor
    ensures { laid result out.new ≡ emit_of (full_buffer bytes.now) (laid p out.old) }
{
    let p = window::put_all(p, b"b ", out);
    let p = put_bytes(p, bytes, out);
    put_newline(p, out)
}

// The line of a buffer.
#[tactic(auto, unfolding(crate::specs::Lines::buffer_line), using(crate::proofs::Texts::tests))]
pub fn put_buffer(p: Cursor, bytes: &[u8], out: &mut [u8]) -> Cursor
    ensures { laid result out.new ≡ emit_of (buffer_line bytes.now) (laid p out.old) }
{
    if bytes.is_empty() {
        window::put_all(p, b"b\n", out)
    } else {
        put_full_buffer(p, bytes, out)
    }
}

// What is printed of a file that is no bench file.
pub fn put_refusal(p: Cursor, out: &mut [u8]) -> Cursor
    ensures { laid result out.new ≡ emit_of refusal_line (laid p out.old) }
{
    window::put_all(p, b"file 14\n", out)
}
