// An advance over bytes: answers are read and entries written piece by piece, through arrays of words.
#![tactic(auto)]

ghost use Rattle.std.specs.Prelude.{◌≡◌, ◌*◌, ◌/◌, ◌-◌, ◌≤◌, min, length, drop};
ghost use Rattle.calls.specs.Joined.{as_reached, reached_by, go_on, rest_from};
ghost use Rattle.calls.specs.Run.{as_final, final_of, run_of};
ghost use Rattle.words.specs.Words.{words_in};
ghost use Rattle.advance_bytes.specs.Pieces.{in_bytes};

use calls::{Advanced, Description, Report, SavedCall};
use kinds::report;

// By hand: `run` is lent the operations, the buffer, the answers and the log one by one, so a struct of them would be made there only to
// be taken apart in each clause. A piece is read into arrays of fixed length, since there is no heap.

// An advance more, after those that gave `t`, whose answers are read into `window`. It has room for an answer to each access that
// the log has a place for, so none is missed.
#[tactic(auto, using(words::proofs::Turns::decoded_count, crate::proofs::Pieces::read_through))]
fn advance(
    t: Advanced,
    d: Description,
    ops: &[u32],
    buffer: &mut [u8],
    answers: &[u8],
    window: &mut [u32],
    log: &mut [u32],
) -> Advanced
    requires { length log.old / 2 ≤ length window.old }
    ensures { as_final result buffer.new log.new ≡ final_of d ops.now t.saved buffer.old (drop t.used (words_in answers.now)) log.old }
{
    let n = words::decode_from(answers, t.used, window);
    driver::advance(d, ops, t.saved, buffer, &window[..n], log)
}

// The same over as many places as `entries` has and the log has left, and the entries put into the log.
fn piece(
    t: Advanced,
    d: Description,
    ops: &[u32],
    buffer: &mut [u8],
    answers: &[u8],
    log: &mut [u8],
    window: &mut [u32],
    entries: &mut [u32],
) -> Advanced
    requires { (t.used ≤ length answers.now / 4) × (t.written ≤ length log.old / 8) × (length entries.old / 2 ≤ length window.old) }
    ensures { as_reached result buffer.new log.new ≡ go_on in_bytes d ops.now (words_in answers.now) (min (length entries.old / 2) (length log.old / 8 - t.written)) (as_reached t buffer.old log.old) }
{
    let k = (entries.len() / 2).min(log.len() / 8 - t.written);
    let a = advance(t, d, ops, buffer, answers, window, &mut entries[..2 * k]);
    words::encode_at(&entries[..2 * a.written], 2 * t.written, log);
    Advanced {
        used: t.used + a.used,
        written: t.written + a.written,
        ..a
    }
}

// The pieces after the first.
// By hand: there is no heap, so that the answers and entries of a piece have arrays of fixed length; and
// the loop counts nothing: each piece says how far the log has come.
fn rest(
    first: Advanced,
    d: Description,
    ops: &[u32],
    buffer: &mut [u8],
    answers: &[u8],
    log: &mut [u8],
) -> Advanced
    requires { (first.used ≤ length answers.now / 4) × (first.written ≤ length log.old / 8) }
    ensures { as_reached result buffer.new log.new ≡ rest_from in_bytes d ops.now (words_in answers.now) (length log.old / 8 - first.written) (as_reached first buffer.old log.old) }
{
    let mut window = [0; 128];
    let mut entries = [0; 256];
    let mut t = first;
    while report::is_full(t.report) && t.written < log.len() / 8 {
        t = piece(t, d, ops, buffer, answers, log, &mut window, &mut entries);
    }
    t
}

// The first piece is small, since a firmware lends one answer at a time.
pub fn run(
    saved: SavedCall,
    d: Description,
    ops: &[u32],
    buffer: &mut [u8],
    answers: &[u8],
    log: &mut [u8],
) -> Advanced
    ensures { as_reached result buffer.new log.new ≡ reached_by in_bytes (run_of d ops.now (length log.old / 8) saved buffer.old (words_in answers.now)) log.old }
{
    let mut window = [0; 8];
    let mut entries = [0; 16];
    let begun = Advanced {
        used: 0,
        written: 0,
        saved,
        report: Report::Full,
    };
    let t = piece(
        begun,
        d,
        ops,
        buffer,
        answers,
        log,
        &mut window,
        &mut entries,
    );
    if report::is_full(t.report) {
        return rest(t, d, ops, buffer, answers, log);
    }
    t
}
