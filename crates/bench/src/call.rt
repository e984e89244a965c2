// The text of one call: its line, its accesses, its buffer.
ghost use Rattle.std.specs.Prelude.{◌≡◌, cond, not, ◌&&◌, []};
ghost use Rattle.benchfile.specs.Calls.{lent_buffer};
ghost use Rattle.calls.specs.Advances.{is_refusal};
ghost use Rattle.drive.specs.Drive.{run_for};
ghost use Rattle.lines.specs.Lines.{buffer_line};
ghost use Rattle.window.specs.Window.{laid, emit_of};
ghost use Rattle.bench.specs.Text.{shows_buffer, run_text, told_by, call_text, run_in};

use calls::Report;
use drive::Job;
use kinds::report;
use lines::Form;
use window::Cursor;

// The room for a buffer: one byte more than a driver takes.
const ROOM: usize = 65_536;

// What the line of a call says besides its number.
// By hand: a line says accesses where an advance says places.
#[derive(Clone, Copy)]
pub struct Told {
    pub report: Report,
    pub used: usize,
    pub accesses: usize,
}

// By hand: by its number, as a file has it.
#[tactic(auto, unfolding(crate::specs::Text::shows_buffer), using(fields::proofs::Tests::tests))]
fn shows_buffer(n: u32) -> bool
    ensures { result ≡ shows_buffer n }
{
    matches!(n, 7 | 9 | 11)
}

// The buffer after the call, where its line is printed.
fn put_buffer(p: Cursor, n: u32, r: Report, buffer: &[u8], out: &mut [u8]) -> Cursor
    ensures { laid result out.new ≡ emit_of (cond (shows_buffer n && not (is_refusal r)) (buffer_line buffer.now) []) (laid p out.old) }
{
    if shows_buffer(n) && !report::is_refusal(r) {
        return lines::put_buffer(p, buffer, out);
    }
    p
}

// The call is driven for what its line says; its text goes nowhere.
// By hand: a window of one byte is fixed memory.
fn tell(job: Job, buffer: &mut [u8]) -> Told
    ensures { result ≡ told_by (run_for job.entry.description job.entry.operations.now buffer.old job.entry.answers.now) }
{
    let mut nowhere = [0; 1];
    let t = drive::drive(Cursor::new(0), Form::Lines, job, buffer, &mut nowhere);
    let far = t.advanced;
    Told {
        report: far.report,
        used: far.used,
        accesses: far.written,
    }
}

// The call is driven again, now with its text, and the buffer that it leaves is shown.
fn show(p: Cursor, form: Form, n: u32, job: Job, buffer: &mut [u8], out: &mut [u8]) -> Cursor
    ensures { laid result out.new ≡ emit_of (run_text form n (run_for job.entry.description job.entry.operations.now buffer.old job.entry.answers.now)) (laid p out.old) }
{
    let t = drive::drive(p, form, job, buffer, out);
    put_buffer(t.place, n, t.advanced.report, buffer, out)
}

// Each of the two goes over the buffer that the file gives.
// By hand: fixed memory here and in `show_call`, as the longest buffer takes.
fn tell_call(n: u32, a: u32, head: &[u32], job: Job) -> Told
    ensures { result ≡ told_by (run_for job.entry.description job.entry.operations.now (lent_buffer n a head.now) job.entry.answers.now) }
{
    let mut room = [0; ROOM];
    let size = benchfile::lay(n, a, head, &mut room);
    tell(job, &mut room[..size])
}

fn show_call(
    p: Cursor,
    form: Form,
    n: u32,
    a: u32,
    head: &[u32],
    job: Job,
    out: &mut [u8],
) -> Cursor
    ensures { laid result out.new ≡ emit_of (run_text form n (run_for job.entry.description job.entry.operations.now (lent_buffer n a head.now) job.entry.answers.now)) (laid p out.old) }
{
    let mut room = [0; ROOM];
    let size = benchfile::lay(n, a, head, &mut room);
    show(p, form, n, job, &mut room[..size], out)
}

// The call's line stands before its accesses. So the call is driven twice, first for what its line says: without its buffer's text, which
// may be longer than all else and would be laid out for nothing.
// By hand: place, form and window go side by side, as in `window::Cursor`.
pub fn put_call(
    p: Cursor,
    form: Form,
    n: u32,
    a: u32,
    head: &[u32],
    answers: &[u32],
    out: &mut [u8],
) -> Cursor
    ensures { laid result out.new ≡ emit_of (call_text form n (run_in n a head.now answers.now)) (laid p out.old) }
{
    let like = benchfile::plain(n);
    let job = Job {
        description: benchfile::describe(n, a, head),
        operations: benchfile::operations(n, head),
        answers,
    };
    let told = tell_call(like, a, head, job);
    let p = lines::put_call(p, n, told.report, told.used, told.accesses, out);
    show_call(p, form, like, a, head, job, out)
}
