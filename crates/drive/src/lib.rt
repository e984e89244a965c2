// A call driven to its end, with a log of fixed size, piece after piece.
#![tactic(auto)]

ghost use Rattle.std.specs.Prelude.{◌≡◌, ◌≤◌, length};
ghost use Rattle.calls.specs.Joined.{reached_by, go_on};
ghost use Rattle.calls.specs.Run.{run_of};
ghost use Rattle.window.specs.Window.{laid};
ghost use Rattle.drive.specs.Drive.{as_driven, in_lines, places, run_for};

use calls::{Advanced, Description, Report, SavedCall};
use kinds::report;
use lines::Form;
use window::Cursor;

// The words of the log: 512 places. A run has as many advances as make 131,072 places.
const LOG: usize = 1024;

const PIECES: usize = 256;

// What is driven: a call's description, its operations and the answers that it gets.
#[derive(Clone, Copy)]
pub struct Job<'a> {
    pub description: Description,
    pub operations: &'a [u32],
    pub answers: &'a [u32],
}

// How far a call has come: where its text stands, and what its advances gave.
#[derive(Clone, Copy)]
pub struct Driven {
    pub place: Cursor,
    pub advanced: Advanced,
}

// One advance more, over 512 places, and the text of its accesses, which are numbered on.
// By hand: `advance_bytes` sums two advances like this too, and the pieces differ in all else. Form, buffer and window go side by side here
// and below, as in `window::Cursor`.
fn piece(t: Driven, form: Form, job: Job, buffer: &mut [u8], out: &mut [u8]) -> Driven
    requires { (t.advanced.used ≤ length job.answers.now) × (t.advanced.written ≤ 131072) }
    ensures { as_driven result buffer.new out.new ≡ go_on (in_lines form) job.entry.description job.entry.operations.now job.entry.answers.now 512 (as_driven t buffer.old out.old) }
{
    // By hand: fixed memory, so that a run's log comes in pieces.
    let mut log = [0; LOG];
    let far = t.advanced;
    let a = in_place::advance(
        job.description,
        job.operations,
        far.saved,
        buffer,
        &job.answers[far.used..],
        &mut log,
    );
    let first = (far.written + 1) as u32;
    Driven {
        place: lines::put_log(t.place, form, first, &log[..2 * a.written], out),
        advanced: Advanced {
            used: far.used + a.used,
            written: far.written + a.written,
            ..a
        },
    }
}

fn run(
    p: Cursor,
    form: Form,
    job: Job,
    saved: SavedCall,
    buffer: &mut [u8],
    out: &mut [u8],
) -> Driven
    ensures { as_driven result buffer.new out.new ≡ reached_by (in_lines form) (run_of job.entry.description job.entry.operations.now places saved buffer.old job.entry.answers.now) (laid p out.old) }
{
    let advanced = Advanced {
        used: 0,
        written: 0,
        saved,
        report: Report::Full,
    };
    let mut t = Driven { place: p, advanced };
    for _ in 0..PIECES {
        t = piece(t, form, job, buffer, out);
        if !report::is_full(t.advanced.report) {
            break;
        }
    }
    t
}

// Drives a call from its beginning; its accesses are put into the window, in one of the two forms.
pub fn drive(p: Cursor, form: Form, job: Job, buffer: &mut [u8], out: &mut [u8]) -> Driven
    ensures { as_driven result buffer.new out.new ≡ reached_by (in_lines form) (run_for job.entry.description job.entry.operations.now buffer.old job.entry.answers.now) (laid p out.old) }
{
    let begun = driver::begin(job.description, job.operations, buffer);
    run(p, form, job, begun.saved, buffer, out)
}
