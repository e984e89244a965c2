// The driver: begin, advance and the next access of every listed call, each equal to its definition in the crate `calls`.
// It touches no register: answers are lent to it, and what it would write stands in the log that it leaves.
// By hand: what a call is lent goes side by side, as its callers have it.
#![tactic(auto)]

ghost use Rattle.std.specs.Prelude.{◌≡◌, length};
ghost use Rattle.calls.specs.Run.{begun_of, as_final, final_of};
ghost use Rattle.driver.specs.Next.{next_for};
ghost use Rattle.driver.specs.Turn.{untouched};

use calls::{Advanced, Begun, Description, Next, Report, SavedCall};
use kinds::saved_call;
use request::Request;

mod accept;
mod quick;
mod request;
mod run;
mod view;

// Begins a call. The operation list and the buffer are looked at, not kept: they are lent to each advance again.
#[tactic(auto, unfolding(calls::specs::Run::begun_of))]
pub fn begin(d: Description, ops: &[u32], buffer: &[u8]) -> Begun
    ensures { result ≡ begun_of d ops.now (length buffer.now) }
{
    match Request::new(d, ops, buffer.len()) {
        Ok(request) => Begun {
            saved: steps::begin_at(request.call, request.has_pieces()),
            verdict: Ok(request.call),
        },
        Err(why) => Begun {
            saved: saved_call::no_call(),
            verdict: Err(why),
        },
    }
}

// Nothing was done: the saved call is handed back as it is.
fn stopped(report: Report, saved: SavedCall) -> Advanced
    ensures { result ≡ untouched report saved }
{
    Advanced {
        used: 0,
        written: 0,
        saved,
        report,
    }
}

// Makes accesses until the call has ended, the log has no place left, or a read finds no answer. Each entry of the log is two
// words: the register's offset, plus 0x100 for a write, and the value.
#[tactic(auto, unfolding(calls::specs::Run::run_of))]
pub fn advance(
    d: Description,
    ops: &[u32],
    saved: SavedCall,
    buffer: &mut [u8],
    answers: &[u32],
    log: &mut [u32],
) -> Advanced
    ensures { as_final result buffer.new log.new ≡ final_of d ops.now saved buffer.old answers.now log.old }
{
    match Request::new(d, ops, buffer.len()) {
        Ok(request) => match request.standing(d, saved) {
            Ok(Some(first)) => run::run(&request, d, first, saved, buffer, answers, log),
            Ok(None) => stopped(Report::Over(saved.outcome), saved),
            Err(row_13) => stopped(Report::Refused(row_13), saved),
        },
        Err(why) => stopped(Report::Refused(why), saved),
    }
}

// The access that the next advance makes first: so firmware knows which register to read before it lends the answer.
pub fn next_access(d: Description, ops: &[u32], saved: SavedCall, buffer: &[u8]) -> Next
    ensures { result ≡ next_for d ops.now saved buffer.now }
{
    match Request::new(d, ops, buffer.len()) {
        Ok(request) => match request.standing(d, saved) {
            Ok(Some(first)) => access::register_at(d, first.view, saved),
            Ok(None) => Next::Over,
            Err(row_13) => Next::Refused(row_13),
        },
        Err(why) => Next::Refused(why),
    }
}
