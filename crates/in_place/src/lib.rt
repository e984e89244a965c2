// The driver's advance with the saved call lent and updated, as the Rust's `&mut self` is: a thin entry over the advance by
// value.
#![tactic(auto)]

ghost use Rattle.std.specs.Prelude.{◌≡◌};
ghost use Rattle.calls.specs.Run.{as_final, final_of};
ghost use Rattle.in_place.specs.InPlace.{in_place};

use calls::{Advanced, Description, Report, SavedCall};

// What an advance says, beside the saved call.
// By hand: an `Advanced` would have the saved call twice, as lent and as returned.
#[derive(Clone, Copy)]
pub struct Progress {
    pub used: usize,
    pub written: usize,
    pub report: Report,
}

// Advances the call that is saved in place. A refused one leaves it as it was.
pub fn advance_in_place(
    d: Description,
    ops: &[u32],
    saved: &mut SavedCall,
    buffer: &mut [u8],
    answers: &[u32],
    log: &mut [u32],
) -> Progress
    ensures { in_place result saved.new buffer.new log.new ≡ final_of d ops.now saved.old buffer.old answers.now log.old }
{
    let a = driver::advance(d, ops, *saved, buffer, answers, log);
    *saved = a.saved;
    Progress {
        used: a.used,
        written: a.written,
        report: a.report,
    }
}

// The same with the saved call by value.
// By hand: the two differ in how the saved call is lent, which no type parameter says; `in_place_demand_3` is of both.
pub fn advance(
    d: Description,
    ops: &[u32],
    mut saved: SavedCall,
    buffer: &mut [u8],
    answers: &[u32],
    log: &mut [u32],
) -> Advanced
    ensures { as_final result buffer.new log.new ≡ final_of d ops.now saved buffer.old answers.now log.old }
{
    let p = advance_in_place(d, ops, &mut saved, buffer, answers, log);
    Advanced {
        used: p.used,
        written: p.written,
        saved,
        report: p.report,
    }
}
