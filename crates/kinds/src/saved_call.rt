// A saved call that nothing was done for.
ghost use Rattle.std.specs.Prelude.{◌≡◌};
ghost use Rattle.calls.specs.Run.{no_call};
ghost use Rattle.calls.specs.Steps.{fresh_at};

use calls::{Outcome, SavedCall, Step};

pub fn fresh(n: u32, step: Step) -> SavedCall
    ensures { result ≡ fresh_at n step }
{
    SavedCall {
        call: n,
        piece: 0,
        byte: 0,
        out: 0,
        word: 0,
        accesses: 0,
        outcome: Outcome::Done(0),
        step,
    }
}

// What a refused begin hands out: it has number 0, which no advance takes.
// By hand: no `Default`, since this is an ended call of nobody, and the name says so.
pub fn no_call() -> SavedCall
    ensures { result ≡ no_call }
{
    fresh(0, Step::Ended)
}
