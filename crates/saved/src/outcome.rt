// The outcome of a number and a value. By hand: it takes both to know one, and `Outcome` is of `calls`.
ghost use Rattle.std.specs.Prelude.{◌≡◌, cond, eqb};
ghost use Rattle.saved.specs.Saved.{outcome_at};

use calls::Outcome;

// An outcome that comes with nothing.
fn without_value(o: Outcome, v: u32) -> Option<Outcome>
    ensures { result ≡ cond (eqb v 0) (Some o) None }
{
    (v == 0).then_some(o)
}

#[tactic(auto, unfolding(crate::specs::Saved::outcome_at))]
pub fn outcome_at(n: u32, v: u32) -> Option<Outcome>
    ensures { result ≡ outcome_at n v }
{
    match n {
        0 => Some(Outcome::Done(v)),
        1 => without_value(Outcome::Bus, v),
        2 => without_value(Outcome::Arbitration, v),
        3 => without_value(Outcome::Nack, v),
        4 => without_value(Outcome::Stopped, v),
        5 => without_value(Outcome::ExpectedWrite, v),
        6 => without_value(Outcome::ExpectedRead, v),
        7 => Some(Outcome::EventRead(v)),
        8 => Some(Outcome::EventWrite(v)),
        9 => without_value(Outcome::EventStop, v),
        _ => None,
    }
}
