// An outcome: its number, its value, and what the rules ask of it.
ghost use Rattle.std.specs.Prelude.{◌≡◌};
ghost use Rattle.calls.specs.Outcomes.{is_done, is_event_read, outcome_number, outcome_value};

use calls::Outcome;

// By hand: no `From<Outcome> for u32`, since an outcome is its number and its value, which C reads side by side.
pub fn number(o: Outcome) -> u32
    ensures { result ≡ outcome_number o }
{
    match o {
        Outcome::Done(_) => 0,
        Outcome::Bus => 1,
        Outcome::Arbitration => 2,
        Outcome::Nack => 3,
        Outcome::Stopped => 4,
        Outcome::ExpectedWrite => 5,
        Outcome::ExpectedRead => 6,
        Outcome::EventRead(_) => 7,
        Outcome::EventWrite(_) => 8,
        Outcome::EventStop => 9,
    }
}

pub fn is_done(o: Outcome) -> bool
    ensures { result ≡ is_done o }
{
    matches!(o, Outcome::Done(_))
}

pub fn is_event_read(o: Outcome) -> bool
    ensures { result ≡ is_event_read o }
{
    matches!(o, Outcome::EventRead(_))
}

// The count of bytes or the address that an outcome comes with.
pub fn value(o: Outcome) -> u32
    ensures { result ≡ outcome_value o }
{
    match o {
        Outcome::Done(n) | Outcome::EventRead(n) | Outcome::EventWrite(n) => n,
        _ => 0,
    }
}
