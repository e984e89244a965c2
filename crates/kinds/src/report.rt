// A report: its number, its value, the register that is awaited, and whether an advance is refused or can go on.
ghost use Rattle.std.specs.Prelude.{◌≡◌};
ghost use Rattle.calls.specs.Advances.{is_refusal};
ghost use Rattle.calls.specs.Joined.{is_full};
ghost use Rattle.calls.specs.Outcomes.{report_number, report_value, awaited_of};

use crate::outcome;
use calls::Report;

// The numbers that follow the outcomes'.
const WAITING: u32 = 10;

const REFUSED: u32 = WAITING + 1;

const FULL: u32 = REFUSED + 1;

// By hand: a report is a number and a value, as an outcome is.
pub fn number(report: Report) -> u32
    ensures { result ≡ report_number report }
{
    match report {
        Report::Over(o) => outcome::number(o),
        Report::Full => FULL,
        Report::Waiting(_) => WAITING,
        Report::Refused(_) => REFUSED,
    }
}

pub fn value(report: Report) -> u32
    ensures { result ≡ report_value report }
{
    match report {
        Report::Over(o) => outcome::value(o),
        Report::Full | Report::Waiting(_) => 0,
        Report::Refused(why) => why.into(),
    }
}

// The offset of the register whose word a waiting call awaits.
pub fn awaited(report: Report) -> u32
    ensures { result ≡ awaited_of report }
{
    match report {
        Report::Waiting(r) => r.offset(),
        _ => 0,
    }
}

pub fn is_refusal(report: Report) -> bool
    ensures { result ≡ is_refusal report }
{
    matches!(report, Report::Refused(_))
}

pub fn is_full(report: Report) -> bool
    ensures { result ≡ is_full report }
{
    matches!(report, Report::Full)
}
