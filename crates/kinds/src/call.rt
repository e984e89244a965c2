// A call: its kind, and what its description has.
ghost use Rattle.std.specs.Prelude.{◌≡◌, ◌&&◌, ◌||◌, not};
ghost use Rattle.calls.specs.Calls.{is_call, is_kind, transaction, manual, manual_write, receives, transmits, eventful, is_configured, has_secondary};
ghost use Rattle.calls.specs.declared.Call.TheVariants.{WaitForEvent, WaitForStop};

use calls::{Ack, Call, TargetConfig};

#[tactic(auto, using(crate::proofs::Equal::derived_is_call))]
pub fn is_call(c: Call, other: Call) -> bool
    ensures { result ≡ is_call c other }
{
    c == other
}

pub fn moves_bytes(c: Call) -> bool
    ensures { result ≡ (receives c || transmits c) }
{
    is_receiver(c) | is_transmitter(c)
}

#[tactic(auto, unfolding(calls::specs::Calls::is_call, calls::specs::Calls::is_kind))]
pub fn is_transaction(c: Call) -> bool
    ensures { result ≡ transaction c }
{
    matches!(c, Call::Transaction)
}

// The kinds, each in either acknowledge mode. A match on the call costs one test of its tag; its number costs a table.
#[tactic(auto, unfolding(calls::specs::Calls::is_call, calls::specs::Calls::is_kind))]
pub fn is_wait_for_event(c: Call) -> bool
    ensures { result ≡ is_kind c WaitForEvent }
{
    matches!(c, Call::WaitForEvent(_))
}

#[tactic(auto, unfolding(calls::specs::Calls::is_call, calls::specs::Calls::is_kind))]
pub fn is_wait_for_stop(c: Call) -> bool
    ensures { result ≡ is_kind c WaitForStop }
{
    matches!(c, Call::WaitForStop(_))
}

#[tactic(auto, unfolding(calls::specs::Calls::is_call, calls::specs::Calls::is_kind))]
pub fn is_receiver(c: Call) -> bool
    ensures { result ≡ receives c }
{
    matches!(c, Call::Read(_) | Call::WaitForTargetRead(_))
}

#[tactic(auto, unfolding(calls::specs::Calls::is_call, calls::specs::Calls::is_kind))]
pub fn is_transmitter(c: Call) -> bool
    ensures { result ≡ transmits c }
{
    matches!(c, Call::Write(_) | Call::WaitForTargetWrite(_))
}

#[tactic(auto, unfolding(calls::specs::Calls::is_call, calls::specs::Calls::is_kind))]
pub fn is_eventful(c: Call) -> bool
    ensures { result ≡ eventful c }
{
    matches!(
        c,
        Call::WaitForEvent(_)
            | Call::WaitForTargetRead(_)
            | Call::WaitForTargetWrite(_)
            | Call::WaitForStop(_)
    )
}

#[tactic(auto, unfolding(calls::specs::Calls::manual))]
pub fn is_manual(c: Call) -> bool
    ensures { result ≡ manual c }
{
    match c {
        Call::WaitForEvent(a)
        | Call::Read(a)
        | Call::Write(a)
        | Call::WaitForTargetRead(a)
        | Call::WaitForTargetWrite(a)
        | Call::WaitForStop(a) => a == Ack::ManualAck,
        _ => false,
    }
}

pub fn is_auto_receiver(c: Call) -> bool
    ensures { result ≡ (receives c && not (manual c)) }
{
    is_receiver(c) & !is_manual(c)
}

// A manual write counts the bytes that it puts out.
pub fn is_manual_write(c: Call) -> bool
    ensures { result ≡ manual_write c }
{
    is_manual(c) & is_transmitter(c)
}

pub fn has_configuration(config: Option<TargetConfig>) -> bool
    ensures { result ≡ is_configured config }
{
    config.is_some()
}

pub fn has_secondary(config: Option<TargetConfig>) -> bool
    ensures { result ≡ has_secondary config }
{
    config.is_some_and(|t| t.secondary.is_some())
}
