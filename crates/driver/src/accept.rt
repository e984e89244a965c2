// Row 13 of the refusals: which saved calls are taken.
ghost use Rattle.std.specs.Prelude.{◌≡◌, not, ◌&&◌, ◌||◌, ◌≤◌};
ghost use Rattle.calls.specs.Calls.{is_call, transaction, manual, receives, transmits, eventful, is_configured, has_secondary};
ghost use Rattle.calls.specs.Refusals.{request_of, modify_group, group_of, group_taken};
ghost use Rattle.calls.specs.declared.Call.TheVariants.{New, TargetNew, ConfigureTargetAddresses, NackTransfer};
ghost use Rattle.driver.specs.Views.{cursor_at, belongs, at_byte, stands_in, standing};

use crate::request::Request;
use crate::view::Cursor;
use calls::{Call, Description, Modify, Refusal, SavedCall, Step, View};
use kinds::call::{
    has_configuration, has_secondary, is_auto_receiver, is_eventful, is_manual, is_manual_write,
    is_transaction, is_transmitter, moves_bytes,
};
use steps::{byte_there, is_byte, is_ended};

// Which steps a call takes, by their groups. The parts of a condition are cheap, so `&` and `|` work all of them out.
// By hand: a function for each group, and a match on the step, as `group_taken` has them.
fn has_starts(c: Call, nonempty: bool) -> bool
    ensures { result ≡ (transaction c && nonempty) }
{
    is_transaction(c) & nonempty
}

fn has_move(c: Call, nonempty: bool) -> bool
    ensures { result ≡ ((transaction c || (receives c || transmits c)) && nonempty) }
{
    (is_transaction(c) | moves_bytes(c)) & nonempty
}

fn has_errors(c: Call, nonempty: bool) -> bool
    ensures { result ≡ (eventful c || ((transaction c || (receives c || transmits c)) && nonempty)) }
{
    is_eventful(c) | has_move(c, nonempty)
}

fn has_nack(c: Call, nonempty: bool) -> bool
    ensures { result ≡ ((transaction c || transmits c) && nonempty) }
{
    (is_transaction(c) | is_transmitter(c)) & nonempty
}

fn has_blocks(c: Call, nonempty: bool) -> bool
    ensures { result ≡ ((manual c && (receives c || transmits c)) && nonempty) }
{
    (is_manual(c) & moves_bytes(c)) & nonempty
}

fn has_manual_events(c: Call) -> bool
    ensures { result ≡ (manual c && eventful c) }
{
    is_manual(c) & is_eventful(c)
}

fn has_stop(c: Call, nonempty: bool) -> bool
    ensures { result ≡ (eventful c || (transaction c && nonempty)) }
{
    is_eventful(c) | (is_transaction(c) & nonempty)
}

#[tactic(auto, unfolding(calls::specs::Calls::is_call))]
fn has_own(c: Call, d: Description) -> bool
    ensures { result ≡ (is_call c ConfigureTargetAddresses || ((is_call c New || is_call c TargetNew) && is_configured d.config)) }
{
    matches!(c, Call::ConfigureTargetAddresses)
        | (matches!(c, Call::New | Call::TargetNew) & has_configuration(d.config))
}

#[tactic(auto, unfolding(calls::specs::Calls::is_call))]
fn has_second(c: Call, d: Description) -> bool
    ensures { result ≡ ((is_call c New || (is_call c TargetNew || is_call c ConfigureTargetAddresses)) && has_secondary d.config) }
{
    matches!(
        c,
        Call::New | Call::TargetNew | Call::ConfigureTargetAddresses
    ) & has_secondary(d.config)
}

#[tactic(auto, unfolding(calls::specs::Calls::is_call))]
fn has_nack_set(c: Call, nonempty: bool) -> bool
    ensures { result ≡ (is_call c NackTransfer || ((receives c && not (manual c)) && nonempty)) }
{
    matches!(c, Call::NackTransfer) | (is_auto_receiver(c) & nonempty)
}

#[tactic(auto, unfolding(calls::specs::Refusals::group_taken, calls::specs::Calls::is_call))]
fn takes_modify(c: Call, d: Description, nonempty: bool, m: Modify) -> bool
    ensures { result ≡ group_taken c d nonempty (modify_group m) }
{
    match m {
        Modify::PeOff => matches!(c, Call::New | Call::TargetNew | Call::Reset),
        Modify::PeOn => matches!(c, Call::TargetNew | Call::Reset),
        Modify::Listen => matches!(c, Call::EnableTargetEvent | Call::DisableTargetEvent),
        Modify::NackSet => has_nack_set(c, nonempty),
        Modify::ReloadOff => matches!(c, Call::AckTransfer | Call::NackTransfer),
        Modify::SbcOff | Modify::ReloadClear | Modify::SbcOn | Modify::ReloadOn => {
            has_manual_events(c)
        }
        Modify::NbytesSet => has_blocks(c, nonempty),
    }
}

#[tactic(auto, unfolding(calls::specs::Refusals::group_taken, calls::specs::Calls::is_call))]
fn takes(c: Call, d: Description, nonempty: bool, t: Step) -> bool
    ensures { result ≡ group_taken c d nonempty (group_of t) }
{
    match t {
        Step::Ended => true,
        Step::Begin | Step::StartStatus | Step::StartControl => has_starts(c, nonempty),
        Step::Wait | Step::Byte => has_move(c, nonempty),
        Step::StopClear => has_stop(c, nonempty),
        Step::BusClear | Step::ArbitrationClear => has_errors(c, nonempty),
        Step::NackClear | Step::FlushTxis | Step::FlushByte | Step::FlushTxe | Step::Flush =>
            has_nack(c, nonempty),
        Step::Timing => matches!(c, Call::New | Call::TargetNew),
        Step::Own => has_own(c, d),
        Step::Secondary => has_second(c, d),
        Step::Enable => matches!(c, Call::New),
        Step::Delay1 | Step::Delay2 | Step::Disabled => matches!(c, Call::Reset),
        Step::Event | Step::EventFlush | Step::EventClear | Step::Address => is_eventful(c),
        Step::TransferClear => has_blocks(c, nonempty),
        Step::ModifyRead(m) | Step::ModifyWrite(m) => takes_modify(c, d, nonempty, m),
    }
}

// The byte number is one that a run reaches, BYTE has a byte to move, and no more bytes are put out than the call counts, in the piece
// that v is of.
fn at_byte(c: Call, v: View, s: SavedCall) -> bool
    requires { v.size ≤ 65535 }
    ensures { result ≡ at_byte c v s }
{
    (s.byte <= v.size + 1)
        & ((!is_byte(s.step) | byte_there(c, s.byte, v.size, v.last))
            & (!is_manual_write(c) | (s.out <= v.most)))
}

impl Request<'_> {
    // The saved call is of this call and has ended, or stands at a step of it; no call has more pieces than sixteen bits count.
    fn belongs(&self, d: Description, s: SavedCall) -> bool
        ensures { result ≡ belongs (request_of self.now.call d self.now.operations.now self.now.size) s }
    {
        (s.call == u32::from(self.call))
            && (is_ended(s.step)
                || (takes(self.call, d, self.has_pieces(), s.step) & (s.piece <= 65535)))
    }

    // The piece is there, and the byte is right in it; p is the cursor at that piece.
    fn stands(&self, p: Cursor, s: SavedCall) -> bool
        requires { p ≡ cursor_at self.now.call self.now.operations.now self.now.size s.piece }
        ensures { result ≡ stands_in self.now.call self.now.operations.now self.now.size s }
    {
        self.is_there(p.operation, s.piece) & at_byte(self.call, p.view, s)
    }

    // Where a saved call of it stands: at a piece, or at none if it has ended. Row 13 refuses any other.
    pub fn standing(&self, d: Description, s: SavedCall) -> Result<Option<Cursor>, Refusal>
        ensures { result ≡ standing self.now.call d self.now.operations.now self.now.size s }
    {
        if !self.belongs(d, s) {
            return Err(Refusal::SavedCall);
        }
        if is_ended(s.step) {
            return Ok(None);
        }
        let p = self.cursor_at(s.piece);
        if !self.stands(p, s) {
            return Err(Refusal::SavedCall);
        }
        Ok(Some(p))
    }
}
