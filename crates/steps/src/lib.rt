// The saved call after each access, and the one that a call begins with: a function for each row of the definition.
#![tactic(auto)]

ghost use Rattle.std.specs.Prelude.{◌≡◌, cond, ◌&&◌, ◌||◌, ltb, ◌+◌, ◌≤◌, min};
ghost use Rattle.calls.specs.Calls.{transmits};
ghost use Rattle.calls.specs.Outcomes.{readdressed};
ghost use Rattle.calls.specs.Pieces.{byte_there};
ghost use Rattle.calls.specs.Steps.{error_or, nack_or, fail_of, bytes_put, count_of, transfer_over, not_acknowledged, entry_step, transfer_of, event_of, stop_event, address_found, ten_bit_header, find_address, clear_step, address_event, event_in, awaited, stop_or, wait_at, byte_moved, own_then, written_at, effect_at, one_more, apply_of, same_step, counted, own_or, found, noted, after_in, start_at, begin_at};
ghost use Rattle.calls.specs.declared.Step.TheVariants.{Ended, Wait, Byte};
ghost use Rattle.calls.specs.declared.Effect.TheVariants.{Goes};
ghost use Rattle.steps.specs.Bounds.{small};

use calls::{Call, Description, Effect, Flag, Modify, Outcome, SavedCall, Step, View};
use kinds::{call, outcome, saved_call};
use registers::{Cr1, Cr2, Isr, Oar1};

// A call at its step: what the step sees of the running piece, and where the call stands. The counts are bounded, so that no sum of
// them overflows.
#[derive(Clone, Copy)]
struct Running {
    call: Call,
    view: View,
    saved: SavedCall,
    ghost piece: { saved.piece ≤ 65535 },
    ghost byte: { saved.byte ≤ 65536 },
    ghost size: { view.size ≤ 65535 },
}

// Errors come before all else that a status word says.
fn error_or(a: u32, t: Effect) -> Effect
    ensures { result ≡ error_or a t }
{
    if Isr(a).berr() {
        Effect::Goes(Step::BusClear)
    } else if Isr(a).arlo() {
        Effect::Goes(Step::ArbitrationClear)
    } else {
        t
    }
}

fn nack_or(a: u32, t: Effect) -> Effect
    ensures { result ≡ nack_or a t }
{
    if Isr(a).nackf() {
        Effect::Goes(Step::NackClear)
    } else {
        t
    }
}

// The call waits on until the flag is there.
fn once(flag: bool, t: Effect) -> Effect
    ensures { result ≡ cond flag t (Goes Wait) }
{
    if flag { t } else { Effect::Goes(Step::Wait) }
}

// The first step of a piece.
fn entry_step(c: Call) -> Step
    ensures { result ≡ entry_step c }
{
    if call::is_transaction(c) {
        Step::Begin
    } else if call::is_manual(c) {
        Step::ModifyRead(Modify::NbytesSet)
    } else {
        Step::Wait
    }
}

// From an event into the transfer, if there is any piece.
fn transfer(c: Call, nonempty: bool) -> Effect
    ensures { result ≡ transfer_of c nonempty }
{
    if nonempty {
        Effect::Enters(entry_step(c))
    } else {
        Effect::Ends(Outcome::Done(0))
    }
}

#[tactic(auto, unfolding(calls::specs::Calls::is_call, calls::specs::Calls::is_kind))]
fn stop_event(c: Call) -> Effect
    ensures { result ≡ stop_event c }
{
    match c {
        Call::WaitForEvent(_) => Effect::Ends(Outcome::EventStop),
        Call::WaitForStop(_) => Effect::Ends(Outcome::Done(0)),
        _ => Effect::Ends(Outcome::Stopped),
    }
}

fn is_ten_bit_header(code: u32) -> bool
    ensures { result ≡ ten_bit_header code }
{
    fields::get(code, 2, 5) == 30
}

fn clear_step(c: Call) -> Step
    ensures { result ≡ clear_step c }
{
    if call::is_manual(c) {
        Step::ModifyRead(Modify::SbcOff)
    } else {
        Step::EventClear
    }
}

// A byte left in TXDR goes first.
fn address_event(c: Call, a: u32, o: Outcome) -> Effect
    ensures { result ≡ address_event c a o }
{
    if Isr(a).txe() {
        Effect::Notes(o, clear_step(c))
    } else {
        Effect::Notes(o, Step::EventFlush)
    }
}

// An address match, a stop, or nothing yet.
fn event_in(c: Call, a: u32) -> Effect
    ensures { result ≡ event_in c a }
{
    if Isr(a).addr() {
        let code = Isr(a).addcode();
        let event = if Isr(a).dir() {
            Outcome::EventRead(code)
        } else {
            Outcome::EventWrite(code)
        };
        error_or(a, address_event(c, a, event))
    } else if Isr(a).stopf() {
        error_or(a, Effect::Goes(Step::StopClear))
    } else {
        error_or(a, Effect::Goes(Step::Event))
    }
}

// A byte is there: one of the piece's or, past the last that a target puts out, a filling zero.
pub fn byte_there(c: Call, byte: u32, size: u32, last: bool) -> bool
    ensures { result ≡ (ltb byte size || (transmits c && last)) }
{
    (byte < size) | (call::is_transmitter(c) & last)
}

pub fn is_there(c: Call, v: View, s: SavedCall) -> bool
    ensures { result ≡ byte_there c v s }
{
    byte_there(c, s.byte, v.size, v.last)
}

#[tactic(auto, unfolding(calls::specs::Calls::is_call))]
fn own_then(c: Call) -> Effect
    ensures { result ≡ own_then c }
{
    match c {
        Call::New => Effect::Goes(Step::Enable),
        Call::TargetNew => Effect::Goes(Step::ModifyRead(Modify::PeOn)),
        _ => Effect::Ends(Outcome::Done(0)),
    }
}

// The counter of accesses stays at its end.
pub fn one_more(n: u32) -> u32
    ensures { result ≡ one_more n }
{
    n.saturating_add(1)
}

// By hand: driver asks for these three only, and a name for each reads better than a function of two steps.
pub fn is_ended(t: Step) -> bool
    ensures { result ≡ same_step t Ended }
{
    matches!(t, Step::Ended)
}

pub fn is_wait(t: Step) -> bool
    ensures { result ≡ same_step t Wait }
{
    matches!(t, Step::Wait)
}

pub fn is_byte(t: Step) -> bool
    ensures { result ≡ same_step t Byte }
{
    matches!(t, Step::Byte)
}

// One more, held at the most: bytes put out at the call's, which is 0 where none are counted.
// By hand: to saturate and to take the less would hold twice what one test holds.
pub fn held_out(n: u32, most: u32) -> u32
    ensures { result ≡ min (n + 1) most }
{
    if n < most { n + 1 } else { most }
}

fn readdress(o: Outcome, n: u32) -> Outcome
    ensures { result ≡ readdressed o n }
{
    match o {
        Outcome::EventRead(_) => Outcome::EventRead(n),
        _ => Outcome::EventWrite(n),
    }
}

// OA1 is the address only if it has ten bits; a board of seven bits may be addressed by ADDCODE 0x78 to 0x7B too.
fn own_or(code: u32, a: u32) -> u32
    ensures { result ≡ own_or code a }
{
    if Oar1(a).oa1mode() {
        Oar1(a).oa1()
    } else {
        code
    }
}

impl Running {
    // A transaction keeps its first error until its stop; any other error ends a call at once.
    fn fail(self, o: Outcome) -> Effect
        ensures { result ≡ fail_of self.call self.saved o }
    {
        if call::is_transaction(self.call) && outcome::is_done(self.saved.outcome) {
            Effect::Fails(o)
        } else {
            Effect::Ends(o)
        }
    }

    // A manual write carries how many bytes it has put out; an automatic one is one piece.
    fn bytes_put(self) -> u32
        ensures { result ≡ bytes_put self.call self.saved }
    {
        if call::is_manual(self.call) {
            self.saved.out
        } else {
            self.saved.byte
        }
    }

    // Of a read earlier blocks are whole. Of a write one byte less counts than was put out.
    fn count(self) -> u32
        ensures { result ≡ count_of self.call self.saved }
    {
        if call::is_receiver(self.call) {
            255 * self.saved.piece + self.saved.byte
        } else {
            self.bytes_put().saturating_sub(1)
        }
    }

    // An automatic read sets NACK at its end.
    fn transfer_over(self) -> Effect
        ensures { result ≡ transfer_over self.call self.saved }
    {
        if call::is_auto_receiver(self.call) {
            Effect::Goes(Step::ModifyRead(Modify::NackSet))
        } else {
            Effect::Ends(Outcome::Done(self.count()))
        }
    }

    fn not_acknowledged(self) -> Effect
        ensures { result ≡ not_acknowledged self.call self.saved }
    {
        if call::is_transaction(self.call) {
            self.fail(Outcome::Nack)
        } else {
            self.transfer_over()
        }
    }

    // What a complete event means to each call.
    fn event_over(self) -> Effect
        ensures { result ≡ event_of self.call self.view.nonempty self.saved }
    {
        if call::is_wait_for_event(self.call) {
            Effect::Ends(self.saved.outcome)
        } else if outcome::is_event_read(self.saved.outcome) {
            if call::is_transmitter(self.call) {
                transfer(self.call, self.view.nonempty)
            } else {
                Effect::Ends(Outcome::ExpectedWrite)
            }
        } else if call::is_receiver(self.call) {
            transfer(self.call, self.view.nonempty)
        } else {
            Effect::Ends(Outcome::ExpectedRead)
        }
    }

    // ManualAck clears ADDR at once only if the controller reads; else byte control comes first.
    fn address_found(self) -> Effect
        ensures { result ≡ address_found self.call self.view.nonempty self.saved }
    {
        if !call::is_manual(self.call) {
            self.event_over()
        } else if outcome::is_event_read(self.saved.outcome) {
            Effect::Goes(Step::EventClear)
        } else {
            Effect::Goes(Step::ModifyRead(Modify::SbcOn))
        }
    }

    // What may be an address of ten bits is looked up in OAR1.
    fn find_address(self) -> Effect
        ensures { result ≡ find_address self.call self.view.nonempty self.saved }
    {
        if is_ten_bit_header(outcome::value(self.saved.outcome)) {
            Effect::Goes(Step::Address)
        } else {
            self.address_found()
        }
    }

    // A transaction that has an error waits for its stop.
    fn flag_awaited(self) -> Flag
        ensures { result ≡ awaited self.call self.view self.saved }
    {
        let is_transaction = call::is_transaction(self.call);
        if is_transaction && !outcome::is_done(self.saved.outcome) {
            Flag::Stopf
        } else if is_there(self.call, self.view, self.saved) {
            if self.view.reads {
                Flag::Rxne
            } else {
                Flag::Txis
            }
        } else if !is_transaction {
            Flag::Never
        } else if self.view.last {
            Flag::Stopf
        } else if self.view.same {
            Flag::Tcr
        } else {
            Flag::Tc
        }
    }

    // A target's transfer is over where a stop or a new address has come.
    fn stop_or(self, a: u32) -> Effect
        ensures { result ≡ stop_or self.call self.saved a }
    {
        if !(Isr(a).stopf() || Isr(a).addr()) {
            Effect::Goes(Step::Wait)
        } else if call::is_transaction(self.call) {
            self.fail(Outcome::Stopped)
        } else {
            self.transfer_over()
        }
    }

    fn wait_at(self, a: u32, f: Flag) -> Effect
        ensures { result ≡ wait_at self.call self.view self.saved a f }
    {
        match f {
            Flag::Rxne if Isr(a).rxne() => Effect::Goes(Step::Byte),
            Flag::Rxne => self.stop_or(a),
            Flag::Txis => nack_or(a, once(Isr(a).txis(), Effect::Goes(Step::Byte))),
            Flag::Tc => nack_or(a, once(Isr(a).tc(), Effect::Next(Step::Begin))),
            Flag::Tcr => nack_or(a, once(Isr(a).tcr(), Effect::Next(Step::Begin))),
            Flag::Stopf => nack_or(a, once(Isr(a).stopf(), Effect::Goes(Step::StopClear))),
            Flag::Never if self.view.reads => self.stop_or(a),
            Flag::Never => nack_or(a, Effect::Goes(Step::Wait)),
        }
    }

    // A transaction also waits at the end of a piece.
    fn byte_moved(self) -> Effect
        ensures { result ≡ byte_moved self.call self.view self.saved }
    {
        if call::is_transaction(self.call) || is_there(self.call, self.view, self.saved) {
            Effect::Goes(Step::Wait)
        } else if self.view.last {
            self.transfer_over()
        } else {
            Effect::Next(entry_step(self.call))
        }
    }

    // After a modify's write.
    // By hand: an arm for each row of the definition, as in `effect`.
    #[tactic(auto, unfolding(calls::specs::Calls::is_call))]
    fn written(self, m: Modify) -> Effect
        ensures { result ≡ written_at self.call self.view self.saved m }
    {
        match m {
            Modify::PeOff if matches!(self.call, Call::Reset) => Effect::Goes(Step::Delay1),
            Modify::PeOff => Effect::Goes(Step::Timing),
            Modify::NackSet if matches!(self.call, Call::NackTransfer) => {
                Effect::Goes(Step::ModifyRead(Modify::ReloadOff))
            }
            Modify::NackSet => Effect::Ends(Outcome::Done(self.count())),
            Modify::PeOn | Modify::Listen | Modify::ReloadOff => Effect::Ends(Outcome::Done(0)),
            Modify::SbcOff => Effect::Goes(Step::ModifyRead(Modify::ReloadClear)),
            Modify::ReloadClear => self.find_address(),
            Modify::SbcOn => Effect::Goes(Step::ModifyRead(Modify::ReloadOn)),
            Modify::ReloadOn => self.event_over(),
            Modify::NbytesSet if self.saved.piece == 0 => Effect::Goes(Step::TransferClear),
            Modify::NbytesSet => Effect::Goes(Step::Wait),
        }
    }

    // What the answer leads to, in the saved call that `note` gave.
    // By hand: a match with an arm for each row of the definition cannot miss a step, as a table of functions can.
    fn effect(self, d: Description, a: u32) -> Effect
        ensures { result ≡ effect_at self.call d self.view self.saved a self.saved.step }
    {
        match self.saved.step {
            Step::Ended => Effect::Ends(self.saved.outcome),
            Step::Begin => Effect::Goes(Step::StartStatus),
            Step::StartStatus => error_or(a, nack_or(a, Effect::Goes(Step::StartControl))),
            Step::StartControl if Cr2(a).start() => Effect::Goes(Step::StartStatus),
            Step::StartControl => Effect::Goes(Step::Wait),
            Step::Wait => error_or(a, self.wait_at(a, self.flag_awaited())),
            Step::Byte => self.byte_moved(),
            Step::StopClear if call::is_transaction(self.call) => Effect::Ends(self.saved.outcome),
            Step::StopClear => stop_event(self.call),
            Step::BusClear => self.fail(Outcome::Bus),
            Step::ArbitrationClear => self.fail(Outcome::Arbitration),
            Step::NackClear => Effect::Goes(Step::FlushTxis),
            Step::FlushTxis if Isr(a).txis() => Effect::Goes(Step::FlushByte),
            Step::FlushTxis => Effect::Goes(Step::FlushTxe),
            Step::FlushByte => Effect::Goes(Step::FlushTxe),
            Step::FlushTxe if Isr(a).txe() => self.not_acknowledged(),
            Step::FlushTxe => Effect::Goes(Step::Flush),
            Step::Flush => self.not_acknowledged(),
            Step::Timing if call::has_configuration(d.config) => Effect::Goes(Step::Own),
            Step::Own if call::has_secondary(d.config) => Effect::Goes(Step::Secondary),
            Step::Timing | Step::Own | Step::Secondary => own_then(self.call),
            Step::Enable => Effect::Ends(Outcome::Done(0)),
            Step::Delay1 => Effect::Goes(Step::Delay2),
            Step::Delay2 => Effect::Goes(Step::Disabled),
            Step::Disabled if Cr1(a).pe() => Effect::Goes(Step::Disabled),
            Step::Disabled => Effect::Goes(Step::ModifyRead(Modify::PeOn)),
            Step::Event => event_in(self.call, a),
            Step::EventFlush => Effect::Goes(clear_step(self.call)),
            Step::EventClear if call::is_manual(self.call) => self.event_over(),
            Step::EventClear => self.find_address(),
            Step::Address => self.address_found(),
            Step::TransferClear => Effect::Goes(Step::Wait),
            Step::ModifyRead(m) => Effect::Loads(Step::ModifyWrite(m)),
            Step::ModifyWrite(m) => self.written(m),
        }
    }

    fn apply(self, a: u32, t: Effect) -> SavedCall
        ensures { result ≡ apply_of self.saved a t }
    {
        let s = SavedCall {
            accesses: one_more(self.saved.accesses),
            ..self.saved
        };
        match t {
            Effect::Goes(step) => SavedCall { step, ..s },
            Effect::Loads(step) => SavedCall { word: a, step, ..s },
            Effect::Notes(outcome, step) => SavedCall { outcome, step, ..s },
            Effect::Next(step) => SavedCall {
                piece: s.piece + 1,
                byte: 0,
                step,
                ..s
            },
            Effect::Enters(step) => SavedCall {
                piece: 0,
                byte: 0,
                out: 0,
                outcome: Outcome::Done(0),
                step,
                ..s
            },
            Effect::Fails(outcome) => SavedCall {
                outcome,
                step: Step::Wait,
                ..s
            },
            Effect::Ends(outcome) => SavedCall {
                outcome,
                step: Step::Ended,
                ..s
            },
        }
    }

    // The next byte's number stays at the length + 1 where filling zeros go out.
    fn counted(self) -> SavedCall
        ensures { result ≡ counted self.view self.saved }
    {
        SavedCall {
            byte: held_out(self.saved.byte, self.view.size + 1),
            out: held_out(self.saved.out, self.view.most),
            ..self.saved
        }
    }

    fn found(self, a: u32) -> SavedCall
        ensures { result ≡ found self.saved a }
    {
        let o = self.saved.outcome;
        SavedCall {
            outcome: readdress(o, own_or(outcome::value(o), a)),
            ..self.saved
        }
    }

    // BYTE counts its byte and ADDRESS keeps the address before what follows is looked up.
    // By hand: as a match with one `Running` at its end, it costs each access a quarter more instructions.
    fn note(self, a: u32) -> Running
        ensures call { result.call ≡ self.call }
        ensures view { result.view ≡ self.view }
        ensures saved { result.saved ≡ noted self.view self.saved a self.saved.step }
        ensures step { result.saved.step ≡ self.saved.step }
    {
        if is_byte(self.saved.step) {
            return Running {
                call: self.call,
                view: self.view,
                saved: self.counted(),
            };
        }
        if matches!(self.saved.step, Step::Address) {
            return Running {
                call: self.call,
                view: self.view,
                saved: self.found(a),
            };
        }
        self
    }
}

fn is_small(v: View, s: SavedCall) -> bool
    ensures { result ≡ small v s }
{
    (s.piece <= 65535) & ((s.byte <= 65536) & (v.size <= 65535))
}

// The saved call after its access with the answer a. One whose numbers are too large for any run is handed back the same; row 13
// takes none that is.
pub fn after(c: Call, d: Description, v: View, s: SavedCall, a: u32) -> SavedCall
    ensures { result ≡ cond (small v s) (after_in c d v s a) s }
{
    if !is_small(v, s) {
        return s;
    }
    let running = Running {
        call: c,
        view: v,
        saved: s,
    };
    let noted = running.note(a);
    noted.apply(a, noted.effect(d, a))
}

#[tactic(auto, unfolding(calls::specs::Calls::is_call, calls::specs::Calls::is_kind))]
fn begin_step(c: Call, nonempty: bool) -> Step
    ensures { result ≡ begin_at c nonempty }
{
    match c {
        // These turn the peripheral off first.
        Call::New | Call::TargetNew | Call::Reset => Step::ModifyRead(Modify::PeOff),
        Call::ConfigureTargetAddresses => Step::Own,
        Call::EnableTargetEvent | Call::DisableTargetEvent => Step::ModifyRead(Modify::Listen),
        Call::AckTransfer => Step::ModifyRead(Modify::ReloadOff),
        Call::NackTransfer => Step::ModifyRead(Modify::NackSet),
        Call::WaitForEvent(_)
        | Call::WaitForTargetRead(_)
        | Call::WaitForTargetWrite(_)
        | Call::WaitForStop(_) => Step::Event,
        Call::Transaction | Call::Read(_) | Call::Write(_) => {
            if nonempty { entry_step(c) } else { Step::Ended }
        }
    }
}

pub fn begin_at(c: Call, nonempty: bool) -> SavedCall
    ensures { result ≡ start_at c (begin_at c nonempty) }
{
    saved_call::fresh(c.into(), begin_step(c, nonempty))
}
