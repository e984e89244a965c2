// What a call is: its description, its steps, where it stands, and what comes of it. Which access each step makes and
// what follows is the definition in specs/; that it holds for every order of flags is proved in proofs/.
#![tactic(auto)]

ghost use Rattle.std.specs.Prelude.{◌≡◌};
ghost use Rattle.calls.specs.Calls.{config_of, with_own, with_mode, with_secondary, with_mask};

use registers::Register;
use timing::RawTimingr;

mod numbers;

// The listed calls, by the names of the Rust's functions.
#[derive(Clone, Copy, Debug, PartialEq, Eq)]
pub enum Call {
    New,
    TargetNew,
    ConfigureTargetAddresses,
    EnableTargetEvent,
    DisableTargetEvent,
    Reset,
    Transaction,
    WaitForEvent(Ack),
    Read(Ack),
    Write(Ack),
    WaitForTargetRead(Ack),
    WaitForTargetWrite(Ack),
    WaitForStop(Ack),
    AckTransfer,
    NackTransfer,
}

// Who acknowledges received bytes: the peripheral, or the caller at the end of a transfer.
#[derive(Clone, Copy, Debug, PartialEq, Eq)]
pub enum Ack {
    AutoAck,
    ManualAck,
}

#[derive(Clone, Copy, Debug, PartialEq, Eq)]
pub enum AddressMode {
    AddressMode7bit,
    AddressMode10bit,
}

// A target's addresses. They hold any word, so that every one that does not fit can be refused.
#[derive(Clone, Copy, Debug, PartialEq, Eq)]
pub struct TargetConfig {
    pub own: u32,
    pub secondary: Option<u32>,
    pub mask: Option<u32>,
    pub mode: AddressMode,
}

impl TargetConfig {
    pub fn new(own: u32) -> TargetConfig
        ensures { result ≡ config_of own }
    {
        TargetConfig {
            own,
            secondary: None,
            mask: None,
            mode: AddressMode::AddressMode7bit,
        }
    }

    pub fn own_address(mut self, address: u32) -> TargetConfig
        ensures { result ≡ with_own address self }
    {
        self.own = address;
        self
    }

    pub fn own_address_mode(mut self, mode: AddressMode) -> TargetConfig
        ensures { result ≡ with_mode mode self }
    {
        self.mode = mode;
        self
    }

    // By hand: two fields, and the Rust has a setter of each name.
    pub fn secondary_address(mut self, address: u32) -> TargetConfig
        ensures { result ≡ with_secondary address self }
    {
        self.secondary = Some(address);
        self
    }

    // The number of low address bits that are not compared.
    pub fn secondary_address_mask_bits(mut self, bits: u32) -> TargetConfig
        ensures { result ≡ with_mask bits self }
    {
        self.mask = Some(bits);
        self
    }
}

// What is asked of the driver. The operation list and the buffer are lent beside it. A call looks only at the words
// that belong to it: the address and its mode at 7, the listen kind at 4 and 5, the timing at 1 and 2, the configuration at
// 1 to 3.
// By hand: the call and the listen kind stay C's numbers, so that one which names nothing can be refused (row 12).
#[derive(Clone, Copy, Debug, PartialEq, Eq)]
pub struct Description {
    pub call: u32,
    pub address: u32,
    pub listen: u32,
    pub timing: RawTimingr,
    pub config: Option<TargetConfig>,
    pub mode: AddressMode,
}

// Why a call is refused.
#[derive(Clone, Copy, Debug, PartialEq, Eq)]
pub enum Refusal {
    Address,
    List,
    Buffer,
    NoSuchCall,
    SavedCall,
}

// What comes of a call.
#[derive(Clone, Copy, Debug, PartialEq, Eq)]
pub enum Outcome {
    Done(u32),
    Bus,
    Arbitration,
    Nack,
    Stopped,
    ExpectedWrite,
    ExpectedRead,
    EventRead(u32),
    EventWrite(u32),
    EventStop,
}

// The register writes that keep most of what was read: a read, then a write with some fields replaced.
#[derive(Clone, Copy, Debug, PartialEq, Eq)]
pub enum Modify {
    PeOff,
    PeOn,
    Listen,
    NackSet,
    ReloadOff,
    SbcOff,
    ReloadClear,
    SbcOn,
    ReloadOn,
    NbytesSet,
}

// One register access each.
#[derive(Clone, Copy, Debug, PartialEq, Eq)]
pub enum Step {
    Ended,
    Begin,
    StartStatus,
    StartControl,
    Wait,
    Byte,
    StopClear,
    BusClear,
    ArbitrationClear,
    NackClear,
    FlushTxis,
    FlushByte,
    FlushTxe,
    Flush,
    Timing,
    Own,
    Secondary,
    Enable,
    Delay1,
    Delay2,
    Disabled,
    Event,
    EventFlush,
    EventClear,
    Address,
    TransferClear,
    ModifyRead(Modify),
    ModifyWrite(Modify),
}

// A call between two advances. `piece` is the operation of a transaction or the block of a target transfer, `byte` the byte
// within it, `out` the bytes that a manual write has put out, `word` what the running modify read; before the end `outcome` is
// what is on its way.
// By hand: the call stays a number, since the saved bytes can hold any and row 13 compares it.
#[derive(Clone, Copy, Debug, PartialEq, Eq)]
pub struct SavedCall {
    pub call: u32,
    pub piece: u32,
    pub byte: u32,
    pub out: u32,
    pub word: u32,
    pub accesses: u32,
    pub outcome: Outcome,
    pub step: Step,
}

// What a step sees of the running piece: its place in the buffer, its length and direction, whether it is the last, whether
// the next piece goes the same way and whether the one before it did, and whether the call has any piece; and `most`, the number
// at which the call's `out` is held.
#[derive(Clone, Copy, Debug, PartialEq, Eq)]
pub struct View {
    pub start: u32,
    pub size: u32,
    pub most: u32,
    pub reads: bool,
    pub last: bool,
    pub same: bool,
    pub reload: bool,
    pub nonempty: bool,
}

// The next access. `Take` reads RXDR, and its low eight bits go to that place of the buffer.
// By hand: a step does one of four things. As an Option, three of them would stand in a `Some` at each match.
#[derive(Clone, Copy, Debug, PartialEq, Eq)]
pub enum Access {
    Read(Register),
    Take(usize),
    Write(Register, u32),
    Nothing,
}

// The flag of ISR that a wait awaits.
// By hand: as in `Access`: a wait that awaits no flag has an arm of its own.
#[derive(Clone, Copy, Debug, PartialEq, Eq)]
pub enum Flag {
    Rxne,
    Txis,
    Tc,
    Tcr,
    Stopf,
    Never,
}

// What an answer leads to.
#[derive(Clone, Copy, Debug, PartialEq, Eq)]
pub enum Effect {
    Goes(Step),
    Loads(Step),
    Notes(Outcome, Step),
    Next(Step),
    Enters(Step),
    Fails(Outcome),
    Ends(Outcome),
}

// How an advance comes out: the call is over, the log is full, a read of that register waits for its answer, or the advance
// is refused.
// By hand: a refusal is one of the reports that C numbers, so this is no Result.
#[derive(Clone, Copy, Debug, PartialEq, Eq)]
pub enum Report {
    Over(Outcome),
    Full,
    Waiting(Register),
    Refused(Refusal),
}

// What begin returns. A refused call's saved call has number 0, which no advance takes.
// By hand: no Result with the saved call in its Ok, since C gets a saved call either way.
#[derive(Clone, Copy, Debug, PartialEq, Eq)]
pub struct Begun {
    pub saved: SavedCall,
    pub verdict: Result<Call, Refusal>,
}

#[derive(Clone, Copy, Debug, PartialEq, Eq)]
pub struct Advanced {
    pub used: usize,
    pub written: usize,
    pub saved: SavedCall,
    pub report: Report,
}

// The next access of a saved call: the register that it goes to, read or written; or there is none, since the call is over
// or refused.
// By hand: C numbers the four alike, so this is no Result either.
#[derive(Clone, Copy, Debug, PartialEq, Eq)]
pub enum Next {
    Over,
    Read(Register),
    Write(Register),
    Refused(Refusal),
}
