// The access of a step, and its register alone, which takes neither a byte nor a word.
#![tactic(auto)]

ghost use Rattle.std.specs.Prelude.{◌≡◌, List, ℕ, ◌+◌, get_or};
ghost use Rattle.registers.specs.declared.Register.TheVariants.{Icr as IcrOf};
ghost use Rattle.calls.specs.declared.Access.TheVariants.{Write as WriteTo};
ghost use Rattle.calls.specs.Steps.{flushes, enables, byte_out, byte_access, access_at};
ghost use Rattle.calls.specs.Next.{next_of};

use calls::{Access, Call, Description, Next, SavedCall, Step, View};
use registers::{Cr1, Icr, Isr, Register, Txdr};

mod words;

// Writing 1 to a flag of ICR clears it in ISR.
fn clear(flag: Icr) -> Access
    ensures { result ≡ WriteTo IcrOf flag.0 }
{
    Access::Write(Register::Icr, flag.0)
}

fn flush() -> Access
    ensures { result ≡ flushes }
{
    Access::Write(Register::Isr, Isr(Isr::RESET).with_txe(true).0)
}

fn enable() -> Access
    ensures { result ≡ enables }
{
    Access::Write(
        Register::Cr1,
        Cr1(Cr1::RESET).with_pe(true).with_anfoff(false).0,
    )
}

pub fn place(v: View, s: SavedCall) -> usize
    ensures { result ≡ v.start + s.byte }
{
    v.start as usize + s.byte as usize
}

// TXDR's word for a byte: TXDATA takes it whole.
#[tactic(auto, using(crate::proofs::Fields::byte_is_whole))]
fn txdr_word(byte: u8) -> u32
    ensures { result ≡ byte }
{
    Txdr(Txdr::RESET).with_txdata(byte.into()).0
}

// That for a byte of the buffer, 0 past its end.
// By hand: chip/form.awk passes no function that returns an Option of a reference, as `get` does.
fn byte_at(b: &[u8], i: usize) -> u32
    ensures { result ≡ get_or b.now i 0 }
{
    if i < b.len() { txdr_word(b[i]) } else { 0 }
}

// By hand: view, buffer and saved call go side by side, since the buffer is borrowed and the others are copied.
pub fn byte_out(v: View, b: &[u8], s: SavedCall) -> u32
    ensures { result ≡ byte_out v b.now s }
{
    if s.byte < v.size {
        byte_at(b, place(v, s))
    } else {
        0
    }
}

fn byte_access(v: View, b: &[u8], s: SavedCall) -> Access
    ensures { result ≡ byte_access v b.now s }
{
    if v.reads {
        Access::Take(place(v, s))
    } else {
        Access::Write(Register::Txdr, byte_out(v, b, s))
    }
}

// By hand: the step is saved as a number and comes back from C, so it is matched: it can be no closure.
pub fn access(c: Call, d: Description, v: View, b: &[u8], s: SavedCall) -> Access
    ensures { result ≡ access_at c d v b.now s s.step }
{
    match s.step {
        Step::Ended => Access::Nothing,
        Step::Begin => Access::Write(Register::Cr2, words::cr2_word(d, v, s.piece != 0)),
        Step::StartStatus | Step::Wait | Step::FlushTxis | Step::FlushTxe | Step::Event => {
            Access::Read(Register::Isr)
        }
        Step::StartControl => Access::Read(Register::Cr2),
        Step::Byte => byte_access(v, b, s),
        Step::StopClear => clear(Icr(Icr::RESET).with_stopcf(true)),
        Step::BusClear => clear(Icr(Icr::RESET).with_berrcf(true)),
        Step::ArbitrationClear => clear(Icr(Icr::RESET).with_arlocf(true)),
        Step::NackClear => clear(Icr(Icr::RESET).with_nackcf(true)),
        Step::FlushByte => Access::Write(Register::Txdr, 0),
        Step::Flush | Step::EventFlush => flush(),
        Step::Timing => Access::Write(Register::Timingr, words::timingr_word(c, d)),
        Step::Own => Access::Write(Register::Oar1, words::oar1_word(d.config)),
        Step::Secondary => Access::Write(Register::Oar2, words::oar2_word(d.config)),
        Step::Enable => enable(),
        Step::Delay1 | Step::Delay2 | Step::Disabled => Access::Read(Register::Cr1),
        Step::EventClear | Step::TransferClear => clear(Icr(Icr::RESET).with_addrcf(true)),
        Step::Address => Access::Read(Register::Oar1),
        Step::ModifyRead(m) => Access::Read(words::register_of(d, m)),
        Step::ModifyWrite(m) => Access::Write(
            words::register_of(d, m),
            words::alter(c, d, v, s.word, m),
        ),
    }
}

fn byte_register(v: View) -> Next
    ensures { (b : List ℕ) (s : SavedCall) → result ≡ next_of (byte_access v b s) }
{
    if v.reads {
        Next::Read(Register::Rxdr)
    } else {
        Next::Write(Register::Txdr)
    }
}

// By hand: a second match over the steps, since the register alone needs no byte of the buffer and no word.
pub fn register_at(d: Description, v: View, s: SavedCall) -> Next
    ensures { (c : Call) (b : List ℕ) → result ≡ next_of (access_at c d v b s s.step) }
{
    match s.step {
        Step::Ended => Next::Over,
        Step::StartStatus | Step::Wait | Step::FlushTxis | Step::FlushTxe | Step::Event => {
            Next::Read(Register::Isr)
        }
        Step::StartControl => Next::Read(Register::Cr2),
        Step::Delay1 | Step::Delay2 | Step::Disabled => Next::Read(Register::Cr1),
        Step::Address => Next::Read(Register::Oar1),
        Step::ModifyRead(m) => Next::Read(words::register_of(d, m)),
        Step::Begin => Next::Write(Register::Cr2),
        Step::StopClear
        | Step::BusClear
        | Step::ArbitrationClear
        | Step::NackClear
        | Step::EventClear
        | Step::TransferClear => Next::Write(Register::Icr),
        Step::FlushByte => Next::Write(Register::Txdr),
        Step::Flush | Step::EventFlush => Next::Write(Register::Isr),
        Step::Timing => Next::Write(Register::Timingr),
        Step::Own => Next::Write(Register::Oar1),
        Step::Secondary => Next::Write(Register::Oar2),
        Step::Enable => Next::Write(Register::Cr1),
        Step::ModifyWrite(m) => Next::Write(words::register_of(d, m)),
        Step::Byte => byte_register(v),
    }
}
