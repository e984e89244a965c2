// The words that a call writes into control registers. A modify's word keeps what was read but for its fields.
ghost use Rattle.std.specs.Prelude.{◌≡◌};
ghost use Rattle.calls.specs.Words.{transfer, addressed, cr2_of, target_timing, timingr_of, own_word, secondary_word, oar1_of, oar2_of, listen_register, register_of, enabled_word, listen_word, alter_of};

use calls::{AddressMode, Call, Description, Modify, TargetConfig, View};
use kinds::call;
use registers::{Cr1, Cr2, Oar1, Oar2, Register};
use timing::I2cTiming;

fn transfer_word(v: View) -> u32
    ensures { result ≡ transfer v }
{
    let w = Cr2(Cr2::RESET).with_nbytes(v.size).with_rd_wrn(v.reads);
    if v.last {
        w.with_autoend(true).0
    } else if v.same {
        w.with_reload(true).0
    } else {
        w.0
    }
}

#[tactic(auto, using(crate::proofs::Fields::address_is_shifted))]
fn with_address(mode: AddressMode, address: u32, again: bool, w: u32) -> u32
    ensures { result ≡ addressed mode address again w }
{
    match mode {
        AddressMode::AddressMode7bit => Cr2(w).with_sadd(address << 1).0,
        AddressMode::AddressMode10bit => Cr2(w)
            .with_sadd(address)
            .with_add10(true)
            .with_head10r(again)
            .0,
    }
}

// Begins an operation; `again` where the start is repeated.
#[tactic(auto, unfolding(calls::specs::Words::cr2_of))]
pub fn cr2_word(d: Description, v: View, again: bool) -> u32
    ensures { result ≡ cr2_of d v again }
{
    let w = transfer_word(v);
    if v.reload {
        w
    } else {
        with_address(d.mode, d.address, again, Cr2(w).with_start(true).0)
    }
}

fn target_timing(t: I2cTiming) -> I2cTiming
    ensures { result ≡ target_timing t }
{
    I2cTiming {
        sclh: 0,
        scll: 0,
        ..t
    }
}

#[tactic(auto, unfolding(calls::specs::Words::timingr_of))]
pub fn timingr_word(c: Call, d: Description) -> u32
    ensures { result ≡ timingr_of c d }
{
    let all = d.timing.unpack();
    let t = if call::is_call(c, Call::TargetNew) {
        target_timing(all)
    } else {
        all
    };
    t.word().0
}

fn own_word(mode: AddressMode, own: u32) -> u32
    ensures { result ≡ own_word mode own }
{
    match mode {
        AddressMode::AddressMode7bit => Oar1::seven_bit(own).0,
        AddressMode::AddressMode10bit => Oar1::ten_bit(own).0,
    }
}

// By hand: what OAR1 and OAR2 share is `map_or`.
#[tactic(auto, unfolding(calls::specs::Words::oar1_of))]
pub fn oar1_word(config: Option<TargetConfig>) -> u32
    ensures { result ≡ oar1_of config }
{
    config.map_or(Oar1::RESET, |t| own_word(t.mode, t.own))
}

fn secondary_word(secondary: Option<u32>, mask: Option<u32>) -> u32
    ensures { result ≡ secondary_word secondary mask }
{
    match (secondary, mask) {
        (None, _) => Oar2::RESET,
        (Some(address), None) => Oar2::secondary(address).0,
        (Some(address), Some(bits)) => Oar2::masked(address, bits).0,
    }
}

#[tactic(auto, unfolding(calls::specs::Words::oar2_of))]
pub fn oar2_word(config: Option<TargetConfig>) -> u32
    ensures { result ≡ oar2_of config }
{
    config.map_or(Oar2::RESET, |t| secondary_word(t.secondary, t.mask))
}

fn listen_register(kind: u32) -> Register
    ensures { result ≡ listen_register kind }
{
    match kind {
        0 => Register::Cr1,
        1 => Register::Oar1,
        _ => Register::Oar2,
    }
}

pub fn register_of(d: Description, m: Modify) -> Register
    ensures { result ≡ register_of d m }
{
    match m {
        Modify::PeOff | Modify::PeOn | Modify::SbcOff | Modify::SbcOn => Register::Cr1,
        Modify::Listen => listen_register(d.listen),
        Modify::NackSet
        | Modify::ReloadOff
        | Modify::ReloadClear
        | Modify::ReloadOn
        | Modify::NbytesSet => Register::Cr2,
    }
}

fn enabled_word(c: Call, w: u32) -> u32
    ensures { result ≡ enabled_word c w }
{
    let w = if call::is_call(c, Call::TargetNew) {
        Cr1(w).with_anfoff(false)
    } else {
        Cr1(w)
    };
    w.with_pe(true).0
}

fn listen_word(c: Call, kind: u32, w: u32) -> u32
    ensures { result ≡ listen_word c kind w }
{
    let on = call::is_call(c, Call::EnableTargetEvent);
    match kind {
        0 => Cr1(w).with_gcen(on).0,
        1 => Oar1(w).with_oa1en(on).0,
        _ => Oar2(w).with_oa2en(on).0,
    }
}

// What a modify writes, of the word that it read.
// By hand: the modify is part of the saved step, so it is matched too.
#[tactic(auto, unfolding(calls::specs::Words::alter_of))]
pub fn alter(c: Call, d: Description, v: View, w: u32, m: Modify) -> u32
    ensures { result ≡ alter_of c d v w m }
{
    match m {
        Modify::PeOff => Cr1(w).with_pe(false).0,
        Modify::PeOn => enabled_word(c, w),
        Modify::Listen => listen_word(c, d.listen, w),
        Modify::NackSet => Cr2(w).with_nack(true).0,
        Modify::ReloadOff => Cr2(w).with_reload(false).0,
        Modify::SbcOff => Cr1(w).with_sbc(false).0,
        Modify::ReloadClear => Cr2(w).with_reload(false).with_nbytes(0).0,
        Modify::SbcOn => Cr1(w).with_sbc(true).0,
        Modify::ReloadOn => Cr2(w).with_reload(true).0,
        Modify::NbytesSet => Cr2(w).with_nbytes(v.size).0,
    }
}
