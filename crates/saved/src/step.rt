// A step's number, and the step of a number.
// By hand: a `From` or a `TryFrom` of `Step` would stand in `calls`, and only saved bytes have a step's number.
ghost use Rattle.std.specs.Prelude.{◌≡◌, ◌≤◌};
ghost use Rattle.calls.specs.Steps.{modify_number, step_number};
ghost use Rattle.saved.specs.Saved.{modify_at, step_at};

use calls::{Modify, Step};

fn modify_number(m: Modify) -> u32
    ensures { (result ≡ modify_number m) × (result ≤ 9) }
{
    m as u32
}

pub fn step_number(t: Step) -> u32
    ensures { result ≡ step_number t }
{
    match t {
        Step::Ended => 0,
        Step::Begin => 1,
        Step::StartStatus => 2,
        Step::StartControl => 3,
        Step::Wait => 4,
        Step::Byte => 5,
        Step::StopClear => 6,
        Step::BusClear => 7,
        Step::ArbitrationClear => 8,
        Step::NackClear => 9,
        Step::FlushTxis => 10,
        Step::FlushByte => 11,
        Step::FlushTxe => 12,
        Step::Flush => 13,
        Step::Timing => 14,
        Step::Own => 15,
        Step::Secondary => 16,
        Step::Enable => 17,
        Step::Delay1 => 18,
        Step::Delay2 => 19,
        Step::Disabled => 20,
        Step::Event => 21,
        Step::EventFlush => 22,
        Step::EventClear => 23,
        Step::Address => 24,
        Step::TransferClear => 25,
        Step::ModifyRead(m) => 26 + modify_number(m),
        Step::ModifyWrite(m) => 36 + modify_number(m),
    }
}

#[tactic(auto, unfolding(crate::specs::Saved::modify_at))]
fn modify_at(n: u32) -> Option<Modify>
    ensures { result ≡ modify_at n }
{
    match n {
        0 => Some(Modify::PeOff),
        1 => Some(Modify::PeOn),
        2 => Some(Modify::Listen),
        3 => Some(Modify::NackSet),
        4 => Some(Modify::ReloadOff),
        5 => Some(Modify::SbcOff),
        6 => Some(Modify::ReloadClear),
        7 => Some(Modify::SbcOn),
        8 => Some(Modify::ReloadOn),
        9 => Some(Modify::NbytesSet),
        _ => None,
    }
}

#[tactic(auto, unfolding(crate::specs::Saved::step_at), using(crate::proofs::Arms::read_at, crate::proofs::Arms::write_at))]
pub fn step_at(n: u32) -> Option<Step>
    ensures { result ≡ step_at n }
{
    match n {
        0 => Some(Step::Ended),
        1 => Some(Step::Begin),
        2 => Some(Step::StartStatus),
        3 => Some(Step::StartControl),
        4 => Some(Step::Wait),
        5 => Some(Step::Byte),
        6 => Some(Step::StopClear),
        7 => Some(Step::BusClear),
        8 => Some(Step::ArbitrationClear),
        9 => Some(Step::NackClear),
        10 => Some(Step::FlushTxis),
        11 => Some(Step::FlushByte),
        12 => Some(Step::FlushTxe),
        13 => Some(Step::Flush),
        14 => Some(Step::Timing),
        15 => Some(Step::Own),
        16 => Some(Step::Secondary),
        17 => Some(Step::Enable),
        18 => Some(Step::Delay1),
        19 => Some(Step::Delay2),
        20 => Some(Step::Disabled),
        21 => Some(Step::Event),
        22 => Some(Step::EventFlush),
        23 => Some(Step::EventClear),
        24 => Some(Step::Address),
        25 => Some(Step::TransferClear),
        26..=35 => modify_at(n - 26).map(Step::ModifyRead),
        36..=45 => modify_at(n - 36).map(Step::ModifyWrite),
        _ => None,
    }
}
