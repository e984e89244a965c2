// The numbers by which C knows a call and a refusal (document 01): a call's both ways, a refusal's one way.
ghost use Rattle.std.specs.Prelude.{◌≡◌, ◌<◌, ok_or};
ghost use Rattle.calls.specs.Calls.{by_ack, call_number};
ghost use Rattle.calls.specs.Outcomes.{refusal_number};
ghost use Rattle.calls.specs.Refusals.{lookup_of};
ghost use Rattle.calls.specs.declared.Refusal.TheVariants.{NoSuchCall};

use crate::{Ack, Call, Refusal};

// 8 to 13 acknowledge by themselves; 16 more, and the caller acknowledges.
fn by_ack(n: u32, a: Ack) -> u32
    requires { n < 16 }
    ensures { result ≡ by_ack n a }
{
    match a {
        Ack::AutoAck => n,
        Ack::ManualAck => n + 16,
    }
}

impl From<Call> for u32 {
    ghost from_gives = { λ c n. n ≡ call_number c };

    fn from(c: Call) -> u32 {
        match c {
            Call::New => 1,
            Call::TargetNew => 2,
            Call::ConfigureTargetAddresses => 3,
            Call::EnableTargetEvent => 4,
            Call::DisableTargetEvent => 5,
            Call::Reset => 6,
            Call::Transaction => 7,
            Call::WaitForEvent(a) => by_ack(8, a),
            Call::Read(a) => by_ack(9, a),
            Call::Write(a) => by_ack(10, a),
            Call::WaitForTargetRead(a) => by_ack(11, a),
            Call::WaitForTargetWrite(a) => by_ack(12, a),
            Call::WaitForStop(a) => by_ack(13, a),
            Call::AckTransfer => 14,
            Call::NackTransfer => 15,
        }
    }
}

impl TryFrom<u32> for Call {
    type Error = Refusal;

    ghost try_from_gives = { λ n r. r ≡ ok_or (lookup_of n) NoSuchCall };

    #[tactic(auto, unfolding(crate::specs::Refusals::lookup_of))]
    fn try_from(n: u32) -> Result<Call, Refusal> {
        match n {
            1 => Ok(Call::New),
            2 => Ok(Call::TargetNew),
            3 => Ok(Call::ConfigureTargetAddresses),
            4 => Ok(Call::EnableTargetEvent),
            5 => Ok(Call::DisableTargetEvent),
            6 => Ok(Call::Reset),
            7 => Ok(Call::Transaction),
            8 => Ok(Call::WaitForEvent(Ack::AutoAck)),
            9 => Ok(Call::Read(Ack::AutoAck)),
            10 => Ok(Call::Write(Ack::AutoAck)),
            11 => Ok(Call::WaitForTargetRead(Ack::AutoAck)),
            12 => Ok(Call::WaitForTargetWrite(Ack::AutoAck)),
            13 => Ok(Call::WaitForStop(Ack::AutoAck)),
            14 => Ok(Call::AckTransfer),
            15 => Ok(Call::NackTransfer),
            24 => Ok(Call::WaitForEvent(Ack::ManualAck)),
            25 => Ok(Call::Read(Ack::ManualAck)),
            26 => Ok(Call::Write(Ack::ManualAck)),
            27 => Ok(Call::WaitForTargetRead(Ack::ManualAck)),
            28 => Ok(Call::WaitForTargetWrite(Ack::ManualAck)),
            29 => Ok(Call::WaitForStop(Ack::ManualAck)),
            _ => Err(Refusal::NoSuchCall),
        }
    }
}

impl From<Refusal> for u32 {
    ghost from_gives = { λ why n. n ≡ refusal_number why };

    fn from(why: Refusal) -> u32 {
        match why {
            Refusal::Address => 8,
            Refusal::List => 10,
            Refusal::Buffer => 11,
            Refusal::NoSuchCall => 12,
            Refusal::SavedCall => 13,
        }
    }
}
