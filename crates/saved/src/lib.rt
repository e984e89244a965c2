// The saved call as bytes, and back. Each function equals its definition in specs/.
#![tactic(auto)]

ghost use Rattle.std.specs.Prelude.{◌≡◌, unwrap_or};
ghost use Rattle.calls.specs.Run.{no_call};
ghost use Rattle.saved.specs.Saved.{saved_in, written_to};

use calls::SavedCall;
use kinds::saved_call;

mod outcome;
mod step;

// The words of a saved call, each after the one before it, and the length of them all in bytes.
const CALL: usize = 0;

const PIECE: usize = CALL + 1;

const BYTE: usize = PIECE + 1;

const WORD: usize = BYTE + 1;

const ACCESSES: usize = WORD + 1;

const OUTCOME: usize = ACCESSES + 1;

const VALUE: usize = OUTCOME + 1;

const STEP: usize = VALUE + 1;

const OUT: usize = STEP + 1;

pub const LENGTH: usize = 4 * (OUT + 1);

// The saved call that bytes are, if they have the length of one, and a step and an outcome.
#[tactic(auto, unfolding(crate::specs::Saved::saved_in))]
fn found(bytes: &[u8]) -> Option<SavedCall>
    ensures { unwrap_or result no_call ≡ saved_in bytes.now }
{
    if bytes.len() != LENGTH {
        return None;
    }
    Some(SavedCall {
        call: words::get(bytes, CALL),
        piece: words::get(bytes, PIECE),
        byte: words::get(bytes, BYTE),
        out: words::get(bytes, OUT),
        word: words::get(bytes, WORD),
        accesses: words::get(bytes, ACCESSES),
        outcome: outcome::outcome_at(words::get(bytes, OUTCOME), words::get(bytes, VALUE))?,
        step: step::step_at(words::get(bytes, STEP))?,
    })
}

// The saved call that bytes are; what no advance takes, where they are none.
pub fn read(bytes: &[u8]) -> SavedCall
    ensures { result ≡ saved_in bytes.now }
{
    found(bytes).unwrap_or(saved_call::no_call())
}

// Writes a saved call to bytes of that length, and nothing to others.
#[tactic(auto, unfolding(crate::specs::Saved::written_to, crate::specs::Saved::saved_bytes, words::specs::Words::put_words))]
pub fn write(s: SavedCall, bytes: &mut [u8])
    ensures { bytes.new ≡ written_to bytes.old s }
{
    if bytes.len() == LENGTH {
        let all = [
            s.call,
            s.piece,
            s.byte,
            s.word,
            s.accesses,
            kinds::outcome::number(s.outcome),
            kinds::outcome::value(s.outcome),
            step::step_number(s.step),
            s.out,
        ];
        words::encode(&all, bytes);
    }
}
