// What an advance is asked for.
ghost use Rattle.std.specs.Prelude.{◌≡◌, ◌≤◌, T, length, MatchResult};
ghost use Rattle.calls.specs.Calls.{transaction};
ghost use Rattle.calls.specs.Refusals.{total, check_of};

use calls::{Call, Description, Refusal};

// A call with the operations that it is lent and the buffer's length. They fit each other.
// By hand: the description is no part of it, since an advance on the chip then takes more instructions: it would be copied.
#[derive(Clone, Copy)]
pub struct Request<'a> {
    pub call: Call,
    pub operations: &'a [u32],
    pub size: u32,
    ghost fits: { size ≤ 65535 },
    ghost few: { T (transaction call) → length operations.now ≤ 64 },
    ghost sum: { T (transaction call) → total operations.now ≡ size },
}

impl<'a> Request<'a> {
    // The call that the description names, or why it is refused.
    pub fn new(d: Description, operations: &'a [u32], buffer: usize) -> Result<Self, Refusal>
        ensures { MatchResult result (λ r. (check_of d operations.now buffer ≡ Ok r.call) × (r.operations.now ≡ operations.now) × (r.size ≡ buffer)) (λ why. check_of d operations.now buffer ≡ Err why) }
    {
        let call = refusals::check(d, operations, buffer)?;
        Ok(Request {
            call,
            operations,
            size: buffer as u32,
        })
    }
}
