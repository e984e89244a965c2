// Document 01's table of refusals, rows 12, 8, 10 and 11: the first that fits is given. A row's tests are cheap, and
// `&` and `|` take them all; only the operation list is left alone where the call is no transaction.
#![tactic(auto)]

ghost use Rattle.std.specs.Prelude.{◌≡◌, ◌≤◌, length};
ghost use Rattle.calls.specs.Refusals.{no_such_listen_kind, no_configuration, no_such_call, too_wide, secondary_wide, mask_wide, config_wide, address_wide, strange_bits, list_wrong, buffer_wrong, request_of, verdict_of, check_of};
ghost use Rattle.refusals.specs.Rows.{survey_of};

use calls::{AddressMode, Call, Description, Refusal, TargetConfig};
use kinds::{call, operation};

// 12, no such call: calls 4 and 5 name one of three listen kinds, and 2 and 3 have a configuration.
#[tactic(auto, unfolding(calls::specs::Calls::is_call))]
fn is_no_listen_kind(c: Call, d: Description) -> bool
    ensures { result ≡ no_such_listen_kind c d }
{
    matches!(c, Call::EnableTargetEvent | Call::DisableTargetEvent) & (d.listen > 2)
}

#[tactic(auto, unfolding(calls::specs::Calls::is_call))]
fn is_no_configuration(c: Call, d: Description) -> bool
    ensures { result ≡ no_configuration c d }
{
    matches!(c, Call::TargetNew | Call::ConfigureTargetAddresses)
        & !call::has_configuration(d.config)
}

fn is_no_such_call(c: Call, d: Description) -> bool
    ensures { result ≡ no_such_call c d }
{
    is_no_listen_kind(c, d) | is_no_configuration(c, d)
}

// 8, address: each in its seven or ten bits, and a mask of at most six.
fn is_too_wide(mode: AddressMode, address: u32) -> bool
    ensures { result ≡ too_wide mode address }
{
    match mode {
        AddressMode::AddressMode7bit => address > 127,
        AddressMode::AddressMode10bit => address > 1023,
    }
}

fn is_secondary_wide(secondary: Option<u32>) -> bool
    ensures { result ≡ secondary_wide secondary }
{
    secondary.is_some_and(|address| is_too_wide(AddressMode::AddressMode7bit, address))
}

fn is_mask_wide(mask: Option<u32>) -> bool
    ensures { result ≡ mask_wide mask }
{
    mask.is_some_and(|bits| bits > 6)
}

fn is_config_wide(config: Option<TargetConfig>) -> bool
    ensures { result ≡ config_wide config }
{
    config.is_some_and(|t| {
        is_too_wide(t.mode, t.own) | (is_secondary_wide(t.secondary) | is_mask_wide(t.mask))
    })
}

#[tactic(auto, unfolding(calls::specs::Calls::is_call))]
fn is_address_wide(c: Call, d: Description) -> bool
    ensures { result ≡ address_wide c d }
{
    (call::is_transaction(c) & is_too_wide(d.mode, d.address))
        | (matches!(
            c,
            Call::New | Call::TargetNew | Call::ConfigureTargetAddresses
        ) & is_config_wide(d.config))
}

// 10, list: at most 64 operations, without strange bits, that make up the buffer.
fn is_strange(o: u32) -> bool
    ensures { result ≡ strange_bits o }
{
    fields::get(o, 17, 15) != 0
}

// What row 10 asks of a list.
#[derive(Clone, Copy)]
struct Survey {
    strange: bool,
    total: u32,
}

// By hand: `any` and `sum` are two passes, and `any` ends early; in one that never does, the compiler takes several
// operations at a time. Of at most 64 the sum does not overflow.
fn survey_of(ops: &[u32]) -> Survey
    requires { length ops.now ≤ 64 }
    ensures { result ≡ survey_of ops.now }
{
    let mut strange = false;
    let mut total: u32 = 0;
    for &o in ops {
        strange |= is_strange(o);
        total += operation::length(o);
    }
    Survey { strange, total }
}

// Only a transaction's list is looked at, and one of more than 64 operations is not gone through.
fn is_list_wrong(c: Call, ops: &[u32], n: usize) -> bool
    ensures { result ≡ list_wrong c ops.now n }
{
    if !call::is_transaction(c) {
        return false;
    }
    if ops.len() > 64 {
        return true;
    }
    let s = survey_of(ops);
    s.strange | (s.total as usize != n)
}

// 11, buffer: an AutoAck transfer moves a byte, and sixteen bits count the bytes.
fn is_buffer_wrong(c: Call, n: usize) -> bool
    ensures { result ≡ buffer_wrong c n }
{
    ((call::moves_bytes(c) & !call::is_manual(c)) & (n == 0)) | (n > 65535)
}

// The verdict on a listed call, by the rows in their order.
#[tactic(auto, unfolding(calls::specs::Refusals::verdict_of))]
fn verdict(c: Call, d: Description, ops: &[u32], n: usize) -> Result<Call, Refusal>
    ensures { result ≡ verdict_of (request_of c d ops.now n) }
{
    if is_no_such_call(c, d) {
        return Err(Refusal::NoSuchCall);
    }
    if is_address_wide(c, d) {
        return Err(Refusal::Address);
    }
    if is_list_wrong(c, ops, n) {
        return Err(Refusal::List);
    }
    if is_buffer_wrong(c, n) {
        return Err(Refusal::Buffer);
    }
    Ok(c)
}

// What begin and advance both look at; n is the lent buffer's length.
#[tactic(auto, unfolding(calls::specs::Refusals::check_of))]
pub fn check(d: Description, ops: &[u32], n: usize) -> Result<Call, Refusal>
    ensures { result ≡ check_of d ops.now n }
{
    let c = Call::try_from(d.call)?;
    verdict(c, d, ops, n)
}
