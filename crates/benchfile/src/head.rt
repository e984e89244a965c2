// A call's number, argument and head words: whether they fit, and what they describe.
ghost use Rattle.std.specs.Prelude.{◌≡◌, eqb};
ghost use Rattle.benchfile.specs.Calls.{plain as Calls·plain};
ghost use Rattle.benchfile.specs.Calls.{has_argument, argument_wrong, any_wide, write_size, write_bytes, list_misfit};
ghost use Rattle.benchfile.specs.Calls.{transaction_wrong, config_wrong, head_wrong, call_wrong};
ghost use Rattle.benchfile.specs.Calls.{configuration_in, config_from, head_description, list_in, operations_of};

use crate::part::{after, first, word};
use calls::{Description, TargetConfig};
use kinds::operation;
use timing::RawTimingr;

// The number by which a call is read: 24 to 29 are read like 8 to 13.
// By hand: a file may have any number, and one that names no call is begun and refused like the others.
#[tactic(auto, unfolding(crate::specs::Calls::plain), using(fields::proofs::Tests::tests))]
pub fn plain(n: u32) -> u32
    ensures { result ≡ Calls·plain n }
{
    match n {
        24..=29 => n - 16,
        _ => n,
    }
}

#[tactic(auto, unfolding(crate::specs::Calls::has_argument), using(fields::proofs::Tests::tests))]
fn has_argument(n: u32) -> bool
    ensures { result ≡ has_argument n }
{
    matches!(n, 4 | 5 | 9 | 11)
}

#[tactic(auto, unfolding(crate::specs::Calls::argument_wrong), using(fields::proofs::Tests::tests))]
fn is_argument_wrong(n: u32, a: u32) -> bool
    ensures { result ≡ argument_wrong n a }
{
    if n == 7 {
        return a > 131_071;
    }
    !has_argument(n) && a != 0
}

fn has_wide(words: &[u32]) -> bool
    ensures { result ≡ any_wide words.now }
{
    words.iter().any(|&w| w > 255)
}

pub fn write_size(o: u32) -> usize
    ensures { result ≡ write_size o }
{
    if operation::is_read(o) {
        0
    } else {
        operation::length(o) as usize
    }
}

// Whether the writes of a list have just n bytes: counted down, so that no sum needs a bound.
#[tactic(auto, using(crate::proofs::Lists::takes))]
fn has_write_bytes(ops: &[u32], n: usize) -> bool
    ensures { result ≡ eqb n (write_bytes ops.now) }
{
    let mut left = n;
    for &o in ops {
        let Some(rest) = left.checked_sub(write_size(o)) else {
            return false;
        };
        left = rest;
    }
    left == 0
}

// The words after the count k.
#[tactic(auto, unfolding(crate::specs::Calls::list_misfit), using(fields::proofs::Tests::tests))]
fn is_list_wrong(k: usize, words: &[u32]) -> bool
    ensures { result ≡ list_misfit k words.now }
{
    let bytes = after(words, k);
    words.len() < k || !has_write_bytes(first(words, k), bytes.len()) || has_wide(bytes)
}

#[tactic(auto, unfolding(crate::specs::Calls::transaction_wrong), using(fields::proofs::Tests::tests))]
fn is_transaction_wrong(head: &[u32]) -> bool
    ensures { result ≡ transaction_wrong head.now }
{
    head.is_empty() || is_list_wrong(word(head, 0) as usize, after(head, 1))
}

#[tactic(auto, unfolding(crate::specs::Calls::config_wrong), using(fields::proofs::Tests::tests))]
fn is_config_wrong(size: usize, i: usize, head: &[u32]) -> bool
    ensures { result ≡ config_wrong size i head.now }
{
    head.len() != size || word(head, i) > 1
}

#[tactic(auto, unfolding(crate::specs::Calls::head_wrong), using(fields::proofs::Tests::tests))]
fn is_head_wrong(n: u32, head: &[u32]) -> bool
    ensures { result ≡ head_wrong n head.now }
{
    match n {
        7 => is_transaction_wrong(head),
        10 | 12 => has_wide(head),
        1 => head.len() != 1 && is_config_wrong(5, 2, head),
        2 => is_config_wrong(5, 2, head),
        3 => is_config_wrong(4, 1, head),
        _ => !head.is_empty(),
    }
}

// By hand: number, argument and head stay apart, since a call is described by its own number and laid out by the one that it is read like.
#[tactic(auto, unfolding(crate::specs::Calls::call_wrong))]
pub fn is_call_wrong(n: u32, a: u32, head: &[u32]) -> bool
    ensures { result ≡ call_wrong n a head.now }
{
    let like = plain(n);
    is_argument_wrong(like, a) || is_head_wrong(like, head)
}

// Own address, mode, secondary address and mask.
fn config(words: &[u32]) -> Option<TargetConfig>
    ensures { result ≡ configuration_in words.now }
{
    let &[own, mode, secondary, mask] = words else {
        return None;
    };
    Some(address_words::config(own, mode, secondary, mask))
}

#[tactic(auto, using(fields::proofs::Tests::tests))]
fn config_from(n: u32) -> usize
    ensures { result ≡ config_from n }
{
    if n == 3 { 0 } else { 1 }
}

#[tactic(auto, unfolding(crate::specs::Calls::head_description))]
pub fn describe(n: u32, a: u32, head: &[u32]) -> Description
    ensures { result ≡ head_description n a head.now }
{
    Description {
        call: n,
        address: a % 65_536,
        listen: a,
        timing: RawTimingr(word(head, 0)),
        config: config(after(head, config_from(n))),
        mode: address_words::address_mode(a >= 65_536),
    }
}

// The list of a transaction's head.
pub fn list(head: &[u32]) -> &[u32]
    ensures { result.now ≡ list_in head.now }
{
    first(after(head, 1), word(head, 0) as usize)
}

#[tactic(auto, unfolding(crate::specs::Calls::operations_of), using(fields::proofs::Tests::tests))]
pub fn operations(n: u32, head: &[u32]) -> &[u32]
    ensures { result.now ≡ operations_of n head.now }
{
    if n == 7 { list(head) } else { &[] }
}
