// Quick turns: those of WAIT and BYTE that make up most of a transfer, made without a look at the tables. Whatever the call
// is, each is its general turn, and changes no more of the saved call than the byte, the bytes put out, the step and the count of
// accesses.
// By hand: what is lent goes side by side, as in run.rt, and each function bounds what it adds up: a type that says so would be made anew
// at each access.
ghost use Rattle.std.specs.Prelude.{◌≡◌, true, false, cond, ◌&&◌, List, ℕ, ◌+◌, ◌≤◌, ◌<◌, eqb, ltb, length, IfSome};
ghost use Rattle.calls.specs.Outcomes.{is_done};
ghost use Rattle.calls.specs.Steps.{same_step, effect_at};
ghost use Rattle.calls.specs.declared.Call.{Call};
ghost use Rattle.calls.specs.declared.Description.{Description};
ghost use Rattle.calls.specs.declared.Effect.TheVariants.{Goes};
ghost use Rattle.calls.specs.declared.Step.TheVariants.{Wait, Byte};
ghost use Rattle.steps.specs.Bounds.{Small};
ghost use Rattle.driver.specs.Turn.{moved_by, Quickly};

use crate::run;
use crate::view::word;
use calls::{SavedCall, Step, View};
use kinds::outcome;
use registers::Register;

// A quick turn that was made: the answers used, and what the saved call changes to.
#[derive(Clone, Copy)]
pub struct Quick {
    pub used: usize,
    pub byte: u32,
    pub out: u32,
    pub step: Step,
}

// The saved call after it.
pub fn moved(s: SavedCall, k: Quick) -> SavedCall
    ensures { result ≡ moved_by s k }
{
    SavedCall {
        byte: k.byte,
        out: k.out,
        accesses: steps::one_more(s.accesses),
        step: k.step,
        ..s
    }
}

// TXIS alone for a byte that goes out, RXNE alone for one that comes in.
fn awaited_flags(v: View) -> u32
    ensures { result ≡ cond v.reads 2 1 }
{
    if v.reads { 2 } else { 1 }
}

fn is_ready(v: View, s: SavedCall, flags: u32) -> bool
    ensures { result ≡ (eqb flags (cond v.reads 2 1) && (is_done s.outcome && ltb s.byte v.size)) }
{
    (flags == awaited_flags(v)) & (outcome::is_done(s.outcome) & (s.byte < v.size))
}

// ISR's bits 1 to 9 are all the flags that a wait looks at, TXIS to ARLO. With none of them it goes on, with just the awaited
// one its byte is next. What else it finds is left to the general turn.
fn after_wait(v: View, s: SavedCall, a: u32) -> Option<Step>
    ensures { IfSome result (λ t. (c : Call) (d : Description) → effect_at c d v s a Wait ≡ Goes t) }
{
    let flags = fields::get(a, 1, 9);
    if flags == 0 {
        return Some(Step::Wait);
    }
    if is_ready(v, s, flags) {
        return Some(Step::Byte);
    }
    None
}

fn wait(
    v: View,
    s: SavedCall,
    answers: &[u32],
    used: usize,
    log: &mut [u32],
    at: usize,
) -> Option<Quick>
    requires { (at + 2 ≤ length log.old) × (same_step s.step Wait ≡ true) }
    ensures { (b : List ℕ) → Quickly v s b answers.now used log.old at result b log.new }
{
    let a = word(answers, used)?;
    let step = after_wait(v, s, a)?;
    run::note(log, at, Register::Isr.offset(), a);
    Some(Quick {
        used: used + 1,
        byte: s.byte,
        out: s.out,
        step,
    })
}

fn take(
    v: View,
    s: SavedCall,
    buffer: &mut [u8],
    answers: &[u32],
    used: usize,
    log: &mut [u32],
    at: usize,
) -> Option<Quick>
    requires { (at + 2 ≤ length log.old) × (same_step s.step Byte ≡ true) × (s.byte + 1 < v.size) × (v.reads ≡ true) }
    ensures { Quickly v s buffer.old answers.now used log.old at result buffer.new log.new }
{
    let a = word(answers, used)?;
    run::note(log, at, Register::Rxdr.offset(), a);
    run::keep(buffer, access::place(v, s), a);
    Some(Quick {
        used: used + 1,
        byte: s.byte + 1,
        out: steps::held_out(s.out, v.most),
        step: Step::Wait,
    })
}

fn put(v: View, s: SavedCall, buffer: &[u8], used: usize, log: &mut [u32], at: usize) -> Quick
    requires { (at + 2 ≤ length log.old) × (same_step s.step Byte ≡ true) × (s.byte + 1 < v.size) × (v.reads ≡ false) }
    ensures { (l : List ℕ) → Quickly v s buffer.now l used log.old at (Some result) buffer.now log.new }
{
    let value = access::byte_out(v, buffer, s);
    run::note(log, at, run::write_code(Register::Txdr), value);
    Quick {
        used,
        byte: s.byte + 1,
        out: steps::held_out(s.out, v.most),
        step: Step::Wait,
    }
}

// Another byte of the piece must follow. The place is looked at once, here.
fn byte(
    v: View,
    s: SavedCall,
    buffer: &mut [u8],
    answers: &[u32],
    used: usize,
    log: &mut [u32],
    at: usize,
) -> Option<Quick>
    requires { (at + 2 ≤ length log.old) × Small s × (same_step s.step Byte ≡ true) }
    ensures { Quickly v s buffer.old answers.now used log.old at result buffer.new log.new }
{
    if (s.byte + 1 < v.size) && (access::place(v, s) < buffer.len()) {
        if v.reads {
            return take(v, s, buffer, answers, used, log, at);
        }
        return Some(put(v, s, buffer, used, log, at));
    }
    None
}

pub fn turn(
    v: View,
    s: SavedCall,
    buffer: &mut [u8],
    answers: &[u32],
    used: usize,
    log: &mut [u32],
    at: usize,
) -> Option<Quick>
    requires { (at + 2 ≤ length log.old) × Small s }
    ensures { Quickly v s buffer.old answers.now used log.old at result buffer.new log.new }
{
    if steps::is_wait(s.step) {
        return wait(v, s, answers, used, log, at);
    }
    if steps::is_byte(s.step) {
        return byte(v, s, buffer, answers, used, log, at);
    }
    None
}
