// The loop of advance: accesses until the call has ended, the log has no place, or a read finds no answer.
ghost use Rattle.std.specs.Prelude.{◌≡◌, ◌+◌, ◌*◌, ◌/◌, ◌≤◌, length, set};
ghost use Rattle.calls.proofs.Accepted.{Known};
ghost use Rattle.calls.specs.Refusals.{request_of};
ghost use Rattle.calls.specs.Run.{byte_of, advance_from, as_final, final_by};
ghost use Rattle.registers.specs.Map.{offset_of};
ghost use Rattle.steps.specs.Bounds.{Small};
ghost use Rattle.driver.specs.Views.{cursor_at};
ghost use Rattle.driver.specs.Turn.{left, answer_to, made_of, turn_of};

use crate::quick;
use crate::request::Request;
use crate::view::{Cursor, word};
use calls::{Access, Advanced, Description, Report, SavedCall, View};
use registers::{Register, Rxdr};

// An access that was made: how many answers are used after it, and the one that it read, or 0.
#[derive(Clone, Copy)]
pub struct Made {
    pub used: usize,
    pub answer: u32,
}

// A turn that made its access: how many answers are used after it, and the call after it.
#[derive(Clone, Copy)]
pub struct Turned {
    pub used: usize,
    pub saved: SavedCall,
}

pub fn note(log: &mut [u32], at: usize, code: u32, value: u32)
    requires { at + 2 ≤ length log.old }
    ensures { log.new ≡ set (set log.old at code) (at + 1) value }
{
    log[at] = code;
    log[at + 1] = value;
}

#[tactic(auto, unfolding(fields::specs::Field::get_of, fields::specs::Field::bits_at))]
pub fn keep(buffer: &mut [u8], at: usize, answer: u32)
    ensures { buffer.new ≡ set buffer.old at (byte_of answer) }
{
    if at < buffer.len() {
        buffer[at] = Rxdr(answer).rxdata();
    }
}

// The first word of a write's entry.
pub fn write_code(r: Register) -> u32
    ensures { result ≡ offset_of r + 0x100 }
{
    r.offset() + 0x100
}

// The answer to a read of r, or the report that it is awaited.
fn answer_to(r: Register, answers: &[u32], used: usize) -> Result<u32, Report>
    ensures { result ≡ answer_to r answers.now used }
{
    word(answers, used).ok_or(Report::Waiting(r))
}

// The access of a turn, in the log and in the buffer, or the report with which the advance ends.
// By hand: what an advance is lent goes side by side. A struct of it would be borrowed whole where the log or the buffer alone is.
fn make(
    request: &Request,
    d: Description,
    v: View,
    s: SavedCall,
    buffer: &mut [u8],
    answers: &[u32],
    used: usize,
    log: &mut [u32],
    at: usize,
) -> Result<Made, Report>
    requires { at + 2 ≤ length log.old }
    ensures { left result buffer.new log.new ≡ made_of request.now.call d v s buffer.old answers.now used log.old at }
{
    match access::access(request.call, d, v, buffer, s) {
        Access::Nothing => Err(Report::Over(s.outcome)),
        Access::Write(r, w) => {
            note(log, at, write_code(r), w);
            Ok(Made { used, answer: 0 })
        }
        Access::Read(r) => {
            let answer = answer_to(r, answers, used)?;
            note(log, at, r.offset(), answer);
            Ok(Made {
                used: used + 1,
                answer,
            })
        }
        Access::Take(i) => {
            let answer = answer_to(Register::Rxdr, answers, used)?;
            note(log, at, Register::Rxdr.offset(), answer);
            keep(buffer, i, answer);
            Ok(Made {
                used: used + 1,
                answer,
            })
        }
    }
}

// One access, if there is one to make.
fn turn(
    request: &Request,
    d: Description,
    v: View,
    s: SavedCall,
    buffer: &mut [u8],
    answers: &[u32],
    used: usize,
    log: &mut [u32],
    at: usize,
) -> Result<Turned, Report>
    requires { (at + 2 ≤ length log.old) × Small s × (v.size ≤ 65535) }
    ensures { left result buffer.new log.new ≡ turn_of request.now.call d v s buffer.old answers.now used log.old at }
{
    let made = make(request, d, v, s, buffer, answers, used, log, at)?;
    Ok(Turned {
        used: made.used,
        saved: steps::after(request.call, d, v, s, made.answer),
    })
}

pub fn run(
    request: &Request,
    d: Description,
    first: Cursor,
    saved: SavedCall,
    buffer: &mut [u8],
    answers: &[u32],
    log: &mut [u32],
) -> Advanced
    requires first { first ≡ cursor_at request.now.call request.now.operations.now request.now.size saved.piece }
    requires known { Known (request_of request.now.call d request.now.operations.now request.now.size) saved }
    ensures { as_final result buffer.new log.new ≡ final_by log.old (advance_from (request_of request.now.call d request.now.operations.now request.now.size) (length log.old / 2) saved buffer.old answers.now) }
{
    let mut s = saved;
    let mut p = first;
    let mut used: usize = 0;
    let mut written: usize = 0;
    let places = log.len() / 2;
    // By hand: two loops share one count of the log's entries, so neither is a `for` over them.
    'turns: while written < places {
        let v = p.view;
        // Quick turns have a loop of their own, which keeps little at hand. The last place is left to the general turn.
        'quick: while written + 1 < places {
            match quick::turn(v, s, buffer, answers, used, log, 2 * written) {
                Some(k) => {
                    s = quick::moved(s, k);
                    used = k.used;
                    written += 1;
                }
                None => break,
            }
        }
        match turn(request, d, v, s, buffer, answers, used, log, 2 * written) {
            Ok(t) => {
                p = request.cursor_after(p, s.piece, t.saved.piece);
                s = t.saved;
                used = t.used;
                written += 1;
            }
            Err(report) => {
                return Advanced {
                    used,
                    written,
                    saved: s, // a poll goes on where it stands
                    report,
                };
            }
        }
    }
    let report = if steps::is_ended(s.step) {
        Report::Over(s.outcome)
    } else {
        Report::Full
    };
    Advanced {
        used,
        written,
        saved: s,
        report,
    }
}
