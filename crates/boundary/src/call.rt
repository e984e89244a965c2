// A call's description, its answers and its entries, over lists of words that were read from bytes.
// By hand: C lends a call's parts one by one, and the core takes them so.
ghost use Rattle.std.specs.Prelude.{◌≡◌, length};
ghost use Rattle.boundary.specs.Calls.{has_configuration, description_of, verdict_number, as_begin_left, begin_left_in, access_answer, access_in, numbers_of, answer_for, as_advance_left, advance_left_in};

use calls::{Call, Description, Next, Refusal, Report};
use kinds::report;
use timing::RawTimingr;

// By hand: C reads an access as two numbers.
#[derive(Clone, Copy)]
pub struct AccessAnswer {
    pub kind: u32,
    pub value: u32,
}

// The first call has a configuration where it says so, the next two always.
#[tactic(auto, unfolding(calls::specs::Refusals::lookup_of))]
fn is_configured(call: u32, configured: u32) -> bool
    ensures { result ≡ has_configuration call configured }
{
    match Call::try_from(call) {
        Ok(Call::New) => configured != 0,
        Ok(Call::TargetNew | Call::ConfigureTargetAddresses) => true,
        _ => false,
    }
}

// What is asked, in numbers. A call looks only at those that belong to it.
pub fn describe(words: &[u32; 16]) -> Description
    ensures { result ≡ description_of words.now }
{
    let [
        call,
        address,
        ten,
        listen,
        timingr,
        configured,
        own,
        own_ten,
        secondary,
        mask,
        ..
    ] = *words;
    Description {
        call,
        address,
        listen,
        timing: RawTimingr(timingr),
        config: is_configured(call, configured).then(|| address_words::config(
            own, own_ten, secondary, mask,
        )),
        mode: address_words::address_mode(ten != 0),
    }
}

// A place for a saved call has its length.
// By hand: the number takes the place's length too.
fn verdict_number(verdict: Result<Call, Refusal>, n: usize) -> u32
    ensures { result ≡ verdict_number verdict n }
{
    match verdict {
        Ok(_) if n == saved::LENGTH => 0,
        Ok(_) => Refusal::SavedCall.into(),
        Err(why) => why.into(),
    }
}

pub fn begin(d: Description, ops: &[u32], buffer: &[u8], saved: &mut [u8]) -> u32
    ensures { as_begin_left result saved.new ≡ begin_left_in d ops.now (length buffer.now) saved.old }
{
    let begun = driver::begin(d, ops, buffer);
    let n = verdict_number(begun.verdict, saved.len());
    saved::write(begun.saved, saved);
    n
}

fn access_answer(next: Next) -> AccessAnswer
    ensures { result ≡ access_answer next }
{
    match next {
        Next::Over => AccessAnswer { kind: 0, value: 0 },
        Next::Read(r) => AccessAnswer {
            kind: 1,
            value: r.offset(),
        },
        Next::Write(r) => AccessAnswer {
            kind: 2,
            value: r.offset(),
        },
        Next::Refused(why) => AccessAnswer {
            kind: 3,
            value: why.into(),
        },
    }
}

pub fn next(d: Description, ops: &[u32], saved: &[u8], buffer: &[u8]) -> AccessAnswer
    ensures { result ≡ access_in d ops.now saved.now buffer.now }
{
    let call = saved::read(saved);
    access_answer(driver::next_access(d, ops, call, buffer))
}

// What an advance leaves besides its report's number, each number in 64 bits on every machine.
fn answer_for(report: Report, used: usize, written: usize) -> [u64; 4]
    ensures { result ≡ numbers_of (answer_for report used written) }
{
    let value = report::value(report).into();
    let awaited = report::awaited(report).into();
    [value, awaited, used as u64, written as u64]
}

pub fn advance(
    d: Description,
    ops: &[u32],
    saved: &mut [u8],
    buffer: &mut [u8],
    answers: &[u8],
    log: &mut [u8],
    answer: &mut [u64; 4],
) -> u32
    ensures { as_advance_left result answer.new saved.new buffer.new log.new ≡ advance_left_in d ops.now saved.old buffer.old answers.now log.old }
{
    let call = saved::read(saved);
    let far = advance_bytes::run(call, d, ops, buffer, answers, log);
    // a refused call is left as it is
    if !report::is_refusal(far.report) {
        saved::write(far.saved, saved);
    }
    *answer = answer_for(far.report, far.used, far.written);
    report::number(far.report)
}
