// The driver for C and Rust callers, under names with a prefix: functions on numbers, byte slices and arrays of numbers, so that their
// signatures mean the same on every machine. `boundary_c` is the library of them that `compare` and the firmware link, and
// include/huskerivory.h says the same to a C programmer.
#![tactic(auto)]

ghost use Rattle.std.specs.Prelude.{◌≡◌, length};
ghost use Rattle.timing.specs.Bands.{timing_of};
ghost use Rattle.timing.specs.Timingr.{pack_of, unpack_of};
ghost use Rattle.words.specs.Words.{Below};
ghost use Rattle.bands.specs.Bands.{loaded_of, timing_by};
ghost use Rattle.bands.specs.Table.{bands_in};
ghost use Rattle.boundary.specs.Abi.{as_abi_left, abi_left};
ghost use Rattle.boundary.specs.Calls.{description_of, operations_in, as_begin_left, begin_left_in, kind_and_value, access_in, as_advance_left, advance_left_in};
ghost use Rattle.boundary.specs.Page.{as_page_left, page_left_in};
ghost use Rattle.boundary.specs.Timing.{answer, packed_answer, packed_timed, timed_answer, loaded_answer, timing_in, fields_of};

use timing::{I2cTiming, RawTimingr, TimingRefusal};

mod call;

// The version of these functions and the sizes that go with it, for a caller to compare with the header that it was built with. A
// caller that was built for another version knows it by the return value alone.
#[unsafe(no_mangle)]
pub extern "C" fn huskerivory_abi(sizes: &mut [u32; 8]) -> u32
    ensures { as_abi_left result sizes.new ≡ abi_left }
{
    *sizes = [64, saved::LENGTH as u32, 32, 8, 64, 65535, 13, 46];
    3
}

fn packed(timing: Result<I2cTiming, TimingRefusal>) -> Result<RawTimingr, TimingRefusal>
    ensures { packed_answer result ≡ packed_timed timing }
{
    timing?.pack()
}

// By hand: C reads two numbers, a refusal's or 0, and the TIMINGR word or 0.
fn tell(packed: Result<RawTimingr, TimingRefusal>, timingr: &mut u32) -> u32
    ensures { answer result timingr.new ≡ packed_answer packed }
{
    match packed {
        Ok(raw) => {
            *timingr = raw.0;
            0
        }
        Err(why) => {
            *timingr = 0;
            why.number()
        }
    }
}

// The TIMINGR word for a kernel clock and a bus frequency in hertz, or one of the refusals 1 to 6.
#[tactic(auto, using(crate::proofs::Timing::packed, bands::proofs::Fits::timing_fits))]
#[unsafe(no_mangle)]
pub extern "C" fn huskerivory_timing(clock: u32, frequency: u32, timingr: &mut u32) -> u32
    ensures { answer result timingr.new ≡ timed_answer (timing_of clock frequency) }
{
    tell(packed(bands::calc_timing_params(clock, frequency)), timingr)
}

// Looks at a board's own table of speed bands, 24 bytes to a row. 0, or 16.
#[unsafe(no_mangle)]
pub extern "C" fn huskerivory_load_bands(bands: &[u8]) -> u32
    ensures { result ≡ loaded_answer (loaded_of (bands_in bands.now)) }
{
    match bands::load(bands) {
        Ok(()) => 0,
        Err(why) => why.number(),
    }
}

// As `huskerivory_timing`, by a board's own table, which is looked at whole; 16 and 17 are refusals too.
#[tactic(auto, using(crate::proofs::Timing::packed, bands::proofs::Fits::bands_fit))]
#[unsafe(no_mangle)]
pub extern "C" fn huskerivory_timing_by_bands(
    bands: &[u8],
    clock: u32,
    frequency: u32,
    timingr: &mut u32,
) -> u32
    ensures { answer result timingr.new ≡ timed_answer (timing_by (bands_in bands.now) clock frequency) }
{
    tell(packed(bands::timing_by(bands, clock, frequency)), timingr)
}

// The TIMINGR word of five fields, or refusal 7.
#[unsafe(no_mangle)]
pub extern "C" fn huskerivory_pack(fields: &[u8; 5], timingr: &mut u32) -> u32
    ensures { answer result timingr.new ≡ packed_answer (pack_of (timing_in fields.now)) }
{
    let [presc, scldel, sdadel, sclh, scll] = *fields;
    let timing = I2cTiming {
        presc,
        scldel,
        sdadel,
        sclh,
        scll,
    };
    tell(timing.pack(), timingr)
}

#[unsafe(no_mangle)]
pub extern "C" fn huskerivory_unpack(timingr: u32, fields: &mut [u8; 5])
    ensures { fields.new ≡ fields_of (unpack_of (record { 0 = timingr })) }
{
    let t = RawTimingr(timingr).unpack();
    *fields = [t.presc, t.scldel, t.sdadel, t.sclh, t.scll];
}

// The words of an operation list, as far as it is looked at.
// By hand: there is no heap, so each caller has room for the most.
#[tactic(auto, using(words::proofs::Turns::decoded_room, crate::proofs::Answers::listed))]
fn operations_in<'a>(bytes: &[u8], words: &'a mut [u32; 65]) -> &'a [u32]
    ensures { result.now ≡ operations_in bytes.now }
{
    let n = words::decode(bytes, words);
    &words[..n]
}

// Begins a call. 0, or the number of the refusal.
#[unsafe(no_mangle)]
pub extern "C" fn huskerivory_begin(
    description: &[u32; 16],
    operations: &[u8],
    buffer: &[u8],
    saved: &mut [u8],
) -> u32
    ensures { as_begin_left result saved.new ≡ begin_left_in (description_of description.now) (operations_in operations.now) (length buffer.now) saved.old }
{
    let mut words = [0; 65];
    let ops = operations_in(operations, &mut words);
    call::begin(call::describe(description), ops, buffer, saved)
}

// Advances a call with answers, and leaves its accesses in the log. That a slice of bytes holds bytes is said too, so that what
// holds of lists of advances has nothing to ask.
#[tactic(auto, using(words::proofs::Round::all_below))]
#[unsafe(no_mangle)]
pub extern "C" fn huskerivory_advance(
    description: &[u32; 16],
    operations: &[u8],
    saved: &mut [u8],
    buffer: &mut [u8],
    answers: &[u8],
    log: &mut [u8],
    answer: &mut [u64; 4],
) -> u32
    ensures log_after { as_advance_left result answer.new saved.new buffer.new log.new ≡ advance_left_in (description_of description.now) (operations_in operations.now) saved.old buffer.old answers.now log.old }
    ensures bytes { Below 256 buffer.old × Below 256 answers.now }
{
    let mut words = [0; 65];
    let ops = operations_in(operations, &mut words);
    let d = call::describe(description);
    call::advance(d, ops, saved, buffer, answers, log, answer)
}

// The access that the next advance makes first.
#[unsafe(no_mangle)]
pub extern "C" fn huskerivory_next(
    description: &[u32; 16],
    operations: &[u8],
    saved: &[u8],
    buffer: &[u8],
    value: &mut u32,
) -> u32
    ensures { kind_and_value result value.new ≡ access_in (description_of description.now) (operations_in operations.now) saved.now buffer.now }
{
    let mut words = [0; 65];
    let ops = operations_in(operations, &mut words);
    let access = call::next(call::describe(description), ops, saved, buffer);
    *value = access.value;
    access.kind
}

// Lays a log out as a service page. 0 and the page's length, or 15 and 0.
#[unsafe(no_mangle)]
pub extern "C" fn huskerivory_page(log: &[u8], page: &mut [u8], length: &mut u64) -> u32
    ensures { as_page_left result length.new page.new ≡ page_left_in log.now page.old }
{
    let laid = page::lay_out(log, page);
    *length = page::length(laid) as u64;
    page::refusal(laid)
}
