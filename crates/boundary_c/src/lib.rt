// The functions of `boundary` as a static library, for C and Rust callers: a library that other crates build on is linked by none, so each
// stands here once more, under its name and with its clauses, and calls the one there. include/huskerivory.h says the same to a C
// programmer; `compare` and the firmware link it.
// By hand: the two sets of functions are C's interface.
#![tactic(auto)]

ghost use Rattle.std.specs.Prelude.{◌≡◌, length};
ghost use Rattle.timing.specs.Bands.{timing_of};
ghost use Rattle.timing.specs.Timingr.{pack_of, unpack_of};
ghost use Rattle.words.specs.Words.{Below};
ghost use Rattle.bands.specs.Bands.{loaded_of, timing_by};
ghost use Rattle.bands.specs.Table.{bands_in};
ghost use Rattle.boundary.specs.Abi.{as_abi_left, abi_left};
ghost use Rattle.boundary.specs.Calls.{description_of, operations_in, as_begin_left, begin_left_in, kind_and_value, access_in, as_advance_left, advance_left_in};
ghost use Rattle.boundary.specs.Page.{as_page_left, page_left_in};
ghost use Rattle.boundary.specs.Timing.{answer, packed_answer, timed_answer, loaded_answer, timing_in, fields_of};

// The version of these functions and the sizes that go with it.
#[unsafe(no_mangle)]
pub extern "C" fn huskerivory_abi(sizes: &mut [u32; 8]) -> u32
    ensures { as_abi_left result sizes.new ≡ abi_left }
{
    boundary::huskerivory_abi(sizes)
}

// The TIMINGR word for a kernel clock and a bus frequency in hertz, or one of the refusals 1 to 6.
#[unsafe(no_mangle)]
pub extern "C" fn huskerivory_timing(clock: u32, frequency: u32, timingr: &mut u32) -> u32
    ensures { answer result timingr.new ≡ timed_answer (timing_of clock frequency) }
{
    boundary::huskerivory_timing(clock, frequency, timingr)
}

// Looks at a board's own table of speed bands, 24 bytes to a row. 0, or 16.
#[unsafe(no_mangle)]
pub extern "C" fn huskerivory_load_bands(bands: &[u8]) -> u32
    ensures { result ≡ loaded_answer (loaded_of (bands_in bands.now)) }
{
    boundary::huskerivory_load_bands(bands)
}

// As `huskerivory_timing`, by a board's own table, which is looked at whole; 16 and 17 are refusals too.
#[unsafe(no_mangle)]
pub extern "C" fn huskerivory_timing_by_bands(
    bands: &[u8],
    clock: u32,
    frequency: u32,
    timingr: &mut u32,
) -> u32
    ensures { answer result timingr.new ≡ timed_answer (timing_by (bands_in bands.now) clock frequency) }
{
    boundary::huskerivory_timing_by_bands(bands, clock, frequency, timingr)
}

// The TIMINGR word of five fields, or refusal 7.
#[unsafe(no_mangle)]
pub extern "C" fn huskerivory_pack(fields: &[u8; 5], timingr: &mut u32) -> u32
    ensures { answer result timingr.new ≡ packed_answer (pack_of (timing_in fields.now)) }
{
    boundary::huskerivory_pack(fields, timingr)
}

#[unsafe(no_mangle)]
pub extern "C" fn huskerivory_unpack(timingr: u32, fields: &mut [u8; 5])
    ensures { fields.new ≡ fields_of (unpack_of (record { 0 = timingr })) }
{
    boundary::huskerivory_unpack(timingr, fields)
}

// Begins a call. 0, or the number of the refusal.
#[unsafe(no_mangle)]
pub extern "C" fn huskerivory_begin(
    description: &[u32; 16],
    operations: &[u8],
    buffer: &[u8],
    saved: &mut [u8],
) -> u32
    ensures { as_begin_left result saved.new ≡ begin_left_in (description_of description.now) (operations_in operations.now) (length buffer.now) saved.old }
{
    boundary::huskerivory_begin(description, operations, buffer, saved)
}

// Advances a call with answers, and leaves its accesses in the log.
#[unsafe(no_mangle)]
pub extern "C" fn huskerivory_advance(
    description: &[u32; 16],
    operations: &[u8],
    saved: &mut [u8],
    buffer: &mut [u8],
    answers: &[u8],
    log: &mut [u8],
    answer: &mut [u64; 4],
) -> u32
    ensures log_after { as_advance_left result answer.new saved.new buffer.new log.new ≡ advance_left_in (description_of description.now) (operations_in operations.now) saved.old buffer.old answers.now log.old }
    ensures bytes { Below 256 buffer.old × Below 256 answers.now }
{
    boundary::huskerivory_advance(description, operations, saved, buffer, answers, log, answer)
}

// The access that the next advance makes first.
#[unsafe(no_mangle)]
pub extern "C" fn huskerivory_next(
    description: &[u32; 16],
    operations: &[u8],
    saved: &[u8],
    buffer: &[u8],
    value: &mut u32,
) -> u32
    ensures { kind_and_value result value.new ≡ access_in (description_of description.now) (operations_in operations.now) saved.now buffer.now }
{
    boundary::huskerivory_next(description, operations, saved, buffer, value)
}

// Lays a log out as a service page. 0 and the page's length, or 15 and 0.
#[unsafe(no_mangle)]
pub extern "C" fn huskerivory_page(log: &[u8], page: &mut [u8], length: &mut u64) -> u32
    ensures { as_page_left result length.new page.new ≡ page_left_in log.now page.old }
{
    boundary::huskerivory_page(log, page, length)
}
