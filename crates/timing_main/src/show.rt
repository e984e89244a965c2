// What is written: answers to standard output, complaints to standard error. An answer that cannot be written ends the program.
use std::io;
use std::rt::HostRuntime;
use timing::{I2cTiming, RawTimingr, TimingRefusal};

fn packed(t: I2cTiming) -> Result<(I2cTiming, RawTimingr), TimingRefusal> {
    let word = t.pack()?;
    Ok((t, word))
}

// The line of a clock and a frequency.
// By hand: they are two numbers of a line, and `bands` is asked with the two.
pub fn answer(
    rt: &HostRuntime,
    clock: u32,
    frequency: u32,
    timed: Result<I2cTiming, TimingRefusal>,
) -> io::Result<()> {
    print!(rt; "{clock} {frequency} ")?;
    match timed.and_then(packed) {
        Ok((t, word)) => println!(rt;
            "0x{:08X} presc {} scldel {} sdadel {} sclh {} scll {}",
            word.0, t.presc, t.scldel, t.sdadel, t.sclh, t.scll
        ),
        Err(refusal) => println!(rt; "refused {} {refusal}", refusal.number()),
    }
}
