// What a bus timing is: the fields of TIMINGR, packed and unpacked, what a speed band is, and why there may be no timing. The crate
// `bands` works timings out. Every timing and word has an answer, which is a numbered refusal of document 01 where none is right.
#![tactic(auto)]

ghost use Rattle.std.specs.Prelude.{◌≡◌, Some};
ghost use Rattle.timing.specs.Refusals.{timing_refusal_number, timing_refusal_name};
ghost use Rattle.timing.specs.Timingr.{raw_of, pack_of, unpack_of};

use registers::Timingr;
use std::error::Error;
use std::fmt;

// A TIMINGR word, kept apart from plain numbers.
#[derive(Clone, Copy, Debug, PartialEq, Eq)]
pub struct RawTimingr(pub u32);

#[derive(Clone, Copy, Debug, PartialEq, Eq)]
pub struct I2cTiming {
    pub presc: u8,
    pub scldel: u8,
    pub sdadel: u8,
    pub sclh: u8,
    pub scll: u8,
}

#[derive(Clone, Copy, Debug, PartialEq, Eq)]
pub enum TimingRefusal {
    NoSpeed = 1,
    ClockOver = 2,
    Ratio = 3,
    ClockSlow = 4,
    SpeedLow = 5,
    NoSetup = 6,
    FieldWide = 7,
    BadBands = 16,
    NoBand = 17,
}

impl TimingRefusal {
    // By hand: docs/PROMISES.md names this, and `pack` and `unpack`.
    pub fn number(self) -> u32
        ensures { result ≡ timing_refusal_number self }
    {
        self as u32
    }
}

impl fmt::Display for TimingRefusal {
    ghost output = { λ r. Some (timing_refusal_name r) };

    fn fmt<W: fmt::Write>(&self, f: &mut fmt::Formatter<W>) -> fmt::Result {
        f.write_str(match self {
            TimingRefusal::NoSpeed => "no speed",
            TimingRefusal::ClockOver => "clock over",
            TimingRefusal::Ratio => "ratio",
            TimingRefusal::ClockSlow => "clock slow",
            TimingRefusal::SpeedLow => "speed low",
            TimingRefusal::NoSetup => "no setup",
            TimingRefusal::FieldWide => "field wide",
            TimingRefusal::BadBands => "bad bands",
            TimingRefusal::NoBand => "no band",
        })
    }
}

impl Error for TimingRefusal {}

impl I2cTiming {
    // The word of the fields' low bits.
    pub fn word(self) -> RawTimingr
        ensures { result ≡ raw_of self }
    {
        let w = Timingr(Timingr::RESET)
            .with_scll(self.scll as u32)
            .with_sclh(self.sclh as u32)
            .with_sdadel(self.sdadel as u32)
            .with_scldel(self.scldel as u32)
            .with_presc(self.presc as u32);
        RawTimingr(w.0)
    }

    #[tactic(auto, unfolding(crate::specs::Timingr::pack_of))]
    pub fn pack(self) -> Result<RawTimingr, TimingRefusal>
        ensures { result ≡ pack_of self }
    {
        if self.presc > 15 || self.scldel > 15 || self.sdadel > 15 {
            return Err(TimingRefusal::FieldWide);
        }
        Ok(self.word())
    }
}

impl RawTimingr {
    #[tactic(auto, unfolding(crate::specs::Timingr::unpack_of))]
    pub fn unpack(self) -> I2cTiming
        ensures { result ≡ unpack_of self }
    {
        let word = Timingr(self.0);
        I2cTiming {
            presc: word.presc(),
            scldel: word.scldel(),
            sdadel: word.sdadel(),
            sclh: word.sclh(),
            scll: word.scll(),
        }
    }
}

// How SCLL and SCLH share a cycle: equally, or with the low part twice the high one.
#[derive(Clone, Copy, Debug, PartialEq, Eq)]
pub enum Shape {
    Equal,
    Double,
}

// A row of a table of speed bands: the highest frequency, the least clock, d, the divisors of the two delays.
#[derive(Clone, Copy, Debug, PartialEq, Eq)]
pub struct Band {
    pub upper: u32,
    pub least: u32,
    pub d: u32,
    pub sdadel: u32,
    pub scldel: u32,
    pub shape: Shape,
}
