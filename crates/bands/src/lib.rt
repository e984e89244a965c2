// The timing of a bus from a kernel clock and a bus frequency, by rows of speed bands: document 01's five, or a table that a board's maker
// supplies (document 02, R-4). Every table, clock and frequency has an answer, which is a numbered refusal where no timing is right.
#![tactic(auto)]

ghost use Rattle.std.specs.Prelude.{◌≡◌, ◌-◌, ◌/◌, ◌≤◌, length};
ghost use Rattle.timing.specs.Bands.{row, band_of, held, fields_of, timing_of};
ghost use Rattle.bands.specs.Bands.{sound, band_for, accepted, loaded_of, settled, shaped_in, in_row, by_row, by_found, timing_by};
ghost use Rattle.bands.specs.Bounds.{Sound, SoundIn, Divider, row_stands, rows_stand};
ghost use Rattle.bands.specs.Table.{shape_of, band_in, bands_from, bands_in};

use timing::{Band, I2cTiming, Shape, TimingRefusal};

// The bytes of a row, and of the longest table.
const ROW: usize = 24;

const TABLE: usize = 384;

fn row_of(upper: u32, least: u32, d: u32, sdadel: u32, scldel: u32, shape: Shape) -> Band
    ensures { result ≡ row upper least d sdadel scldel shape }
{
    Band {
        upper,
        least,
        d,
        sdadel,
        scldel,
        shape,
    }
}

// x held to 1 .. 15.
fn data_delay(x: u32) -> u8
    ensures { result ≡ held 1 15 x }
{
    x.clamp(1, 15) as u8
}

// x - 1 held to 4 .. 15.
fn clock_delay(x: u32) -> u8
    ensures { result ≡ held 4 15 (x - 1) }
{
    x.saturating_sub(1).clamp(4, 15) as u8
}

// A cycle of r clocks, to be timed by a row.
#[derive(Clone, Copy)]
struct Cycle {
    clock: u32,
    r: u32,
    band: Band,
    ghost sound: { Sound band },
    ghost long: { 4 ≤ r },
}

impl Cycle {
    fn fields(self, p: u32, sclh: u8, scll: u8) -> I2cTiming
        requires { (1 ≤ p) × (p ≤ 16) }
        ensures { result ≡ fields_of self.clock self.band p sclh scll }
    {
        I2cTiming {
            presc: (p - 1) as u8,
            scldel: clock_delay(self.clock / self.band.scldel / p),
            sdadel: data_delay(self.clock / self.band.sdadel / p),
            sclh,
            scll,
        }
    }

    // A prescaler and both parts of a cycle are settled: what is left is the setup time.
    #[tactic(auto, unfolding(crate::specs::Bands::settled))]
    fn settle(self, p: u32, sclh: u8, scll: u8) -> Result<I2cTiming, TimingRefusal>
        requires { (1 ≤ p) × (p ≤ 16) }
        ensures { result ≡ settled self.clock self.band p sclh scll }
    {
        let x = self.clock / self.band.scldel / p;
        if x == 0 {
            return Err(TimingRefusal::NoSetup);
        }
        Ok(self.fields(p, sclh, scll))
    }

    // How often d goes into the cycle, rounded up.
    fn divider(self) -> u32
        ensures { Divider self.r self.band.d result }
    {
        // By hand: `div_ceil` takes the remainder too, which costs the chip instructions.
        (self.r - 1) / self.band.d + 1
    }

    // A prescaler is held to 16, so that a half may be too long for its field.
    fn equal(self) -> Result<I2cTiming, TimingRefusal>
        ensures { result ≡ shaped_in Shape.Equal self.clock self.r self.band }
    {
        let p = self.divider().min(16);
        let half = (self.r / p - 2) / 2;
        if half > 255 {
            return Err(TimingRefusal::SpeedLow);
        }
        self.settle(p, half as u8, half as u8)
    }

    // The prescaler is not held, so a cycle has at most d steps and both parts fit.
    fn double(self) -> Result<I2cTiming, TimingRefusal>
        ensures { result ≡ shaped_in Shape.Double self.clock self.r self.band }
    {
        let p = self.divider();
        if p > 16 {
            return Err(TimingRefusal::SpeedLow);
        }
        let high = (self.r / p - 3) / 3;
        let low = 2 * (high + 1) - 1;
        self.settle(p, high as u8, low as u8)
    }

    #[tactic(auto, unfolding(crate::specs::Bands::in_row))]
    fn timing(self) -> Result<I2cTiming, TimingRefusal>
        ensures { result ≡ in_row self.clock self.r self.band }
    {
        if self.clock < self.band.least {
            return Err(TimingRefusal::ClockSlow);
        }
        match self.band.shape {
            Shape::Equal => self.equal(),
            Shape::Double => self.double(),
        }
    }
}

// The timing in a row, from the ratio on.
fn by_row(clock: u32, frequency: u32, b: Band) -> Result<I2cTiming, TimingRefusal>
    requires sound { Sound b }
    requires le_frequency { 1 ≤ frequency }
    ensures { result ≡ by_row clock frequency b }
{
    let r = clock / frequency;
    if r < 4 {
        return Err(TimingRefusal::Ratio);
    }
    Cycle { clock, r, band: b }.timing()
}

// Document 01's row of a frequency.
// By hand: tried as a `find` over constant rows, and what it returns was not proved.
#[tactic(auto, unfolding(timing::specs::Bands::band_of))]
fn band_of(frequency: u32) -> Band
    ensures { result ≡ band_of frequency }
{
    if frequency <= 7_999 {
        return row_of(7_999, 2_000_000, 256, 2_000_000, 500_000, Shape::Equal);
    }
    if frequency <= 79_999 {
        return row_of(79_999, 2_000_000, 128, 2_000_000, 500_000, Shape::Equal);
    }
    if frequency <= 100_000 {
        return row_of(100_000, 2_000_000, 64, 2_000_000, 500_000, Shape::Equal);
    }
    if frequency <= 400_000 {
        return row_of(400_000, 8_000_000, 96, 3_000_000, 1_000_000, Shape::Double);
    }
    row_of(
        4_294_967_295,
        17_000_000,
        96,
        8_000_000,
        4_000_000,
        Shape::Double,
    )
}

// What is refused before any row, then the row that was found.
#[tactic(auto, unfolding(crate::specs::Bands::by_found))]
fn by_found(clock: u32, frequency: u32, found: Option<Band>) -> Result<I2cTiming, TimingRefusal>
    requires { SoundIn found }
    ensures { result ≡ by_found clock frequency found }
{
    if frequency == 0 {
        return Err(TimingRefusal::NoSpeed);
    }
    if clock > 250_000_000 {
        return Err(TimingRefusal::ClockOver);
    }
    by_row(clock, frequency, found.ok_or(TimingRefusal::NoBand)?)
}

// The timing of a bus at `frequency` from a kernel clock of `clock`, both in hertz, by document 01's bands.
pub fn calc_timing_params(clock: u32, frequency: u32) -> Result<I2cTiming, TimingRefusal>
    ensures { result ≡ timing_of clock frequency }
{
    by_found(clock, frequency, Some(band_of(frequency)))
}

// By hand: a table has its shape as a word.
fn shape_of(n: u32) -> Shape
    ensures { result ≡ shape_of n }
{
    if n == 0 { Shape::Equal } else { Shape::Double }
}

// The row that bytes begin with.
fn first(rows: &[u8]) -> Band
    ensures { result ≡ band_in rows.now }
{
    row_of(
        words::get(rows, 0),
        words::get(rows, 1),
        words::get(rows, 2),
        words::get(rows, 3),
        words::get(rows, 4),
        shape_of(words::get(rows, 5)),
    )
}

fn is_sound(b: Band) -> bool
    ensures { result ≡ sound b }
{
    (8..=256).contains(&b.d) && b.sdadel >= 1 && b.scldel >= 1
}

// Whether the row that bytes begin with names a shape and is sound.
fn stands(rows: &[u8]) -> bool
    ensures { result ≡ row_stands rows.now }
{
    words::get(rows, 5) <= 1 && is_sound(first(rows))
}

// Whether rows may follow one with the upper frequency `last`.
#[tactic(auto, using(crate::proofs::Tables::rows))]
fn stand_above(mut last: u32, rows: &[u8]) -> bool
    ensures { result ≡ rows_stand last (length rows.now / 24) rows.now }
{
    // By hand: `chunks_exact` takes the remainder of the length first, a division that the chip does without.
    let mut rest = rows;
    while let Some(after) = rest.get(ROW..) {
        let upper = words::get(rest, 0);
        if !stands(rest) || upper <= last {
            return false;
        }
        last = upper;
        rest = after;
    }
    true
}

// The first row has none before it.
#[tactic(auto, using(crate::proofs::Tables::tables))]
fn is_accepted(table: &[u8]) -> bool
    ensures { result ≡ accepted (bands_in table.now) }
{
    let n = table.len();
    if n < ROW || n > TABLE || n % ROW != 0 || !stands(table) {
        return false;
    }
    stand_above(words::get(table, 0), &table[ROW..])
}

// The first row that the frequency does not exceed.
#[tactic(auto, using(crate::proofs::Tables::finds))]
fn find(frequency: u32, table: &[u8]) -> Option<Band>
    ensures { result ≡ band_for frequency (bands_from (length table.now / 24) table.now) }
{
    // By hand: `chunks_exact` takes the remainder of the length first, a division that the chip does without.
    let mut rest = table;
    while let Some(after) = rest.get(ROW..) {
        let b = first(rest);
        if frequency <= b.upper {
            return Some(b);
        }
        rest = after;
    }
    None
}

// Looks at a table of speed bands: bytes, 24 to a row, which are six little-endian words. They are the row's upper frequency, least clock,
// d, the divisors of SDADEL and SCLDEL, and 0 for an equal or 1 for a double row.
#[tactic(auto, unfolding(crate::specs::Bands::loaded_of))]
pub fn load(table: &[u8]) -> Result<(), TimingRefusal>
    ensures { result ≡ loaded_of (bands_in table.now) }
{
    if is_accepted(table) {
        Ok(())
    } else {
        Err(TimingRefusal::BadBands)
    }
}

// The timing of a bus at `frequency` from a kernel clock of `clock`, both in hertz, by a table. The table is looked at whole, every time.
#[tactic(auto, using(crate::proofs::Tables::bad_bands))]
pub fn timing_by(table: &[u8], clock: u32, frequency: u32) -> Result<I2cTiming, TimingRefusal>
    ensures { result ≡ timing_by (bands_in table.now) clock frequency }
{
    load(table)?;
    by_found(clock, frequency, find(frequency, table))
}
