// The nine I2C registers of RM0492: a type for each around its word, with its offset, its reset value, and the fields that
// the driver reads and writes. A getter reads a field of the word, a setter gives the word with the field replaced.
// By hand: each getter and setter has its field's name and place from RM0492, and one that takes both says neither.
#![tactic(auto)]

ghost use Rattle.std.specs.Prelude.{◌≡◌};
ghost use Rattle.fields.specs.Field.{get_of, put_of, flag_of, mark_of};
ghost use Rattle.registers.specs.Map.{offset_of, reset_of};
ghost use Rattle.registers.specs.Addresses.{seven_bit_own, ten_bit_own, secondary, masked};
ghost use Rattle.registers.specs.Places.{CR1_GCEN, CR1_SBC, CR1_ANFOFF, CR1_PE, CR2_AUTOEND, CR2_RELOAD, CR2_NBYTES, CR2_NACK, CR2_START, CR2_HEAD10R, CR2_ADD10, CR2_RD_WRN, CR2_SADD, OAR1_OA1EN, OAR1_OA1MODE, OAR1_OA1, OAR2_OA2EN, OAR2_OA2MSK, OAR2_OA2, TIMINGR_PRESC, TIMINGR_SCLDEL, TIMINGR_SDADEL, TIMINGR_SCLH, TIMINGR_SCLL, ISR_ADDCODE, ISR_DIR, ISR_ARLO, ISR_BERR, ISR_TCR, ISR_TC, ISR_STOPF, ISR_NACKF, ISR_ADDR, ISR_RXNE, ISR_TXIS, ISR_TXE, ICR_ARLOCF, ICR_BERRCF, ICR_STOPCF, ICR_NACKCF, ICR_ADDRCF, RXDR_RXDATA, TXDR_TXDATA};

// Which register an access goes to.
#[derive(Clone, Copy, Debug, PartialEq, Eq)]
pub enum Register {
    Cr1,
    Cr2,
    Oar1,
    Oar2,
    Timingr,
    Isr,
    Icr,
    Rxdr,
    Txdr,
}

// By hand: offset and reset value are constants of the types, which a value cannot choose but by a match.
impl Register {
    pub fn offset(self) -> u32
        ensures { result ≡ offset_of self }
    {
        match self {
            Register::Cr1 => Cr1::OFFSET,
            Register::Cr2 => Cr2::OFFSET,
            Register::Oar1 => Oar1::OFFSET,
            Register::Oar2 => Oar2::OFFSET,
            Register::Timingr => Timingr::OFFSET,
            Register::Isr => Isr::OFFSET,
            Register::Icr => Icr::OFFSET,
            Register::Rxdr => Rxdr::OFFSET,
            Register::Txdr => Txdr::OFFSET,
        }
    }

    // What a plain write starts from.
    pub fn reset(self) -> u32
        ensures { result ≡ reset_of self }
    {
        match self {
            Register::Cr1 => Cr1::RESET,
            Register::Cr2 => Cr2::RESET,
            Register::Oar1 => Oar1::RESET,
            Register::Oar2 => Oar2::RESET,
            Register::Timingr => Timingr::RESET,
            Register::Isr => Isr::RESET,
            Register::Icr => Icr::RESET,
            Register::Rxdr => Rxdr::RESET,
            Register::Txdr => Txdr::RESET,
        }
    }
}

// Control register 1.
#[derive(Clone, Copy, Debug, PartialEq, Eq)]
pub struct Cr1(pub u32);

impl Cr1 {
    pub const OFFSET: u32 = 0x00;

    pub const RESET: u32 = 0;

    pub fn with_gcen(self, on: bool) -> Cr1
        ensures { result.0 ≡ mark_of self.0 CR1_GCEN on }
    {
        Cr1(fields::mark(self.0, 19, on))
    }

    pub fn with_sbc(self, on: bool) -> Cr1
        ensures { result.0 ≡ mark_of self.0 CR1_SBC on }
    {
        Cr1(fields::mark(self.0, 16, on))
    }

    // 1 turns the analog noise filter off.
    pub fn with_anfoff(self, on: bool) -> Cr1
        ensures { result.0 ≡ mark_of self.0 CR1_ANFOFF on }
    {
        Cr1(fields::mark(self.0, 12, on))
    }

    pub fn pe(self) -> bool
        ensures { result ≡ flag_of self.0 CR1_PE }
    {
        fields::flag(self.0, 0)
    }

    pub fn with_pe(self, on: bool) -> Cr1
        ensures { result.0 ≡ mark_of self.0 CR1_PE on }
    {
        Cr1(fields::mark(self.0, 0, on))
    }
}

// Control register 2.
#[derive(Clone, Copy, Debug, PartialEq, Eq)]
pub struct Cr2(pub u32);

impl Cr2 {
    pub const OFFSET: u32 = 0x04;

    pub const RESET: u32 = 0;

    pub fn with_autoend(self, on: bool) -> Cr2
        ensures { result.0 ≡ mark_of self.0 CR2_AUTOEND on }
    {
        Cr2(fields::mark(self.0, 25, on))
    }

    pub fn with_reload(self, on: bool) -> Cr2
        ensures { result.0 ≡ mark_of self.0 CR2_RELOAD on }
    {
        Cr2(fields::mark(self.0, 24, on))
    }

    pub fn with_nbytes(self, value: u32) -> Cr2
        ensures { result.0 ≡ put_of self.0 CR2_NBYTES value }
    {
        Cr2(fields::put(self.0, 16, 8, value))
    }

    pub fn with_nack(self, on: bool) -> Cr2
        ensures { result.0 ≡ mark_of self.0 CR2_NACK on }
    {
        Cr2(fields::mark(self.0, 15, on))
    }

    pub fn start(self) -> bool
        ensures { result ≡ flag_of self.0 CR2_START }
    {
        fields::flag(self.0, 13)
    }

    pub fn with_start(self, on: bool) -> Cr2
        ensures { result.0 ≡ mark_of self.0 CR2_START on }
    {
        Cr2(fields::mark(self.0, 13, on))
    }

    // 1 sends only the header of a ten-bit address, for a read after a repeated start.
    pub fn with_head10r(self, on: bool) -> Cr2
        ensures { result.0 ≡ mark_of self.0 CR2_HEAD10R on }
    {
        Cr2(fields::mark(self.0, 12, on))
    }

    pub fn with_add10(self, on: bool) -> Cr2
        ensures { result.0 ≡ mark_of self.0 CR2_ADD10 on }
    {
        Cr2(fields::mark(self.0, 11, on))
    }

    pub fn with_rd_wrn(self, on: bool) -> Cr2
        ensures { result.0 ≡ mark_of self.0 CR2_RD_WRN on }
    {
        Cr2(fields::mark(self.0, 10, on))
    }

    // Ten bits; an address of seven bits stands in bits 1 to 7.
    pub fn with_sadd(self, value: u32) -> Cr2
        ensures { result.0 ≡ put_of self.0 CR2_SADD value }
    {
        Cr2(fields::put(self.0, 0, 10, value))
    }
}

// Own address register 1: the primary address of a target.
#[derive(Clone, Copy, Debug, PartialEq, Eq)]
pub struct Oar1(pub u32);

impl Oar1 {
    pub const OFFSET: u32 = 0x08;

    pub const RESET: u32 = 0;

    pub fn seven_bit(own: u32) -> Oar1
        ensures { result.0 ≡ seven_bit_own own }
    {
        Oar1(Oar1::RESET).with_oa1(own << 1)
    }

    pub fn ten_bit(own: u32) -> Oar1
        ensures { result.0 ≡ ten_bit_own own }
    {
        Oar1(Oar1::RESET).with_oa1(own).with_oa1mode(true)
    }

    pub fn with_oa1en(self, on: bool) -> Oar1
        ensures { result.0 ≡ mark_of self.0 OAR1_OA1EN on }
    {
        Oar1(fields::mark(self.0, 15, on))
    }

    pub fn oa1mode(self) -> bool
        ensures { result ≡ flag_of self.0 OAR1_OA1MODE }
    {
        fields::flag(self.0, 10)
    }

    pub fn with_oa1mode(self, on: bool) -> Oar1
        ensures { result.0 ≡ mark_of self.0 OAR1_OA1MODE on }
    {
        Oar1(fields::mark(self.0, 10, on))
    }

    pub fn oa1(self) -> u32
        ensures { result ≡ get_of self.0 OAR1_OA1 }
    {
        fields::get(self.0, 0, 10)
    }

    pub fn with_oa1(self, value: u32) -> Oar1
        ensures { result.0 ≡ put_of self.0 OAR1_OA1 value }
    {
        Oar1(fields::put(self.0, 0, 10, value))
    }
}

// Own address register 2: the secondary address of a target, seven bits, and its mask.
#[derive(Clone, Copy, Debug, PartialEq, Eq)]
pub struct Oar2(pub u32);

impl Oar2 {
    pub const OFFSET: u32 = 0x0C;

    pub const RESET: u32 = 0;

    pub fn secondary(address: u32) -> Oar2
        ensures { result.0 ≡ secondary address }
    {
        Oar2(Oar2::RESET).with_oa2(address)
    }

    // `bits` low bits of the address are not compared.
    pub fn masked(address: u32, bits: u32) -> Oar2
        ensures { result.0 ≡ masked address bits }
    {
        Oar2::secondary(address).with_oa2msk(bits % 8 + 1)
    }

    pub fn with_oa2en(self, on: bool) -> Oar2
        ensures { result.0 ≡ mark_of self.0 OAR2_OA2EN on }
    {
        Oar2(fields::mark(self.0, 15, on))
    }

    pub fn with_oa2msk(self, value: u32) -> Oar2
        ensures { result.0 ≡ put_of self.0 OAR2_OA2MSK value }
    {
        Oar2(fields::put(self.0, 8, 3, value))
    }

    // Seven bits from bit 1 on, so an address goes in unshifted.
    pub fn with_oa2(self, value: u32) -> Oar2
        ensures { result.0 ≡ put_of self.0 OAR2_OA2 value }
    {
        Oar2(fields::put(self.0, 1, 7, value))
    }
}

// Timing register.
#[derive(Clone, Copy, Debug, PartialEq, Eq)]
pub struct Timingr(pub u32);

impl Timingr {
    pub const OFFSET: u32 = 0x10;

    pub const RESET: u32 = 0;

    pub fn presc(self) -> u8
        ensures { result ≡ get_of self.0 TIMINGR_PRESC }
    {
        fields::get_u8(self.0, 28, 4)
    }

    pub fn with_presc(self, value: u32) -> Timingr
        ensures { result.0 ≡ put_of self.0 TIMINGR_PRESC value }
    {
        Timingr(fields::put(self.0, 28, 4, value))
    }

    pub fn scldel(self) -> u8
        ensures { result ≡ get_of self.0 TIMINGR_SCLDEL }
    {
        fields::get_u8(self.0, 20, 4)
    }

    pub fn with_scldel(self, value: u32) -> Timingr
        ensures { result.0 ≡ put_of self.0 TIMINGR_SCLDEL value }
    {
        Timingr(fields::put(self.0, 20, 4, value))
    }

    pub fn sdadel(self) -> u8
        ensures { result ≡ get_of self.0 TIMINGR_SDADEL }
    {
        fields::get_u8(self.0, 16, 4)
    }

    pub fn with_sdadel(self, value: u32) -> Timingr
        ensures { result.0 ≡ put_of self.0 TIMINGR_SDADEL value }
    {
        Timingr(fields::put(self.0, 16, 4, value))
    }

    pub fn sclh(self) -> u8
        ensures { result ≡ get_of self.0 TIMINGR_SCLH }
    {
        fields::get_u8(self.0, 8, 8)
    }

    pub fn with_sclh(self, value: u32) -> Timingr
        ensures { result.0 ≡ put_of self.0 TIMINGR_SCLH value }
    {
        Timingr(fields::put(self.0, 8, 8, value))
    }

    pub fn scll(self) -> u8
        ensures { result ≡ get_of self.0 TIMINGR_SCLL }
    {
        fields::get_u8(self.0, 0, 8)
    }

    pub fn with_scll(self, value: u32) -> Timingr
        ensures { result.0 ≡ put_of self.0 TIMINGR_SCLL value }
    {
        Timingr(fields::put(self.0, 0, 8, value))
    }
}

// Interrupt and status register. Writing TXE 1 empties the transmit register.
#[derive(Clone, Copy, Debug, PartialEq, Eq)]
pub struct Isr(pub u32);

impl Isr {
    pub const OFFSET: u32 = 0x18;

    pub const RESET: u32 = 1;

    pub fn addcode(self) -> u32
        ensures { result ≡ get_of self.0 ISR_ADDCODE }
    {
        fields::get(self.0, 17, 7)
    }

    // 1: the controller reads, so the target transmits.
    pub fn dir(self) -> bool
        ensures { result ≡ flag_of self.0 ISR_DIR }
    {
        fields::flag(self.0, 16)
    }

    pub fn arlo(self) -> bool
        ensures { result ≡ flag_of self.0 ISR_ARLO }
    {
        fields::flag(self.0, 9)
    }

    pub fn berr(self) -> bool
        ensures { result ≡ flag_of self.0 ISR_BERR }
    {
        fields::flag(self.0, 8)
    }

    pub fn tcr(self) -> bool
        ensures { result ≡ flag_of self.0 ISR_TCR }
    {
        fields::flag(self.0, 7)
    }

    pub fn tc(self) -> bool
        ensures { result ≡ flag_of self.0 ISR_TC }
    {
        fields::flag(self.0, 6)
    }

    pub fn stopf(self) -> bool
        ensures { result ≡ flag_of self.0 ISR_STOPF }
    {
        fields::flag(self.0, 5)
    }

    pub fn nackf(self) -> bool
        ensures { result ≡ flag_of self.0 ISR_NACKF }
    {
        fields::flag(self.0, 4)
    }

    pub fn addr(self) -> bool
        ensures { result ≡ flag_of self.0 ISR_ADDR }
    {
        fields::flag(self.0, 3)
    }

    pub fn rxne(self) -> bool
        ensures { result ≡ flag_of self.0 ISR_RXNE }
    {
        fields::flag(self.0, 2)
    }

    // 1: TXDR asks for a byte.
    pub fn txis(self) -> bool
        ensures { result ≡ flag_of self.0 ISR_TXIS }
    {
        fields::flag(self.0, 1)
    }

    // 1: TXDR is empty.
    pub fn txe(self) -> bool
        ensures { result ≡ flag_of self.0 ISR_TXE }
    {
        fields::flag(self.0, 0)
    }

    pub fn with_txe(self, on: bool) -> Isr
        ensures { result.0 ≡ mark_of self.0 ISR_TXE on }
    {
        Isr(fields::mark(self.0, 0, on))
    }
}

// Interrupt clear register: writing 1 clears the flag of the same place in ISR.
#[derive(Clone, Copy, Debug, PartialEq, Eq)]
pub struct Icr(pub u32);

impl Icr {
    pub const OFFSET: u32 = 0x1C;

    pub const RESET: u32 = 0;

    pub fn with_arlocf(self, on: bool) -> Icr
        ensures { result.0 ≡ mark_of self.0 ICR_ARLOCF on }
    {
        Icr(fields::mark(self.0, 9, on))
    }

    pub fn with_berrcf(self, on: bool) -> Icr
        ensures { result.0 ≡ mark_of self.0 ICR_BERRCF on }
    {
        Icr(fields::mark(self.0, 8, on))
    }

    pub fn with_stopcf(self, on: bool) -> Icr
        ensures { result.0 ≡ mark_of self.0 ICR_STOPCF on }
    {
        Icr(fields::mark(self.0, 5, on))
    }

    pub fn with_nackcf(self, on: bool) -> Icr
        ensures { result.0 ≡ mark_of self.0 ICR_NACKCF on }
    {
        Icr(fields::mark(self.0, 4, on))
    }

    pub fn with_addrcf(self, on: bool) -> Icr
        ensures { result.0 ≡ mark_of self.0 ICR_ADDRCF on }
    {
        Icr(fields::mark(self.0, 3, on))
    }
}

// Receive data register.
#[derive(Clone, Copy, Debug, PartialEq, Eq)]
pub struct Rxdr(pub u32);

impl Rxdr {
    pub const OFFSET: u32 = 0x24;

    pub const RESET: u32 = 0;

    pub fn rxdata(self) -> u8
        ensures { result ≡ get_of self.0 RXDR_RXDATA }
    {
        fields::get_u8(self.0, 0, 8)
    }
}

// Transmit data register.
#[derive(Clone, Copy, Debug, PartialEq, Eq)]
pub struct Txdr(pub u32);

impl Txdr {
    pub const OFFSET: u32 = 0x28;

    pub const RESET: u32 = 0;

    pub fn with_txdata(self, value: u32) -> Txdr
        ensures { result.0 ≡ put_of self.0 TXDR_TXDATA value }
    {
        Txdr(fields::put(self.0, 0, 8, value))
    }
}
