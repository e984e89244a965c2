// The fields of each register, from the top bit down.
ghost use Rattle.std.specs.Prelude.{◌≡◌, ◌≤◌};
ghost use Rattle.page.specs.Put.{as_put, labelled, number_in, fields_in, labels_of, field_put, fields_put};

use crate::line::Line;
use registers::Register;

// The number that a text begins with, 0 where it begins with none.
fn number(s: &[u8]) -> u32
    ensures { result ≡ number_in s.now }
{
    numerals::parse(numerals::word(s)).unwrap_or(0)
}

// A field by its lowest bit, its width and its label.
fn put_field(l: Line, value: u32, at: u32, width: u32, label: &[u8], out: &mut [u8]) -> Line
    ensures { as_put result out.new ≡ field_put value (labelled at width label.now) (as_put l out.old) }
{
    if 32 <= at || 32 <= width || 20 < label.len() {
        return l;
    }
    if width == 1 {
        l.put_flag(value, at, label, out)
    } else {
        l.put_number(value, at, width, label, out)
    }
}

// The n fields that `layout` tells, and the bits below the last.
// By hand: each turn takes three words off the text, the last of them with what follows it. The count stands beside the text, since the
// definition takes that many fields, whatever follows.
fn put_fields(l: Line, value: u32, n: u32, layout: &[u8], out: &mut [u8]) -> Line
    ensures { as_put result out.new ≡ fields_put value (fields_in n layout.now) (as_put l out.old) }
{
    let mut line = l;
    let mut rest = layout;
    for _ in 0..n {
        let widths = numerals::after_word(rest);
        let labels = numerals::after_word(widths);
        line = put_field(
            line,
            value,
            number(rest),
            number(widths),
            numerals::word(labels),
            out,
        );
        rest = numerals::after_word(labels);
    }
    line.put_bits(value, 0, out)
}

// How many fields a register has, and each by its lowest bit, its width and its label, which ends in `=` where a number follows.
// By hand: an arm for each register, as RM0492 has them.
fn layout(r: Register) -> (u32, &'static [u8])
    ensures { fields_in result.0 result.1.now ≡ labels_of r }
{
    match r {
        Register::Cr1 => (
            23,
            b"31 1 STOPFACLR 30 1 ADDRACLR 24 1 FMP 23 1 PECEN 22 1 ALERTEN 21 1 SMBDEN 20 1 SMBHEN 19 1 GCEN 18 1 WUPEN 17 1 NOSTRETCH 16 1 SBC 15 1 RXDMAEN 14 1 TXDMAEN 12 1 ANFOFF 8 4 DNF= 7 1 ERRIE 6 1 TCIE 5 1 STOPIE 4 1 NACKIE 3 1 ADDRIE 2 1 RXIE 1 1 TXIE 0 1 PE",
        ),
        Register::Cr2 => (
            11,
            b"26 1 PECBYTE 25 1 AUTOEND 24 1 RELOAD 16 8 NBYTES= 15 1 NACK 14 1 STOP 13 1 START 12 1 HEAD10R 11 1 ADD10 10 1 RD_WRN 0 10 SADD=",
        ),
        Register::Oar1 => (3, b"15 1 OA1EN 10 1 OA1MODE 0 10 OA1="),
        Register::Oar2 => (3, b"15 1 OA2EN 8 3 OA2MSK= 1 7 OA2="),
        Register::Timingr => (
            5,
            b"28 4 PRESC= 20 4 SCLDEL= 16 4 SDADEL= 8 8 SCLH= 0 8 SCLL=",
        ),
        Register::Isr => (
            17,
            b"17 7 ADDCODE= 16 1 DIR 15 1 BUSY 13 1 ALERT 12 1 TIMEOUT 11 1 PECERR 10 1 OVR 9 1 ARLO 8 1 BERR 7 1 TCR 6 1 TC 5 1 STOPF 4 1 NACKF 3 1 ADDR 2 1 RXNE 1 1 TXIS 0 1 TXE",
        ),
        Register::Icr => (
            9,
            b"13 1 ALERTCF 12 1 TIMOUTCF 11 1 PECCF 10 1 OVRCF 9 1 ARLOCF 8 1 BERRCF 5 1 STOPCF 4 1 NACKCF 3 1 ADDRCF",
        ),
        Register::Rxdr => (1, b"0 8 RXDATA="),
        Register::Txdr => (1, b"0 8 TXDATA="),
    }
}

// The fields of a register, from its top bit down.
pub fn put_register(l: Line, r: Register, value: u32, out: &mut [u8]) -> Line
    ensures { as_put result out.new ≡ fields_put value (labels_of r) (as_put l out.old) }
{
    let (n, fields) = layout(r);
    put_fields(l, value, n, fields, out)
}
