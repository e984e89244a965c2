// The lines of one entry.
ghost use Rattle.std.specs.Prelude.{◌≡◌, ◌++◌, ◌≤◌, length};
ghost use Rattle.numerals.specs.Numbers.{spelled_of, hex_of};
ghost use Rattle.page.specs.Page.{access_of, spaces, filled, head_of, register_lines, access_lines, entry_lines, text_of};
ghost use Rattle.page.specs.Put.{done_of, name_of};
ghost use Rattle.window.specs.Window.{laid, emit_of};

use crate::Access;
use crate::line::Line;
use crate::names::put_register;
use registers::Register;
use window::Cursor;

// A code is a register's offset, plus 0x100 for a write.
// By hand: one look at the code, where a search by `Register::offset` would be one at each register. It is no
// `TryFrom`, as any other code is no mistake here.
#[tactic(auto, unfolding(crate::specs::Page::access_of))]
pub fn decoded(code: u32) -> Option<Access>
    ensures { result ≡ access_of code }
{
    let access = match code {
        0x000 => Access::Read(Register::Cr1),
        0x004 => Access::Read(Register::Cr2),
        0x008 => Access::Read(Register::Oar1),
        0x00C => Access::Read(Register::Oar2),
        0x010 => Access::Read(Register::Timingr),
        0x018 => Access::Read(Register::Isr),
        0x01C => Access::Read(Register::Icr),
        0x024 => Access::Read(Register::Rxdr),
        0x028 => Access::Read(Register::Txdr),
        0x100 => Access::Write(Register::Cr1),
        0x104 => Access::Write(Register::Cr2),
        0x108 => Access::Write(Register::Oar1),
        0x10C => Access::Write(Register::Oar2),
        0x110 => Access::Write(Register::Timingr),
        0x118 => Access::Write(Register::Isr),
        0x11C => Access::Write(Register::Icr),
        0x124 => Access::Write(Register::Rxdr),
        0x128 => Access::Write(Register::Txdr),
        _ => return None,
    };
    Some(access)
}

// The entry's number, from column 1 on.
fn put_number(p: Cursor, n: u32, out: &mut [u8]) -> Cursor
    ensures { laid result out.new ≡ emit_of (spelled_of 10 6 n ++ spaces 1) (laid p out.old) }
{
    let digits = numerals::last_six(n);
    let p = window::put_all(p, &digits, out);
    window::put_repeated(p, b' ', 1, out)
}

// What was done, and a space.
// By hand: `Display` promises its bytes for a `String` alone, and fixed memory has none.
fn done(write: bool) -> &'static [u8]
    ensures { result.now ≡ filled 5 (done_of write) ++ spaces 1 }
{
    if write { b"write " } else { b"read  " }
}

// The register, and a space.
fn name(r: Register) -> &'static [u8]
    ensures { result.now ≡ name_of r }
{
    match r {
        Register::Cr1 => b"CR1     ",
        Register::Cr2 => b"CR2     ",
        Register::Oar1 => b"OAR1    ",
        Register::Oar2 => b"OAR2    ",
        Register::Timingr => b"TIMINGR ",
        Register::Isr => b"ISR     ",
        Register::Icr => b"ICR     ",
        Register::Rxdr => b"RXDR    ",
        Register::Txdr => b"TXDR    ",
    }
}

// By hand: number, what was done, register and value go side by side to where each is put; nothing else is asked of all four. The
// definition tells a read from a write by a bool, too (`done_of`).

// The columns 1 to 29: what was done from column 8 on, the register from column 14 on.
fn put_head(p: Cursor, n: u32, write: bool, r: Register, value: u32, out: &mut [u8]) -> Cursor
    ensures { laid result out.new ≡ emit_of (head_of n (done_of write) r value) (laid p out.old) }
{
    let p = put_number(p, n, out);
    let p = window::put_all(p, done(write), out);
    let p = window::put_all(p, name(r), out);
    window::put_all(p, &numerals::hex(value), out)
}

fn put_lines(p: Cursor, n: u32, write: bool, r: Register, value: u32, out: &mut [u8]) -> Cursor
    ensures { laid result out.new ≡ emit_of (text_of (register_lines n (done_of write) r value)) (laid p out.old) }
{
    let line = Line {
        place: put_head(p, n, write, r, value, out),
        column: 29,
        top: 32,
    };
    put_register(line, r, value, out).end(out)
}

fn put_access(p: Cursor, n: u32, a: Option<Access>, value: u32, out: &mut [u8]) -> Cursor
    ensures { laid result out.new ≡ emit_of (text_of (access_lines n a value)) (laid p out.old) }
{
    match a {
        Some(Access::Read(r)) => put_lines(p, n, false, r, value, out),
        Some(Access::Write(r)) => put_lines(p, n, true, r, value, out),
        None => p,
    }
}

// Entry n. This is the one walk over an entry: its size is found by it too.
pub fn put_entry(p: Cursor, n: u32, code: u32, value: u32, out: &mut [u8]) -> Cursor
    ensures { laid result out.new ≡ emit_of (text_of (entry_lines n code value)) (laid p out.old) }
{
    put_access(p, n, decoded(code), value, out)
}

// How many bytes the lines of an entry have: they are put before a window that they do not reach.
// By hand: fixed memory, which no byte reaches.
pub fn size(n: u32, code: u32, value: u32) -> usize
    ensures value { result ≡ length (text_of (entry_lines n code value)) }
    ensures upper_bound { result ≤ 405 }
{
    let mut nowhere = [0u8; 1];
    let p = put_entry(Cursor::new(405), n, code, value, &mut nowhere);
    405 - p.skip
}
