// The timing by the bands of a file, which is read whole.
use crate::{rows, show};
use std::io;
use std::rt::HostRuntime;

// The longest text, and a byte more, by which a longer one is found out.
const TEXT: usize = 65_536;

const ROOM: usize = TEXT + 1;

// A file that cannot be read is said on standard error and has no answer.
pub fn answer(rt: &HostRuntime, path: &[u8], clock: u32, frequency: u32) -> io::Result<()> {
    // By hand: fixed memory, as the longest text takes.
    let mut room = [0u8; ROOM];
    let Some(text) = input::read_file(rt, path, &mut room) else {
        return Ok(());
    };
    if text.len() > TEXT {
        input::say(rt, path, "longer than 65,536 bytes");
        return Ok(());
    }
    let table = rows::read(rt, path, text);
    let timed = bands::timing_by(table.as_slice(), clock, frequency);
    show::answer(rt, clock, frequency, timed)
}
