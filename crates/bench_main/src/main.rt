// Prints the text of bench files: of each that an argument names or, without one, of standard input. With `--page` as the first argument
// the accesses of each call stand as a service page.
#![tactic(auto)]

use input::Work;
use lines::Form;
use std::io::Print;
use std::rt::HostRuntime;

// A byte more than a bench file may have, by which a longer one is found out.
const FILE: usize = 65_537;

// What is printed at a time. The text is laid out anew for each window, so they are large and few.
const WINDOW: usize = 1_048_576;

// By hand: the array goes by its type, as the check does not show at a call how long it is.
fn window<'a>(file: &[u8], form: Form, from: usize, out: &'a mut [u8; WINDOW]) -> &'a [u8] {
    let n = bench::text(file, form, from, out);
    &out[..n.min(WINDOW)]
}

// The windows of a text in turn, until one has room to spare or cannot be written. The loop is bounded, as a loop has to be:
// no text has that many.
// By hand: fixed memory, and a window is found by its number.
fn print(rt: &HostRuntime, file: &[u8], form: Form) {
    let mut out = [0u8; WINDOW];
    for turn in 0..u32::MAX {
        let text = window(file, form, turn as usize * WINDOW, &mut out);
        if rt.write_all(text).is_err() || text.len() < WINDOW {
            return;
        }
    }
}

// The text of a file, in a form, is printed.
#[derive(Drop)]
struct Text(Form);

impl Work for Text {
    fn on(&mut self, rt: &HostRuntime, _name: &[u8], file: &[u8]) {
        print(rt, file, self.0);
    }
}

fn main(rt: HostRuntime) {
    let option = input::arg(&rt, 1).unwrap_or_default();
    let (form, first) = if option.as_slice() == b"--page".as_slice() {
        (Form::Page, 2)
    } else {
        (Form::Lines, 1)
    };
    // By hand: fixed memory, for one file after the other.
    let mut room = [0u8; FILE];
    input::each(&rt, first, &mut room, &mut Text(form));
}
