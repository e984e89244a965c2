// The bench: a file of calls in, the text of what comes of them out. `text` equals the definition in specs/Text.antt.
#![tactic(auto)]

ghost use Rattle.std.specs.Prelude.{◌≡◌};
ghost use Rattle.window.specs.Window.{as_shown, window_of};
ghost use Rattle.bench.specs.Text.{file_text, EveryWhole};

use lines::Form;
use window::Cursor;

mod call;
mod file;

// Fills `out` with the text of a file from its byte `from` on, with the logs in the form asked for, and says how many bytes that gives: fewer
// than there is room for at the text's end. Each run that the text shows is the whole uncut run, however many advances it took.
pub fn text(file: &[u8], form: Form, from: usize, out: &mut [u8]) -> usize
    ensures out_after { as_shown result out.new ≡ window_of from (file_text form file.now) out.old }
    ensures every_whole { EveryWhole file.now }
{
    file::put_file(Cursor::new(from), form, file, out).at
}
