// The text of a file: of its calls in turn, or that it is none.
ghost use Rattle.std.specs.Prelude.{◌≡◌};
ghost use Rattle.window.specs.Window.{laid, emit_of};
ghost use Rattle.bench.specs.Text.{row_text, calls_text, table_text, words_text, file_text};

use crate::call::put_call;
use benchfile::{after, body_size, first, word};
use lines::Form;
use window::Cursor;

// How many words a file may have at most.
const WORDS: usize = 16384;

// The call of a table's first row, its body first in `bodies`.
// By hand: place, form and window go side by side, as in `window::Cursor`.
fn put_row(p: Cursor, form: Form, rows: &[u32], bodies: &[u32], out: &mut [u8]) -> Cursor
    ensures { laid result out.new ≡ emit_of (row_text form rows.now bodies.now) (laid p out.old) }
{
    let n = word(rows, 0);
    let a = word(rows, 1);
    let head = word(rows, 2) as usize;
    let answers = word(rows, 3) as usize;
    put_call(
        p,
        form,
        n,
        a,
        first(bodies, head),
        first(after(bodies, head), answers),
        out,
    )
}

// By hand: a table that is cut short is read on as zeros, which chunks of it would leave out.
#[tactic(auto, using(crate::proofs::Texts::calls))]
fn put_calls(p: Cursor, form: Form, n: u32, rows: &[u32], bodies: &[u32], out: &mut [u8]) -> Cursor
    ensures { laid result out.new ≡ emit_of (calls_text form n rows.now bodies.now) (laid p out.old) }
{
    let mut q = p;
    let mut table = rows;
    let mut rest = bodies;
    for _ in 0..n {
        q = put_row(q, form, table, rest, out);
        rest = after(rest, body_size(table));
        table = after(table, 4);
    }
    q
}

fn put_table(p: Cursor, form: Form, n: u32, words: &[u32], out: &mut [u8]) -> Cursor
    ensures { laid result out.new ≡ emit_of (table_text form n words.now) (laid p out.old) }
{
    put_calls(p, form, n, words, after(words, 4 * n as usize), out)
}

fn put_words(p: Cursor, form: Form, words: &[u32], out: &mut [u8]) -> Cursor
    ensures { laid result out.new ≡ emit_of (words_text form words.now) (laid p out.old) }
{
    if benchfile::is_wrong(words) {
        return lines::put_refusal(p, out);
    }
    put_table(p, form, word(words, 0), after(words, 1), out)
}

// By hand: fixed memory.
pub fn put_file(p: Cursor, form: Form, file: &[u8], out: &mut [u8]) -> Cursor
    ensures { laid result out.new ≡ emit_of (file_text form file.now) (laid p out.old) }
{
    if benchfile::is_size_wrong(file.len()) {
        return lines::put_refusal(p, out);
    }
    let mut words = [0; WORDS];
    let n = words::decode(file, &mut words);
    put_words(p, form, &words[..n], out)
}
