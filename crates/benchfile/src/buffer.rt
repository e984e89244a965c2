// The buffer of a call, laid out and cut to the room that there is.
ghost use Rattle.std.specs.Prelude.{◌≡◌};
ghost use Rattle.window.specs.Window.{as_shown, window_of, laid, emit_of};
ghost use Rattle.benchfile.specs.Calls.{low_bytes, operation_bytes, operations_bytes, after_list, whole_buffer};

use crate::head;
use crate::part::{after, first, word};
use kinds::operation;
use window::Cursor;

#[tactic(auto, using(crate::proofs::Bytes::words_put))]
fn put_bytes(p: Cursor, words: &[u32], out: &mut [u8]) -> Cursor
    ensures { laid result out.new ≡ emit_of (low_bytes words.now) (laid p out.old) }
{
    let mut q = p;
    for &w in words {
        q = window::put(q, (w % 256) as u8, out);
    }
    q
}

// The bytes of an operation: zeros, or the first of those that are written.
#[tactic(auto, using(crate::proofs::Bytes::operation_put))]
fn put_operation(p: Cursor, o: u32, bytes: &[u32], out: &mut [u8]) -> Cursor
    ensures { laid result out.new
        ≡ emit_of (operation_bytes o (low_bytes bytes.now)) (laid p out.old) }
{
    let size = operation::length(o) as usize;
    if operation::is_read(o) {
        return window::put_repeated(p, 0, size, out);
    }
    put_bytes(p, first(bytes, size), out)
}

#[tactic(auto, using(crate::proofs::Bytes::operations_put))]
fn put_operations(p: Cursor, ops: &[u32], bytes: &[u32], out: &mut [u8]) -> Cursor
    ensures { laid result out.new
        ≡ emit_of (operations_bytes ops.now (low_bytes bytes.now)) (laid p out.old) }
{
    let mut q = p;
    let mut rest = bytes;
    for &o in ops {
        q = put_operation(q, o, rest, out);
        rest = after(rest, head::write_size(o));
    }
    q
}

// The words of a transaction's head after its list.
fn after_list(head: &[u32]) -> &[u32]
    ensures { result.now ≡ after_list head.now }
{
    after(after(head, 1), word(head, 0) as usize)
}

#[tactic(auto, using(crate::proofs::Bytes::whole_put))]
fn put_buffer(p: Cursor, n: u32, a: u32, head: &[u32], out: &mut [u8]) -> Cursor
    ensures { laid result out.new
        ≡ emit_of (whole_buffer n a head.now) (laid p out.old) }
{
    match n {
        7 => put_operations(p, head::list(head), after_list(head), out),
        9 | 11 => window::put_repeated(p, 0, a as usize, out),
        10 | 12 => put_bytes(p, head, out),
        _ => p,
    }
}

// Lays out the buffer of a call that is read like n, as far as there is room, and says how many bytes it has.
pub fn lay(n: u32, a: u32, head: &[u32], out: &mut [u8]) -> usize
    ensures { as_shown result out.new ≡ window_of 0 (whole_buffer n a head.now) out.old }
{
    put_buffer(Cursor::new(0), n, a, head, out).at
}
