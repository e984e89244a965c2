// What a step sees of the running piece, from the call, its operation list and the buffer's length. Finding a piece takes a
// number of steps that goes by the operations, whatever their lengths; going on to the next takes constant time.
ghost use Rattle.std.specs.Prelude.{◌≡◌, not, ◌&&◌, ◌+◌, ◌-◌, ◌*◌, ◌/◌, ◌≤◌, min, max, eqb, ltb, length, get_or};
ghost use Rattle.std.specs.Bool.{beq};
ghost use Rattle.calls.specs.Calls.{receives};
ghost use Rattle.calls.specs.Pieces.{transfer_pieces, pieces_for, piece_at, start_from, most_for, view_at};
ghost use Rattle.calls.specs.Refusals.{total};
ghost use Rattle.driver.specs.Views.{word_of, op_at, position_of, position_after, view_from, cursor_by, cursor_at};

use crate::request::Request;
use calls::View;
use kinds::call::{is_manual, is_manual_write, is_receiver, is_transaction, moves_bytes};
use kinds::operation;

// Where a piece of a transaction lies: in which operation, and where in its bytes and in the buffer it begins.
#[derive(Clone, Copy)]
pub struct Position {
    pub operation: u32,
    pub at: u32,
    pub start: u32,
}

// The view of the running piece and, of a transaction, what the next one is found by.
#[derive(Clone, Copy)]
pub struct Cursor {
    pub view: View,
    pub operation: u32,
    pub at: u32,
}

// A word of a list, if it is there.
// By hand: chip/form.awk passes no function that returns an Option of a reference, as `get` does.
pub fn word(words: &[u32], i: usize) -> Option<u32>
    ensures { result ≡ word_of words.now i }
{
    if i < words.len() {
        Some(words[i])
    } else {
        None
    }
}

// An operation's word; past the end of the list it is 0, which is a write of no byte.
fn op_at(ops: &[u32], i: u32) -> u32
    ensures { result ≡ get_or ops.now i 0 }
{
    word(ops, i as usize).unwrap_or(0)
}

// How many pieces an operation of that length has.
// By hand: `div_ceil` takes the remainder too, and the pieces of a long operation would cost more than those of a short one.
fn pieces_in(length: u32) -> u32
    requires { length ≤ 65535 }
    ensures { result ≡ max 1 ((length + 254) / 255) }
{
    if length <= 255 {
        1
    } else {
        (length + 254) / 255
    }
}

// Where piece i of a list lies. Past the last operation each piece has an empty one to itself.
// By hand: here and below each function bounds the piece's number, since the saved call, which C reads, has it in 32 bits; a type for it
// would be made and left again at each.
fn position_at(ops: &[u32], i: u32) -> Position
    requires { (total ops.now ≤ 65535) × (i ≤ 65535) }
    ensures { result ≡ position_of ops.now i }
{
    let mut left = i; // pieces from operation k on
    let mut start: u32 = 0;
    for (k, &o) in ops.iter().enumerate() {
        let length = operation::length(o);
        let pieces = pieces_in(length);
        if left < pieces {
            return Position {
                operation: k as u32,
                at: 255 * left,
                start: start + 255 * left,
            };
        }
        left -= pieces;
        start += length;
    }
    Position {
        operation: ops.len() as u32 + left,
        at: 0,
        start,
    }
}

// The operation before goes the same way; the first has none before it.
fn joined(ops: &[u32], k: u32, reads: bool) -> bool
    ensures { result ≡ (not (eqb k 0) && beq reads (op_at ops.now (k - 1)).reads) }
{
    k > 0 && reads == operation::is_read(op_at(ops, k - 1))
}

// A piece of a transaction, from where it lies.
#[tactic(auto, using(fields::proofs::Laws::get_lt))]
fn list_view(ops: &[u32], position: Position) -> View
    requires { (length ops.now ≤ 64) × (position.operation ≤ 65535) × (position.at ≤ (op_at ops.now position.operation).size) }
    ensures { result ≡ view_from ops.now position }
{
    let k = position.operation;
    let o = op_at(ops, k);
    let length = operation::length(o);
    let more = position.at + 255 < length;
    let reads = operation::is_read(o);
    View {
        start: position.start,
        size: (length - position.at).min(255),
        most: 0,
        reads,
        last: !more & (ops.len() as u32 <= k + 1),
        same: more | (reads == operation::is_read(op_at(ops, k + 1))),
        reload: (position.at > 0) | joined(ops, k, reads),
        nonempty: !ops.is_empty(),
    }
}

// The blocks of a target transfer that has them.
fn block_size(n: u32, i: u32) -> u32
    requires { i ≤ 65535 }
    ensures { result ≡ min 255 (n - 255 * i) }
{
    n.saturating_sub(255 * i).min(255)
}

fn block_start(n: u32, i: u32) -> u32
    requires { i ≤ 65535 }
    ensures { result ≡ min (255 * i) n }
{
    n.min(255 * i)
}

fn list_cursor(ops: &[u32], position: Position) -> Cursor
    requires { (length ops.now ≤ 64) × (position.operation ≤ 65535) × (position.at ≤ (op_at ops.now position.operation).size) }
    ensures { result ≡ cursor_by ops.now position }
{
    Cursor {
        view: list_view(ops, position),
        operation: position.operation,
        at: position.at,
    }
}

// Where the next piece lies: in the same operation, or in the one after it.
fn position_after(ops: &[u32], p: Cursor) -> Position
    requires { (p.view.start + p.view.size ≤ 65535) × (p.operation ≤ 65535) × (p.at ≤ 65535) }
    ensures { result ≡ position_after ops.now p }
{
    let v = p.view;
    let start = v.start + v.size;
    if p.at + 255 < operation::length(op_at(ops, p.operation)) {
        return Position {
            operation: p.operation,
            at: p.at + 255,
            start,
        };
    }
    Position {
        operation: p.operation + 1,
        at: 0,
        start,
    }
}

impl Request<'_> {
    // How many pieces a target transfer has: blocks of 255, or one.
    fn transfer_count(&self) -> u32
        ensures { result ≡ length (transfer_pieces self.now.call self.now.size) }
    {
        if moves_bytes(self.call) {
            if is_manual(self.call) {
                return (self.size + 254) / 255;
            }
            return 1;
        }
        0
    }

    #[tactic(auto, using(crate::proofs::Transfers::size_is))]
    fn transfer_size(&self, i: u32) -> u32
        requires { i ≤ 65535 }
        ensures { result ≡ (piece_at (transfer_pieces self.now.call self.now.size) i).size }
    {
        if moves_bytes(self.call) {
            if is_manual(self.call) {
                return block_size(self.size, i);
            }
            if i == 0 {
                return self.size;
            }
        }
        0
    }

    #[tactic(auto, using(crate::proofs::Transfers::start_is))]
    fn transfer_start(&self, i: u32) -> u32
        requires { i ≤ 65535 }
        ensures { result ≡ start_from 0 (transfer_pieces self.now.call self.now.size) i }
    {
        if moves_bytes(self.call) {
            if is_manual(self.call) {
                return block_start(self.size, i);
            }
            if i == 0 {
                return 0;
            }
            return self.size;
        }
        0
    }

    // How many bytes a transfer counts as put out, one more than there are: only a manual write does.
    fn transfer_most(&self) -> u32
        ensures { result ≡ most_for self.now.call self.now.size }
    {
        if is_manual_write(self.call) {
            return self.size + 1;
        }
        0
    }

    // All its pieces go one way; past the end is a write.
    fn transfer_view(&self, i: u32) -> View
        requires { i ≤ 65535 }
        ensures { result ≡ view_at (transfer_pieces self.now.call self.now.size) (most_for self.now.call self.now.size) i }
    {
        let k = self.transfer_count();
        let receives = is_receiver(self.call);
        let reads = receives & (i < k);
        View {
            start: self.transfer_start(i),
            size: self.transfer_size(i),
            most: self.transfer_most(),
            reads,
            last: k <= i + 1,
            same: reads == (receives & (i + 1 < k)),
            reload: (i != 0) & (reads == (receives & (i <= k))),
            nonempty: 0 < k,
        }
    }

    // The call, of either kind, has a piece at all.
    #[tactic(auto, using(crate::proofs::Pieces::of_transfer, crate::proofs::Pieces::nonempty_list))]
    pub fn has_pieces(&self) -> bool
        ensures { result ≡ ltb 0 (length (pieces_for self.now.call self.now.operations.now self.now.size)) }
    {
        if is_transaction(self.call) {
            return !self.operations.is_empty();
        }
        0 < self.transfer_count()
    }

    pub fn cursor_at(&self, i: u32) -> Cursor
        requires { i ≤ 65535 }
        ensures { result ≡ cursor_at self.now.call self.now.operations.now self.now.size i }
    {
        if is_transaction(self.call) {
            return list_cursor(self.operations, position_at(self.operations, i));
        }
        Cursor {
            view: self.transfer_view(i),
            operation: 0,
            at: 0,
        }
    }

    // Piece i is there, or is the first of none; k is the operation that it lies in.
    #[tactic(auto, using(crate::proofs::Pieces::of_transfer, crate::proofs::Pieces::first_there, crate::proofs::Pieces::list_there))]
    pub fn is_there(&self, k: u32, i: u32) -> bool
        requires { k ≡ (cursor_at self.now.call self.now.operations.now self.now.size i).operation }
        ensures { result ≡ ltb i (max 1 (length (pieces_for self.now.call self.now.operations.now self.now.size))) }
    {
        if is_transaction(self.call) {
            return (i == 0) | ((k as usize) < self.operations.len());
        }
        (i == 0) | (i < self.transfer_count())
    }

    // The cursor at piece j, where p is the one at piece i.
    pub fn cursor_after(&self, p: Cursor, i: u32, j: u32) -> Cursor
        requires i_bound { (i ≤ 65535) × (j ≤ 65535) }
        requires p_value { p ≡ cursor_at self.now.call self.now.operations.now self.now.size i }
        ensures { result ≡ cursor_at self.now.call self.now.operations.now self.now.size j }
    {
        if j == i {
            return p;
        }
        if (j == i + 1) & is_transaction(self.call) {
            return list_cursor(self.operations, position_after(self.operations, p));
        }
        self.cursor_at(j)
    }
}
