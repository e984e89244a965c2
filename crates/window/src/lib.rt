// A text put into a window: the bytes of the text from some place on, as many as a slice holds. So a text of any length is
// laid out in fixed memory, one window after the other.
#![tactic(auto)]

ghost use Rattle.std.specs.Prelude.{◌≡◌, replicate};
ghost use Rattle.window.specs.Window.{laid, start_of, full, put_byte, emit_of};

// Where the text stands: how many of its bytes are still to be left out, and how many were written.
// By hand: the slice stands beside it. In a struct of both, every contract would have to say too that the slice is still the same one.
#[derive(Clone, Copy)]
pub struct Cursor {
    pub skip: usize,
    pub at: usize,
}

impl Cursor {
    // Before the first byte, where the window begins at the text's byte `from`.
    pub fn new(from: usize) -> Cursor
        ensures { result ≡ start_of from }
    {
        Cursor { skip: from, at: 0 }
    }

    fn is_full(self, out: &[u8]) -> bool
        ensures { result ≡ full (laid self out.now) }
    {
        self.skip == 0 && out.len() <= self.at
    }
}

// One byte of the text.
#[tactic(auto, using(crate::proofs::Laid::byte))]
pub fn put(p: Cursor, b: u8, out: &mut [u8]) -> Cursor
    ensures { laid result out.new ≡ put_byte b (laid p out.old) }
{
    if 0 < p.skip {
        return Cursor {
            skip: p.skip - 1,
            ..p
        };
    }
    if p.at < out.len() {
        out[p.at] = b;
        return Cursor { at: p.at + 1, ..p };
    }
    p
}

#[tactic(auto, using(crate::proofs::Laid::all))]
pub fn put_all(p: Cursor, text: &[u8], out: &mut [u8]) -> Cursor
    ensures { laid result out.new ≡ emit_of text.now (laid p out.old) }
{
    let mut q = p;
    for &b in text {
        q = put(q, b, out);
    }
    q
}

// A byte so many times; those that a full window has no room for cost nothing.
#[tactic(auto, using(crate::proofs::Laid::repeated))]
pub fn put_repeated(p: Cursor, b: u8, n: usize, out: &mut [u8]) -> Cursor
    ensures { laid result out.new ≡ emit_of (replicate n b) (laid p out.old) }
{
    let mut q = p;
    for _ in 0..n {
        if q.is_full(out) {
            break;
        }
        q = put(q, b, out);
    }
    q
}
