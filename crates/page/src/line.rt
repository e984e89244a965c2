// A line of the page, on which tokens are put until one would pass column 80.
ghost use Rattle.std.specs.Prelude.{◌≤◌};

use window::Cursor;

// Where the text stands, how many columns of its line are used, and that the bits from `top` on are shown.
// By hand: the value and the bytes stand beside it. In it, every contract would have to say too that they are still the same ones.
// What a field and its label may be is asked by three functions here, and tested once, in names.rt.
#[derive(Clone, Copy)]
pub struct Line {
    pub place: Cursor,
    pub column: usize,
    pub top: u32,
    ghost fits: { column ≤ 80 },
}

impl Line {
    ghost use Rattle.std.specs.Prelude.{◌≡◌, ◌++◌, ◌+◌, ◌<◌, length};
    ghost use Rattle.fields.specs.Field.{bit};
    ghost use Rattle.numerals.specs.Numbers.{decimal_of};
    ghost use Rattle.page.specs.Put.{as_put, ending, room_put, token_put, tokens_put, bits_put, flag_put, number_put};
    ghost use Rattle.page.specs.Tokens.{flag_tokens};
    ghost use Rattle.window.specs.Window.{laid, emit_of};

    // Spaces up to column 80, and a line feed.
    pub fn end(self, out: &mut [u8]) -> Cursor
        ensures { laid result out.new ≡ emit_of (ending self.column) (laid self.place out.old) }
    {
        let p = window::put_repeated(self.place, b' ', 80 - self.column, out);
        window::put_all(p, b"\n", out)
    }

    // Room for a space and a token of n characters: on the line, or from column 30 of the next one on.
    fn make_room(self, n: usize, out: &mut [u8]) -> Line
        requires { n ≤ 50 }
        ensures out_after { as_put result out.new ≡ room_put n (as_put self out.old) }
        ensures n_bound { result.column + (1 + n) ≤ 80 }
    {
        if self.column + (1 + n) <= 80 {
            return self;
        }
        let p = self.end(out);
        Line {
            place: window::put_repeated(p, b' ', 29, out),
            column: 29,
            top: self.top,
        }
    }

    // A token, which is a name and a number's digits.
    fn put_token(self, name: &[u8], digits: &[u8], out: &mut [u8]) -> Line
        requires { (length name.now ≤ 20) × (length digits.now ≤ 20) }
        ensures { as_put result out.new ≡ token_put (name.now ++ digits.now) (as_put self out.old) }
    {
        let n = name.len() + digits.len();
        let line = self.make_room(n, out);
        let p = window::put_repeated(line.place, b' ', 1, out);
        let p = window::put_all(p, name, out);
        Line {
            place: window::put_all(p, digits, out),
            column: line.column + (1 + n),
            top: line.top,
        }
    }

    // A name and digits, if a bit is set.
    fn put_if(self, value: u32, at: u32, name: &[u8], digits: &[u8], out: &mut [u8]) -> Line
        requires { (length name.now ≤ 20) × (length digits.now ≤ 20) }
        ensures { as_put result out.new ≡ tokens_put (flag_tokens value (name.now ++ digits.now) (bit at)) (as_put self out.old) }
    {
        if fields::flag(value, at) {
            return self.put_token(name, digits, out);
        }
        self
    }

    // The bits of no field from the last one shown down to bit `low`.
    pub fn put_bits(self, value: u32, low: u32, out: &mut [u8]) -> Line
        ensures { as_put result out.new ≡ bits_put value low (as_put self out.old) }
    {
        let mut line = self;
        for bit in (low..self.top).rev() {
            let digits = numerals::ten_digits(bit);
            line = line.put_if(value, bit, b"bit", numerals::significant(&digits), out);
        }
        line.top = low;
        line
    }

    // A field of one bit, after the bits above it.
    pub fn put_flag(self, value: u32, at: u32, name: &[u8], out: &mut [u8]) -> Line
        requires { (at < 32) × (length name.now ≤ 20) }
        ensures { as_put result out.new ≡ flag_put value name.now at (as_put self out.old) }
    {
        let line = self.put_bits(value, at + 1, out);
        let mut line = line.put_if(value, at, name, b"", out);
        line.top = at;
        line
    }

    // A wider field, after the bits above it: its label is its name and `=`.
    pub fn put_number(self, value: u32, at: u32, width: u32, label: &[u8], out: &mut [u8]) -> Line
        requires { (at < 32) × (width < 32) × (length label.now ≤ 20) }
        ensures { as_put result out.new ≡ number_put value label.now at width (as_put self out.old) }
    {
        let line = self.put_bits(value, at + width, out);
        let digits = numerals::ten_digits(fields::get(value, at, width));
        let mut line = line.put_token(label, numerals::significant(&digits), out);
        line.top = at;
        line
    }
}
