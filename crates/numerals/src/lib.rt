// Numbers as text in ASCII: a number read and written, and a text cut into words.
#![tactic(auto)]

ghost use Rattle.std.specs.Prelude.{◌≡◌, ℕ, ◌/◌, ◌%◌, ◌≤◌, ◌<◌, eqb, length, MatchOption};
ghost use Rattle.numerals.specs.Numbers.{digit_of, number_of, parsed_of, hex_digit_of, spelled_of, hex_of, significant_of, decimal_of};
ghost use Rattle.std.specs.List.{prefix_len};
ghost use Rattle.numerals.specs.Words.{is_blank, blank_is, drop_while, first_word, after_word};

// The number that all of `s` writes: decimal digits, or `0x` or `0X` and hexadecimal digits.
#[tactic(auto, unfolding(crate::specs::Numbers::parsed_of, crate::specs::Numbers::is_hex))]
pub fn parse(s: &[u8]) -> Option<u32>
    ensures { result ≡ parsed_of s.now }
{
    match s {
        [b'0', b'x' | b'X', digits @ ..] => number(digits, 16),
        _ => number(s, 10),
    }
}

// By hand: a base is bounded in three private functions, which are asked for 10 and 16 only; as a type it would be made and taken apart.

// The number that `s` writes in a base. 64 bits hold a value with one digit too many, and `checked_mul` would divide.
fn number(s: &[u8], base: u32) -> Option<u32>
    requires { (1 ≤ base) × (base ≤ 16) }
    ensures { result ≡ number_of base s.now }
{
    if s.is_empty() {
        return None;
    }
    let mut value: u32 = 0;
    for &b in s {
        let d = digit(b, base)?;
        value = u32::try_from(u64::from(value) * u64::from(base) + u64::from(d)).ok()?;
    }
    Some(value)
}

// What `b` stands for, if it is a digit in a base.
#[tactic(auto, unfolding(crate::specs::Numbers::digit_of))]
fn digit(b: u8, base: u32) -> Option<u32>
    requires { base ≤ 16 }
    ensures { MatchOption result (base ≤ digit_of b) (λ d. (d < base) × (d ≡ digit_of b)) }
{
    let d = match b {
        b'0'..=b'9' => b - b'0',
        b'A'..=b'F' => b - b'A' + 10,
        b'a'..=b'f' => b - b'a' + 10,
        _ => return None,
    };
    Some(u32::from(d)).filter(|&d| d < base)
}

// `n` in eight hexadecimal digits, the letters capital.
// By hand: this and those below are names for the lengths of one generic function.
pub fn hex(n: u32) -> [u8; 8]
    ensures { result ≡ hex_of 8 n }
{
    spelled::<_, 8>(n, 16)
}

// A byte in two hexadecimal digits.
pub fn hex_byte(b: u8) -> [u8; 2]
    ensures { result ≡ hex_of 2 b }
{
    spelled::<_, 2>(u32::from(b), 16)
}

// The last six decimal digits of `n`, zeros in front.
pub fn last_six(n: u32) -> [u8; 6]
    ensures { result ≡ spelled_of 10 6 n }
{
    spelled::<_, 6>(n, 10)
}

// `n` in ten decimal digits, which 32 bits fit into; `significant` leaves the zeros in front out.
pub fn ten_digits(n: u32) -> [u8; 10]
    ensures { significant_of result ≡ decimal_of n }
{
    spelled::<_, 10>(n, 10)
}

// `n` in twenty decimal digits, which 64 bits fit into.
pub fn digits(n: u64) -> [u8; 20]
    ensures { result ≡ spelled_of 10 20 n }
{
    spelled::<_, 20>(n, 10)
}

// A number of 32 or of 64 bits. The chip divides those of 32 alone: of 64, it would take a function of a compiler's library.
trait Split: Copy {
    ghost value: { Self → ℕ };

    // The number without its last digit in a base, and that digit.
    fn split(self, base: u32) -> (Self, u32)
        requires { (1 ≤ base) × (base ≤ 16) }
        ensures others { value result.0 ≡ value self / base }
        ensures last { result.1 ≡ value self % base };
}

impl Split for u32 {
    ghost value = { λ n. n };

    fn split(self, base: u32) -> (u32, u32) {
        (self / base, self % base)
    }
}

impl Split for u64 {
    ghost value = { λ n. n };

    fn split(self, base: u32) -> (u64, u32) {
        let base = u64::from(base);
        (self / base, (self % base) as u32)
    }
}

// The last digits of `n` in a base.
// By hand: nothing is known of what a loop over `iter_mut().rev()` writes.
fn spelled<T: Split, const N: usize>(n: T, base: u32) -> [u8; N]
    requires { (1 ≤ base) × (base ≤ 16) }
    ensures { result ≡ spelled_of base N (T.value n) }
{
    let mut text = [0u8; N];
    let mut rest = n;
    for i in (0..N).rev() {
        let (others, last) = rest.split(base);
        text[i] = hex_digit(last);
        rest = others;
    }
    text
}

#[tactic(auto, unfolding(crate::specs::Numbers::hex_digit_of))]
fn hex_digit(d: u32) -> u8
    requires { d < 16 }
    ensures { result ≡ hex_digit_of d }
{
    if d < 10 {
        b'0' + d as u8
    } else {
        b'A' + (d as u8 - 10)
    }
}

// Digits without the zeros in front; the last digit stays.
pub fn significant(s: &[u8]) -> &[u8]
    ensures { result.now ≡ significant_of s.now }
{
    &s[zeros(s).min(s.len().saturating_sub(1))..]
}

// How many zeros `s` begins with.
// By hand: chip/form.awk passes no function that returns an Option of a reference, as a chain takes its items by.
fn zeros(s: &[u8]) -> usize
    ensures count { result ≡ prefix_len (λ d. eqb d 48) s.now }
    ensures bound { result ≤ length s.now }
{
    for (i, &d) in s.iter().enumerate() {
        if d != b'0' {
            return i;
        }
    }
    s.len()
}

// The first word of `s`, empty where `s` has none.
pub fn word(s: &[u8]) -> &[u8]
    ensures { result.now ≡ first_word s.now }
{
    let start = skip(s, true);
    &start[..run(start, false)]
}

// What follows the first word.
pub fn after_word(s: &[u8]) -> &[u8]
    ensures { result.now ≡ after_word s.now }
{
    skip(skip(s, true), false)
}

// What is left of `s` past the blanks at its start, or past the bytes there that are none.
fn skip(s: &[u8], blank: bool) -> &[u8]
    ensures { result.now ≡ drop_while (blank_is blank) s.now }
{
    &s[run(s, blank)..]
}

// How many blanks `s` begins with, or how many bytes that are none.
// By hand: as in `zeros`, from which it differs in what it asks of a byte.
fn run(s: &[u8], blank: bool) -> usize
    ensures count { result ≡ prefix_len (blank_is blank) s.now }
    ensures bound { result ≤ length s.now }
{
    for (i, &b) in s.iter().enumerate() {
        if is_blank(b) != blank {
            return i;
        }
    }
    s.len()
}

#[tactic(auto, unfolding(crate::specs::Words::is_blank))]
fn is_blank(b: u8) -> bool
    ensures { result ≡ is_blank b }
{
    matches!(b, b' ' | b'\t'..=b'\r')
}
