// Fields of a register word: read, written and tested. Which place is which register's field is the crate `registers`.
#![tactic(auto)]

ghost use Rattle.std.specs.Prelude.{◌≡◌, ◌+◌, ◌-◌, ◌^◌, ◌≤◌, ◌<◌, min};
ghost use Rattle.fields.specs.Field.{bits_at, with_bits, get_of, put_of, flag_of, mark_of, place, bit, inside};

// By hand: a word, a place and a width stay three numbers. A struct of them would be made at each field and taken apart again here.

// The lowest `width` bits, set. It is worked out in 64 bits, because a word of 32 cannot be shifted by 32.
fn mask(width: u32) -> u32
    requires { width ≤ 32 }
    ensures { result ≡ 2 ^ width - 1 }
{
    ((1u64 << width) - 1) as u32
}

fn bits(word: u32, at: u32, width: u32) -> u32
    requires at_bound { at < 32 }
    requires width_bound { width ≤ 32 }
    ensures { result ≡ bits_at word at width }
{
    (word >> at) & mask(width)
}

#[tactic(auto, using(crate::proofs::Arithmetic::masked))]
fn with_bits(word: u32, at: u32, width: u32, value: u32) -> u32
    requires at_bound { at < 32 }
    requires width_bound { at + width ≤ 32 }
    ensures { result ≡ with_bits word at width value }
{
    let m = mask(width);
    (word & !(m << at)) | ((value & m) << at)
}

// Whether the word has a field of `width` bits from bit `at` on.
fn is_inside(at: u32, width: u32) -> bool
    ensures { result ≡ inside (place at width) }
{
    at < 32 && width <= 32 - at
}

// The field of `width` bits from bit `at` on; 0 where the word has no such field.
#[tactic(auto, unfolding(crate::specs::Field::get_of))]
pub fn get(word: u32, at: u32, width: u32) -> u32
    ensures { result ≡ get_of word (place at width) }
{
    if is_inside(at, width) {
        bits(word, at, width)
    } else {
        0
    }
}

// The word with the low `width` bits of `value` in that field; the word itself where it has no such field.
#[tactic(auto, unfolding(crate::specs::Field::put_of))]
pub fn put(word: u32, at: u32, width: u32, value: u32) -> u32
    ensures { result ≡ put_of word (place at width) value }
{
    if is_inside(at, width) {
        with_bits(word, at, width, value)
    } else {
        word
    }
}

// A field of at most eight bits, as a byte; of a wider one the low eight bits.
pub fn get_u8(word: u32, at: u32, width: u32) -> u8
    ensures { result ≡ get_of word (place at (min width 8)) }
{
    get(word, at, width.min(8)) as u8
}

pub fn flag(word: u32, at: u32) -> bool
    ensures { result ≡ flag_of word (bit at) }
{
    get(word, at, 1) == 1
}

pub fn mark(word: u32, at: u32, on: bool) -> u32
    ensures { result ≡ mark_of word (bit at) on }
{
    put(word, at, 1, u32::from(on))
}
