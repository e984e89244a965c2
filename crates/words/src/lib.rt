// Little-endian words in byte slices. Bytes after the last whole word are not looked at.
#![tactic(auto)]

ghost use Rattle.std.specs.Prelude.{◌≡◌, ◌+◌, ◌*◌, ◌/◌, ◌≤◌, ◌<◌, length};
ghost use Rattle.std.proofs.lemmas.List.Edits.{sets};
ghost use Rattle.words.specs.Words.{word_of, word_at, as_decoded, decoded_of, bytes_in, put_words, put_words_at};

// By hand: bytes go by their places here and below, since a word may stand anywhere in a slice, and the last bytes make no word.
fn word_of(a: u8, b: u8, c: u8, d: u8) -> u32
    ensures { result ≡ word_of a b c d }
{
    u32::from_le_bytes([a, b, c, d])
}

// The word at a place that has one.
#[tactic(auto, using(crate::proofs::Turns::gets))]
fn whole(bytes: &[u8], i: usize) -> u32
    requires { i < length bytes.now / 4 }
    ensures { result ≡ word_at bytes.now i }
{
    let at = 4 * i;
    word_of(bytes[at], bytes[at + 1], bytes[at + 2], bytes[at + 3])
}

// The word at a place, 0 past the last whole one.
#[tactic(auto, using(crate::proofs::Turns::gets))]
pub fn get(bytes: &[u8], i: usize) -> u32
    ensures { result ≡ word_at bytes.now i }
{
    if i < bytes.len() / 4 {
        whole(bytes, i)
    } else {
        0
    }
}

// Puts the words of `bytes` at the start of `words`, as many as there is room for, and says how many.
pub fn decode(bytes: &[u8], words: &mut [u32]) -> usize
    ensures { as_decoded result words.new ≡ decoded_of 0 bytes.now words.old }
{
    let n = words.len().min(bytes.len() / 4);
    for (i, word) in words[..n].iter_mut().enumerate() {
        *word = whole(bytes, i);
    }
    n
}

// As `decode`, from word number i on.
#[tactic(auto, using(crate::proofs::Turns::froms))]
pub fn decode_from(bytes: &[u8], i: usize, words: &mut [u32]) -> usize
    ensures { as_decoded result words.new ≡ decoded_of i bytes.now words.old }
{
    if bytes.len() / 4 < i {
        return 0;
    }
    decode(&bytes[4 * i..], words)
}

fn put(bytes: &mut [u8], at: usize, w: u32)
    requires { at + 4 ≤ length bytes.old }
    ensures { bytes.new ≡ sets bytes.old at (bytes_in w) }
{
    let [a, b, c, d] = w.to_le_bytes();
    bytes[at] = a;
    bytes[at + 1] = b;
    bytes[at + 2] = c;
    bytes[at + 3] = d;
}

// Puts the words at the start of `bytes`, all of them or, where there is no room, none.
#[tactic(auto, using(crate::proofs::Turns::encodes))]
pub fn encode(words: &[u32], bytes: &mut [u8])
    ensures { bytes.new ≡ put_words words.now bytes.old }
{
    if bytes.len() / 4 < words.len() {
        return;
    }
    for (i, word) in words.iter().enumerate() {
        put(bytes, 4 * i, *word);
    }
}

// As `encode`, with the first word put as word number i.
#[tactic(auto, using(crate::proofs::Turns::ats))]
pub fn encode_at(words: &[u32], i: usize, bytes: &mut [u8])
    ensures { bytes.new ≡ put_words_at i words.now bytes.old }
{
    if bytes.len() / 4 < i {
        return;
    }
    encode(words, &mut bytes[4 * i..]);
}
