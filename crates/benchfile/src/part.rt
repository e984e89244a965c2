// Words of a file, cut to what there is.
ghost use Rattle.std.specs.Prelude.{◌≡◌, get_or, take, drop};

// The word at a place, 0 past the end.
pub fn word(words: &[u32], i: usize) -> u32
    ensures { result ≡ get_or words.now i 0 }
{
    words.get(i).copied().unwrap_or(0)
}

// The first n words, or all.
#[tactic(auto, using(crate::proofs::Parts::parts))]
pub fn first(words: &[u32], n: usize) -> &[u32]
    ensures { result.now ≡ take n words.now }
{
    &words[..n.min(words.len())]
}

// The words after the first n.
#[tactic(auto, using(crate::proofs::Parts::parts))]
pub fn after(words: &[u32], n: usize) -> &[u32]
    ensures { result.now ≡ drop n words.now }
{
    &words[n.min(words.len())..]
}
