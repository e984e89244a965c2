// A file's table of contents and its bodies.
ghost use Rattle.std.specs.Prelude.{◌≡◌};
ghost use Rattle.benchfile.specs.File.{body_size, row_wrong, rows_wrong, table_wrong, words_wrong, size_wrong};

use crate::head::is_call_wrong;
use crate::part::{after, first, word};

#[tactic(auto, unfolding(crate::specs::File::size_wrong), using(fields::proofs::Tests::tests))]
pub fn is_size_wrong(bytes: usize) -> bool
    ensures { result ≡ size_wrong bytes }
{
    bytes > 65_536 || bytes % 4 != 0
}

// How many words the body of a row's call has.
pub fn body_size(row: &[u32]) -> usize
    ensures { result ≡ body_size row.now }
{
    word(row, 2) as usize + word(row, 3) as usize
}

// Whether the bodies are too short for the first row, or its call is wrong.
#[tactic(auto, unfolding(crate::specs::File::row_wrong), using(fields::proofs::Tests::tests))]
fn is_row_wrong(row: &[u32], bodies: &[u32]) -> bool
    ensures { result ≡ row_wrong row.now bodies.now }
{
    let head = first(bodies, word(row, 2) as usize);
    bodies.len() < body_size(row) || is_call_wrong(word(row, 0), word(row, 1), head)
}

// By hand: a table that is cut short is read on as zeros, which chunks of it would leave out.
#[tactic(auto, using(crate::proofs::Rows::turns))]
fn is_rows_wrong(n: usize, rows: &[u32], bodies: &[u32]) -> bool
    ensures { result ≡ rows_wrong n rows.now bodies.now }
{
    let mut table = rows;
    let mut rest = bodies;
    for _ in 0..n {
        if is_row_wrong(table, rest) {
            return true;
        }
        rest = after(rest, body_size(table));
        table = after(table, 4);
    }
    !rest.is_empty()
}

#[tactic(auto, unfolding(crate::specs::File::table_wrong), using(fields::proofs::Tests::tests))]
fn is_table_wrong(n: usize, words: &[u32]) -> bool
    ensures { result ≡ table_wrong n words.now }
{
    if n > 64 {
        return true;
    }
    let table = 4 * n;
    words.len() < table || is_rows_wrong(n, words, after(words, table))
}

// Whether a file's words are no bench file.
#[tactic(auto, unfolding(crate::specs::File::words_wrong), using(fields::proofs::Tests::tests))]
pub fn is_wrong(words: &[u32]) -> bool
    ensures { result ≡ words_wrong words.now }
{
    words.is_empty() || is_table_wrong(word(words, 0) as usize, after(words, 1))
}
