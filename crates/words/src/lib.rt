// Lent words: reading one, comparing, copying and moving a stretch, and clearing.
#![tactic(auto)]

pub mod refusal;

ghost use Rattle.std.specs.Prelude.{◌≡◌, ◌++◌, ◌+◌, ◌≤◌, length, get_or, take, drop, replicate};
ghost use Rattle.words.specs.Faults.{number_of};
ghost use Rattle.words.specs.Reader as Reader;
ghost use Rattle.words.specs.Views.{got, equal_words};

pub use refusal::{Fault, Refusal};

// The word at i, and 0 past the end.
pub fn word(ws: &[u32], i: usize) -> u32
    ensures { result ≡ get_or ws.now i 0 }
{
    ws.get(i).copied().unwrap_or(0)
}

// The word at a position of a reading, and the position after it; where the words end before it, the refusal `ends`.
#[tactic(auto, unfolding(crate::specs::Reader::word))]
pub fn read_word(ends: Fault, ws: &[u32], at: usize) -> Result<(u32, usize), Refusal>
    ensures { result ≡ got (Reader.word (number_of ends) ws.now at) }
{
    match ws.get(at) {
        Some(w) => Ok((*w, at + 1)),
        None => Err(Refusal::new(ends, ws.len())),
    }
}

// The word at a position of a reading, if it is from low to high; otherwise the refusal `fault`.
#[tactic(auto, using(crate::proofs::Laws::read_word, crate::proofs::Laws::read_bad), unfolding(crate::specs::Reader::word_in))]
pub fn read_in(
    ends: Fault,
    fault: Fault,
    ws: &[u32],
    low: u32,
    high: u32,
    at: usize,
) -> Result<(u32, usize), Refusal>
    ensures { result ≡ got (Reader.word_in (number_of ends) (number_of fault) ws.now low high at) }
{
    let (w, next) = read_word(ends, ws, at)?;
    if (low..=high).contains(&w) {
        Ok((w, next))
    } else {
        Err(Refusal::new(fault, at))
    }
}

// Are the two stretches the same?
#[tactic(auto, using(crate::proofs::Stretches::pointwise_equal))]
pub fn same(a: &[u32], b: &[u32]) -> bool
    ensures { result ≡ equal_words a.now b.now }
{
    a == b
}

// Copies the n words at `from` to `to`, above them in the same slice. The library's methods for this and the next would have the archive need `memmove`, which a
// caller need not have.
pub fn copy_up(w: &mut [u32], from: usize, to: usize, n: usize)
    requires { (from + n ≤ to) × (to + n ≤ length w.old) }
    ensures { w.new ≡ take to w.old ++ take n (drop from w.old) ++ drop (to + n) w.old }
{
    for i in 0..n {
        w[to + i] = w[from + i];
    }
}

// Moves the n words at `from` down to `to` in the same slice; the two stretches may overlap.
pub fn move_down(w: &mut [u32], from: usize, to: usize, n: usize)
    requires { (to ≤ from) × (from + n ≤ length w.old) }
    ensures { w.new ≡ take to w.old ++ take n (drop from w.old) ++ drop (to + n) w.old }
{
    for i in 0..n {
        w[to + i] = w[from + i];
    }
}

// Clears the words.
pub fn clear(w: &mut [u32])
    ensures { w.new ≡ replicate (length w.old) 0 }
{
    w.fill(0);
}
