// Trees: how they are read (30 to 33, each with its position), and where a tree ends.
//
// Reading a node reads its children, and reading a child reads a node again: `node`, `sequence` and `children` call each other. Each is handed the part of
// the words that starts at its node, with the position of that part beside it; the grammar is seen through its types alone.
#![tactic(auto)]

ghost use Rattle.std.specs.Prelude.{◌≡◌, true, [], ◌∷◌, ◌+◌, ◌<◌, ◌≤◌, ◌^◌, length};
ghost use Rattle.words.specs.Views.{answer, got};
ghost use Rattle.grammar.specs.Kinds.{children, is_sequence};
ghost use Rattle.tables.specs.Types.{OfHeads, OfTypes};
ghost use Rattle.tree.specs.Limits.{most_tree_words, most_nesting};
ghost use Rattle.tree.specs.Reading as Reading;
ghost use Rattle.tree.specs.Views.{nesting_at, level, read_head, Ends};

use limits::{MOST_NESTING, MOST_WORDS};
use tables::{GrammarTypes, Types};
use words::{Fault, Refusal};

pub mod limits;

// How many words the tree has that the part begins with. One loop counts the trees still owed: it ends with them, at a word that no range knows before.
#[tactic(auto, using(crate::proofs::Ends::owed_start, crate::proofs::Ends::owed_more, crate::proofs::Ends::owed_short, crate::proofs::Ends::owed_none))]
pub fn end_of_tree(types: &Types, ws: &[u32]) -> usize
    requires { length ws.now < 2 ^ 32 }
    ensures { Ends types.now ws.now result }
{
    let mut owed: usize = 1;
    let mut at: usize = 0;
    while 0 < owed && at + 1 < ws.len() {
        owed = types.child_count(ws[at], ws[at + 1]) + (owed - 1);
        at = at + 2;
    }
    at
}

// The first pair of s, where a tree of type d is due with `left` levels of nesting to spend: its value and the position after it, or a refusal.
#[tactic(auto, using(crate::proofs::Reading::head_short, crate::proofs::Reading::head_type, crate::proofs::Reading::head_deep, crate::proofs::Reading::head_value, crate::proofs::Reading::head_misfit))]
fn head(types: &Types, s: &[u32], at: usize, d: u32, left: usize) -> Result<(u32, usize), Refusal>
    requires { (at + length s.now ≤ most_tree_words) × (left ≤ most_nesting) }
    ensures { OfHeads types.now (λ g. result ≡ got (read_head g (nesting_at left) d s.now at)) }
{
    if s.len() < 2 {
        return Err(Refusal::new(Fault::SlipEnds, at + s.len()));
    }
    if s[0] != d {
        return Err(Refusal::new(Fault::SlipWord, at));
    }
    if left == 0 {
        return Err(Refusal::new(Fault::SlipNesting, at));
    }
    let v = s[1];
    if types.is_allowed(d, v) {
        Ok((v, at + 2))
    } else {
        Err(Refusal::new(Fault::SlipWord, at + 1))
    }
}

// Reads the tree of type d at the start of s.
#[cycle(reading)]
pub fn node(
    types: &GrammarTypes,
    s: &[u32],
    at: usize,
    d: u32,
    left: usize,
) -> Result<usize, Refusal>
    requires { (at + length s.now ≤ most_tree_words) × (left ≤ most_nesting) }
    ensures { OfTypes types.now.types (λ g. result ≡ answer (Reading.read_trees g s.now (Reading.tree (nesting_at left) d ∷ []) at)) }
{
    if types.types.is_sequence(d) {
        return sequence(types, s, at, d, left);
    }
    let (v, next) = head(&types.types, s, at, d, left)?;
    children(types, &s[2..], next, d, v, left - 1)
}

// Reads a sequence of type d at the start of s. Its rest has its parent's nesting and is walked in a loop: one turn an element, each beginning where the one
// before ended.
#[cycle(reading)]
fn sequence(
    types: &GrammarTypes,
    s: &[u32],
    start: usize,
    d: u32,
    left: usize,
) -> Result<usize, Refusal>
    requires { (start + length s.now ≤ most_tree_words) × (left ≤ most_nesting) × OfHeads types.now.types (λ g. is_sequence g d ≡ true) }
    ensures { OfTypes types.now.types (λ g. result ≡ answer (Reading.read_trees g s.now (Reading.tree (nesting_at left) d ∷ []) start)) }
{
    let element = types.types.child(d, 0, 0);
    let mut at = start;
    loop {
        let (v, next) = head(&types.types, &s[at - start..], at, d, left)?;
        if v != 0 {
            return Ok(next);
        }
        at = node(types, &s[next - start..], next, element, left - 1)?;
    }
}

// Reads, one after the other, the trees of the children of a node (t, v), which is no sequence.
#[cycle(reading)]
fn children(
    types: &GrammarTypes,
    s: &[u32],
    start: usize,
    t: u32,
    v: u32,
    left: usize,
) -> Result<usize, Refusal>
    requires { (start + length s.now ≤ most_tree_words) × (left ≤ most_nesting) }
    ensures { OfTypes types.now.types (λ g. result ≡ answer (Reading.read_trees g s.now (level (nesting_at left) (children g t v)) start)) }
{
    let mut at = start;
    for i in 0..types.types.child_count(t, v) {
        let child = types.types.child(t, v, i);
        at = node(types, &s[at - start..], at, child, left)?;
    }
    Ok(at)
}

// The check of one tree of type t, with nothing left over.
#[tactic(auto, using(crate::proofs::Reading::tree_empty, crate::proofs::Reading::tree_long, crate::proofs::Reading::tree_odd, crate::proofs::Reading::tree_refused, crate::proofs::Reading::tree_over, crate::proofs::Reading::tree_whole))]
pub fn read_tree_of(types: &GrammarTypes, s: &[u32], t: u32) -> Result<usize, Refusal>
    ensures { OfTypes types.now.types (λ g. result ≡ answer (Reading.read_tree_of g t s.now)) }
{
    if s.is_empty() || MOST_WORDS < s.len() || s.len() % 2 != 0 {
        return Err(Refusal::new(Fault::SlipLength, 0));
    }
    let end = node(types, s, 0, t, MOST_NESTING)?;
    if end < s.len() {
        Err(Refusal::new(Fault::SlipEnds, end))
    } else {
        Ok(end)
    }
}

// The check of a tree against the grammar whose types these are.
pub fn read_tree(types: &GrammarTypes, s: &[u32]) -> Result<usize, Refusal>
    ensures { OfTypes types.now.types (λ g. result ≡ answer (Reading.read_tree g s.now)) }
{
    read_tree_of(types, s, 0)
}
