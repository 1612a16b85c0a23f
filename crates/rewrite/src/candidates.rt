// The next node at which an attempt may match: attempts that must fail are only counted.
ghost use Rattle.std.specs.Prelude.{ℕ, ◌≡◌, ◌+◌, ◌*◌, ◌<◌, ◌≤◌, true, length, get_or, Some};
ghost use Rattle.rewrite.specs.Candidates.{BeginsWithNode, FirstValue, FirstOf, FirstFound, allowed, Begun, Clashes, NextStart, NextCandidate};

use crate::MOST_LIVE;
use meaning::State;
use rules::limits::{MARK_NEW, MARK_VARIABLE};

// A node, by its number in the scope, and the state that is left when it is reached.
#[derive(Clone, Copy)]
pub struct Candidate {
    pub node: usize,
    pub left: State,
}

// Of a pattern: the value of its first pair, if that is a node of the target's type, and whether it pays to look at later pairs before an attempt is made.
#[derive(Clone, Copy)]
pub struct First {
    pub value: Option<u32>,
    pub further: bool,
}

// The value of the pattern's first pair, if that is a node of the target's type. If it is a variable it is the whole pattern.
fn first_value(pairs: &[u32], target: u32) -> Option<u32>
    ensures known { FirstValue pairs.now target result }
    ensures whole { BeginsWithNode pairs.now target → result ≡ Some (get_or pairs.now 1 0) }
{
    if 2 <= pairs.len() && pairs[0] == target {
        Some(pairs[1])
    } else {
        None
    }
}

// Is the first of the later pairs that is not a new variable a node? If not, there is no later node that could be seen to differ before an attempt. Nothing rests
// on the answer.
fn node_follows(pairs: &[u32]) -> bool {
    for i in (2..pairs.len()).step_by(2) {
        if pairs[i] != MARK_NEW {
            return pairs[i] < MARK_NEW;
        }
    }
    false
}

// What is the same at every node of a search, looked up once.
pub fn first_of(pairs: &[u32], target: u32) -> First
    ensures { FirstFound pairs.now target result }
{
    let value = first_value(pairs, target);
    let further = value.is_some() && node_follows(pairs);
    First { value, further }
}

// May a pattern whose first pair has this value, if any, match a node with the value that is found?
fn allows(value: Option<u32>, found: u32) -> bool
    ensures { result ≡ allowed value found }
{
    match value {
        Some(due) => found == due,
        None => true,
    }
}

// From the node `from` on, which stands at base + 2 * from: the first before `last` that has the target's type and the value, if one is given, or for which
// no attempt is left. This is where a search spends its time: a loop of its own keeps all that it needs in registers.
fn next_start(
    w: &[u32],
    target: u32,
    value: Option<u32>,
    base: usize,
    from: usize,
    last: usize,
    fuel: State,
) -> Candidate
    requires { 0 < last → base + 2 * last ≤ length w.now }
    ensures { NextStart w.now target value base from last fuel result }
{
    let mut node = from;
    let mut left = fuel;
    // A `while`: with a `for` over the range a search was measured slower.
    while node < last {
        let p = base + 2 * node;
        if marks::type_in(w[p]) == target {
            if allows(value, w[p + 1]) || left.attempts == 0 {
                return Candidate { node, left };
            }
            left.attempts -= 1;
        }
        node += 1;
    }
    Candidate { node, left }
}

// Must the pattern, whose first pair is the part's first node, differ later from the tree there? No variable is bound or compared for this.
fn clashes_later(pairs: &[u32], part: &[u32], live: usize) -> bool
    requires { (length pairs.now ≤ 256) × (live ≤ 6144) × Begun pairs.now part.now }
    ensures { result ≡ true → Clashes pairs.now part.now live }
{
    let mut total = live;
    let mut i: usize = 2;
    let mut p: usize = 2;
    // A `while`: with a `for` over the pairs the search in `next_start`, which is compiled into one with this, was measured slower.
    while 2 <= pairs.len() - i {
        if part.len() < p + 2 {
            return false;
        }
        let t = pairs[i];
        let v = pairs[i + 1];
        let w = part[p];
        if t == MARK_VARIABLE {
            return false;
        }
        if t == MARK_NEW {
            if marks::type_in(w) != v {
                return true;
            }
            let n = marks::size_in(w);
            if MOST_LIVE < total + n {
                return false;
            }
            total += n;
            p += 2 * n;
        } else {
            if marks::type_in(w) != t || part[p + 1] != v {
                return true;
            }
            p += 2;
        }
        i += 2;
    }
    false
}

// Are later pairs looked at before an attempt? Only where the value of the first is known: it then stands where the search by it ends.
fn looks_further(first: First) -> bool
    ensures { result ≡ true → (v : ℕ) × (first.value ≡ Some v) }
{
    first.further && first.value.is_some()
}

// From the node `from` of the scope on, which stands from base to end: the first before `last` that has the target's type and at which the pattern need not
// differ, or for which no attempt is left.
pub fn next_candidate(
    pairs: &[u32],
    first: First,
    w: &[u32],
    target: u32,
    base: usize,
    end: usize,
    from: usize,
    last: usize,
    live: usize,
    fuel: State,
) -> Candidate
    requires { (length pairs.now ≤ 256) × FirstOf pairs.now target first × (live ≤ 6144) × (0 < last → (base + 2 * last ≤ end) × (end ≤ length w.now)) }
    ensures { NextCandidate pairs.now w.now target base end from last live fuel result }
{
    let further = looks_further(first);
    let mut node = from;
    let mut left = fuel;
    // A `loop`, since each turn begins where the inner search ended.
    loop {
        let next = next_start(w, target, first.value, base, node, last, left);
        if !further || last <= next.node || next.left.attempts == 0 {
            return next;
        }
        node = next.node;
        left = next.left;
        let p = base + 2 * node;
        if !clashes_later(pairs, &w[p..end], live) {
            return next;
        }
        left.attempts -= 1;
        node += 1;
    }
}
