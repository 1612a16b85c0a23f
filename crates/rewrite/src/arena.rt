// Work memory as a stack of trees: what stands on it, what is pushed, finished and put in place.
ghost use Rattle.std.specs.Prelude.{◌≡◌, ◌∷◌, ◌++◌, ◌+◌, ◌*◌, ◌<◌, ◌≤◌, ◌^◌, length, get_or, take, drop};
ghost use Rattle.tree.specs.Limits.{most_nodes};
ghost use Rattle.meaning.specs.Limits.{most_live};
ghost use Rattle.rewrite.specs.Vars.{vars_of, Sound, start_at};
ghost use Rattle.rewrite.specs.Arena.{NodesAt, Within, within_limits, arguments_in, Gathered, Closed, TooDeep, Replaced, Computed};

use crate::MOST_LIVE;
use meaning::{Halt, Stop};
use rules::limits::MOST_VARIABLES;
use tables::Types;
use tree::limits::{MOST_NESTING, MOST_NODES};

// What is open: how many variables are bound, how many nodes are live, and where free work memory begins.
#[derive(Clone, Copy)]
pub struct Frame {
    pub bound: usize,
    pub live: usize,
    pub top: usize,
}

// How many arguments an application has, and how many nodes they have.
#[derive(Clone, Copy)]
pub struct Args {
    pub bound: usize,
    pub total: usize,
}

// How many nodes the tree at `start` has, if it ends by `top` and has no more than a tree may have; otherwise 0.
pub fn nodes_at(w: &[u32], start: usize, top: usize) -> usize
    requires { start < 2 ^ 32 }
    ensures { NodesAt w.now start top result }
{
    let n = marks::size_at(w, start);
    if n <= MOST_NODES && start + 2 * n <= top {
        n
    } else {
        0
    }
}

// Copies the tree of n nodes at `start` to `to`, above it.
pub fn push_tree(w: &mut [u32], start: usize, n: usize, to: usize)
    requires { (0 < n → start + 2 * n ≤ to) × (to + 2 * n ≤ length w.old) }
    ensures { w.new ≡ take to w.old ++ (take (2 * n) (drop start w.old) ++ drop (to + 2 * n) w.old) }
{
    if 0 < n {
        words::copy_up(w, start, to, 2 * n);
    }
}

// Writes a node, without a mark.
pub fn push_node(w: &mut [u32], to: usize, t: u32, v: u32)
    requires { to + 2 ≤ length w.old }
    ensures { w.new ≡ take to w.old ++ (t ∷ v ∷ drop (to + 2) w.old) }
{
    w[to] = t;
    w[to + 1] = v;
}

// May a tree have n nodes? Otherwise the stop.
pub fn check_nodes(n: usize) -> Result<(), Halt>
    ensures { Within most_nodes 42 n result }
{
    if n <= MOST_NODES {
        Ok(())
    } else {
        Err(Halt::new(Stop::TooManyNodes))
    }
}

// May so many nodes be live? Otherwise the stop.
pub fn check_live(n: usize) -> Result<(), Halt>
    ensures { Within most_live 44 n result }
{
    if n <= MOST_LIVE {
        Ok(())
    } else {
        Err(Halt::new(Stop::TooManyLiveNodes))
    }
}

// May a tree have n nodes while so many are live? Otherwise the stop.
pub fn check_limits(n: usize, live: usize) -> Result<(), Halt>
    ensures { result ≡ within_limits n live }
{
    if MOST_NODES < n {
        Err(Halt::new(Stop::TooManyNodes))
    } else if MOST_LIVE < live {
        Err(Halt::new(Stop::TooManyLiveNodes))
    } else {
        Ok(())
    }
}

// The places of the n variables that stand in the pairs from `at` on, at most 16.
pub fn gather(
    w: &[u32],
    pairs: &[u32],
    at: usize,
    n: u32,
    places: &[u32; MOST_VARIABLES],
    bound: usize,
    given: &mut [u32; MOST_VARIABLES],
) -> Args
    requires { (at < 2 ^ 40) × Sound (vars_of places.now bound) × (length given.old ≡ 16) }
    ensures { Gathered w.now pairs.now at n (vars_of places.now bound) (arguments_in given.new result) }
{
    let count = (n as usize).min(MOST_VARIABLES);
    let mut total: usize = 0;
    for i in 0..count {
        let start = crate::start_in(places, bound, words::word(pairs, at + 2 * i + 1));
        given[i] = start as u32;
        total += marks::size_at(w, start);
    }
    Args {
        bound: count,
        total,
    }
}

// The value of the tree of the variable that the pairs name at `at`.
pub fn value_of(
    w: &[u32],
    pairs: &[u32],
    at: usize,
    places: &[u32; MOST_VARIABLES],
    bound: usize,
) -> u32
    ensures { result ≡ get_or w.now (start_at (vars_of places.now bound) (get_or pairs.now at 0) + 1) 0 }
{
    let start = crate::start_in(places, bound, words::word(pairs, at));
    words::word(w, start + 1)
}

// Finishes the tree of n nodes at `top`: marks it, and tests its nesting.
pub fn close(types: &Types, w: &mut [u32], top: usize, n: usize) -> Result<(), Halt>
    requires { (n ≤ 6144) × (top + 2 * n ≤ length w.old) }
    ensures { Closed types.now w.old w.new top n result }
{
    marks::mark_tree(types, w, top, top + 2 * n);
    if MOST_NESTING < marks::nesting_in(words::word(w, top)) {
        Err(Halt::new(Stop::NestsTooDeep))
    } else {
        Ok(())
    }
}

// Would the scope, n nodes from base on, nest too deep with the tree at `from` in the place of its node i? Not if that nests no deeper than the node's own
// tree: only otherwise is the way down to the node walked.
fn too_deep(types: &Types, w: &[u32], base: usize, n: usize, i: usize, from: usize) -> bool
    requires { (i < n) × (n ≤ 6144) × (base + 2 * n ≤ length w.now) }
    ensures { TooDeep types.now w.now base n i from result }
{
    let place = base + 2 * i;
    let end = base + 2 * n;
    let deepest = marks::nesting_in(words::word(w, from));
    if deepest <= marks::nesting_in(words::word(w, place)) {
        return false;
    }
    let above = marks::nesting_at(types, &w[base..end], place - base);
    MOST_NESTING + 1 < above + deepest
}

// Puts the tree of m nodes at `from` in the place of node i of the scope, n nodes from base on, unless the scope had too many nodes or nested too deep then: how
// many nodes it has.
pub fn replace_tree(
    types: &Types,
    w: &mut [u32],
    base: usize,
    n: usize,
    i: usize,
    from: usize,
    m: usize,
) -> Result<usize, Halt>
    requires { (i < n) × (n ≤ 6144) × (m ≤ 6144) × (base + 2 * n ≤ from) × (from + 2 * m + 2 * n ≤ length w.old) }
    ensures { Replaced types.now w.old w.new base n i from m result }
{
    let place = base + 2 * i;
    let old = marks::size_at(w, place);
    if n < old {
        return Ok(n);
    }
    let nodes = n - old + m;
    check_nodes(nodes)?;
    if too_deep(types, w, base, n, i, from) {
        return Err(Halt::new(Stop::NestsTooDeep));
    }
    marks::put_in_place(types, w, base, place, base + 2 * n, from, 2 * m);
    Ok(nodes)
}

// Writes what an operation makes of the number at base, with the argument b.
pub fn compute_at(w: &mut [u32], base: usize, op: u32, b: u32) -> Result<(), Halt>
    requires { base + 2 ≤ length w.old }
    ensures { Computed w.old w.new base op b result }
{
    let a = words::word(w, base + 1);
    let made = operations::operate(op, a, b)?;
    w[base + 1] = made;
    Ok(())
}
