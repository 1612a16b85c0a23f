// The operations on sequences (join, select, head, tail, length, extract), on marked trees in work memory. The scope lies on top: its result takes its place.
//
// A sequence grows and is cut at its end. So its own nodes lose their marks first; its elements keep theirs, and what is then under way is finished like
// any other tree.
#![tactic(auto)]

ghost use Rattle.std.specs.Prelude.{◌≡◌, ◌∷◌, ◌++◌, ◌+◌, ◌*◌, ◌/◌, ◌<◌, ◌≤◌, ◌^◌, length, get_or, take, drop};
ghost use Rattle.sequences.specs.Listed.{Walks, Loosened, Seals, Finishes, Collects, JoinsSequence, Extracts, Joins, FrontCut, Selects, Counts, Edits};

use meaning::{Halt, Stop};
use rewrite::arena;
use rules::limits::{COUNT, EXTRACT, HEAD, JOIN, TAIL};
use tables::Types;
use tree::limits::MOST_NODES;

// A rest of a sequence: the number of its first node in the sequence, and how many elements are before it.
#[derive(Clone, Copy)]
pub struct Walked {
    pub node: usize,
    pub passed: usize,
}

// The rest after `most` elements of the sequence of n nodes at base; its last node, if it has no more.
fn walk(w: &[u32], base: usize, n: usize, most: usize) -> Walked
    requires { (n ≤ 2048) × (base < 2 ^ 32) }
    ensures { Walks w.now base n most result }
{
    let mut node: usize = 0;
    for passed in 0..most {
        let p = base + 2 * node;
        let next = node + 1 + marks::size_at(w, p + 2);
        if words::word(w, p + 1) != 0 || n < next {
            return Walked { node, passed };
        }
        node = next;
    }
    Walked { node, passed: most }
}

// Takes the marks off the nodes of a sequence's own among its first k, which hold whole elements. Each turn steps over a whole element, so no range counts it.
fn loosen(w: &mut [u32], base: usize, k: usize)
    requires { (k ≤ 2048) × (base + 2 * k + 2 ≤ length w.old) }
    ensures { Loosened w.old w.new base k }
{
    let mut i: usize = 0;
    while i < k {
        let p = base + 2 * i;
        let n = marks::size_in(w[p + 2]);
        w[p] = marks::type_in(w[p]);
        i += 1 + n;
    }
}

// Finishes the tree of n nodes under way at base: marks it, and tests 43 and 44.
fn seal(types: &Types, w: &mut [u32], base: usize, n: usize, besides: usize) -> Result<usize, Halt>
    requires { (n ≤ 2048) × (base + 2 * n ≤ length w.old) × (besides ≤ 6144) }
    ensures { Seals types.now w.old w.new base n besides result }
{
    arena::close(types, w, base, n)?;
    arena::check_live(besides + n)?;
    Ok(n)
}

// Writes an element behind a node of the sequence's own type: the tree of m nodes at `start`, below.
fn extend(w: &mut [u32], to: usize, t: u32, start: usize, m: usize)
    requires { (0 < m → start + 2 * m ≤ to) × (to + 2 + 2 * m ≤ length w.old) }
    ensures { w.new ≡ take to w.old ++ (t ∷ 0 ∷ (take (2 * m) (drop start w.old) ++ drop (to + 2 + 2 * m) w.old)) }
{
    arena::push_node(w, to, t, 0);
    arena::push_tree(w, start, m, to + 2);
}

// Finishes the sequence of type t whose first k nodes, all but its last, are under way at base.
fn finish(
    types: &Types,
    w: &mut [u32],
    t: u32,
    base: usize,
    k: usize,
    besides: usize,
) -> Result<usize, Halt>
    requires { (k < 2048) × (base + 2 * k + 2 ≤ length w.old) × (besides ≤ 6144) }
    ensures { Finishes types.now w.old w.new t base k besides result }
{
    arena::push_node(w, base + 2 * k, t, 1);
    seal(types, w, base, k + 1, besides)
}

// Appends the trees of type e in the tree of m nodes at `start` to the sequence of type t, whose first k nodes are under way at base: how many are under way then, or
// 42 as soon as there would be more than `most`. A tree taken is stepped over whole, so no range counts the turns.
fn collect(
    w: &mut [u32],
    e: u32,
    t: u32,
    base: usize,
    k: usize,
    start: usize,
    m: usize,
    most: usize,
) -> Result<usize, Halt>
    requires { (k ≤ most) × (most ≤ 2047) × (m ≤ 2048) × (0 < m → start + 2 * m ≤ base) × (base + 4096 ≤ length w.old) }
    ensures { Collects w.old w.new e t base k start m most result }
{
    let mut nodes = k;
    let mut i: usize = 0;
    while i < m {
        let p = start + 2 * i;
        let x = w[p];
        let n = marks::size_in(x);
        if marks::type_in(x) != e {
            i += 1;
        } else {
            if n == 0 || m < i + n {
                return Ok(nodes);
            }
            if most < nodes + 1 + n {
                return Err(Halt::new(Stop::TooManyNodes));
            }
            extend(w, base + 2 * nodes, t, p, n);
            nodes += 1 + n;
            i += n;
        }
    }
    Ok(nodes)
}

// Joins the sequence of m nodes at `start`, of the same type: it takes the place of the last node.
fn join_sequence(
    types: &Types,
    w: &mut [u32],
    base: usize,
    n: usize,
    start: usize,
    m: usize,
    under: usize,
    besides: usize,
) -> Result<usize, Halt>
    requires { (1 ≤ n) × (n ≤ 2048) × (m ≤ 2048) × (0 < m → start + 2 * m ≤ base) × (under ≤ 2048) × (besides ≤ 6144) × (base + 4096 ≤ length w.old) }
    ensures { JoinsSequence types.now w.old w.new base n start m under besides result }
{
    let last = n - 1;
    let nodes = last + m;
    arena::check_nodes(under + nodes)?;
    loosen(w, base, last);
    arena::push_tree(w, start, m, base + 2 * last);
    seal(types, w, base, nodes, besides)
}

// Appends the trees of the element's type in the tree at `start`. Those in a sequence of the same type are its elements, unless it is of itself.
fn extract(
    types: &Types,
    w: &mut [u32],
    base: usize,
    n: usize,
    start: usize,
    under: usize,
    besides: usize,
) -> Result<usize, Halt>
    requires { (1 ≤ n) × (n ≤ 2048) × (start < 2 ^ 32) × (under ≤ 2048) × (besides ≤ 6144) × (base + 4096 ≤ length w.old) }
    ensures { Extracts types.now w.old w.new base n start under besides result }
{
    let t = marks::type_in(words::word(w, base));
    let e = types.child(t, 0, 0);
    let m = arena::nodes_at(w, start, base);
    if t != e && marks::type_in(words::word(w, start)) == t {
        return join_sequence(types, w, base, n, start, m, under, besides);
    }
    arena::check_nodes(under + n)?;
    let most = MOST_NODES - under - 1;
    loosen(w, base, n - 1);
    let k = collect(w, e, t, base, n - 1, start, m, most)?;
    finish(types, w, t, base, k, besides)
}

// Joins the tree at `start`: a sequence of the same type, or else one element. What comes behind the scope is then what extract takes, unless the sequence is
// of itself.
fn join(
    types: &Types,
    w: &mut [u32],
    base: usize,
    n: usize,
    start: usize,
    under: usize,
    besides: usize,
) -> Result<usize, Halt>
    requires { (1 ≤ n) × (n ≤ 2048) × (start < 2 ^ 32) × (under ≤ 2048) × (besides ≤ 6144) × (base + 4096 ≤ length w.old) }
    ensures { Joins types.now w.old w.new base n start under besides result }
{
    let t = marks::type_in(words::word(w, base));
    if types.child(t, 0, 0) == t {
        let m = arena::nodes_at(w, start, base);
        return join_sequence(types, w, base, n, start, m, under, besides);
    }
    extract(types, w, base, n, start, under, besides)
}

// Cuts the first k elements off the sequence of n nodes at base; how many nodes are left.
fn cut_front(w: &mut [u32], base: usize, n: usize, k: usize) -> usize
    requires { (n ≤ 2048) × (base < 2 ^ 32) × (base + 2 * n ≤ length w.old) }
    ensures { FrontCut w.old w.new base n k result }
{
    let r = walk(w, base, n, k);
    let left = n - r.node;
    words::move_down(w, base + 2 * r.node, base, 2 * left);
    left
}

// Selects the elements from a to b, counted from 1.
fn select(
    types: &Types,
    w: &mut [u32],
    base: usize,
    n: usize,
    a: usize,
    b: usize,
    under: usize,
    besides: usize,
) -> Result<usize, Halt>
    requires { (n ≤ 2048) × (base < 2 ^ 32) × (under ≤ 2048) × (besides + n ≤ 6144) × (base + 4096 ≤ length w.old) }
    ensures { Selects types.now w.old w.new base n a b under besides result }
{
    let skip = a.saturating_sub(1);
    let t = marks::type_in(words::word(w, base));
    let m = cut_front(w, base, n, skip);
    let r = walk(w, base, m, b.saturating_sub(skip));
    let kept = r.node + 1;
    arena::check_nodes(under + kept)?;
    // Where nothing is cut off at the end, what is left stands marked.
    if kept == m {
        return Ok(kept);
    }
    loosen(w, base, r.node);
    finish(types, w, t, base, r.node, besides)
}

// The number of elements of the sequence at `start`, in hundredths, as the value of the number at base.
fn count(
    w: &mut [u32],
    base: usize,
    start: usize,
    under: usize,
    besides: usize,
) -> Result<usize, Halt>
    requires { (start < 2 ^ 32) × (under ≤ 2048) × (besides ≤ 6144) × (base + 2 ≤ length w.old) }
    ensures { Counts w.old w.new base start under besides result }
{
    let m = arena::nodes_at(w, start, base);
    let r = walk(w, start, m, m);
    arena::check_nodes(under + 1)?;
    arena::check_live(besides + 1)?;
    w[base + 1] = (100 * r.passed) as u32;
    Ok(1)
}

// The position that the number at `start` stands for.
fn position(w: &[u32], start: usize) -> usize
    requires { start < 2 ^ 32 }
    ensures { result ≡ get_or w.now (start + 1) 0 / 100 }
{
    (words::word(w, start + 1) / 100) as usize
}

// What the operation makes of the tree of n nodes at base, with the trees at `first` and `second`, below, as arguments: it takes the tree's place, or is stopped by 42,
// 43 or 44. The tree under way has so many nodes so far, and so many are live besides.
pub fn edit(
    types: &Types,
    w: &mut [u32],
    op: u32,
    base: usize,
    n: usize,
    first: usize,
    second: usize,
    under: usize,
    besides: usize,
) -> Result<usize, Halt>
    requires { (n ≤ 2048) × (first < 2 ^ 32) × (second < 2 ^ 32) × (under ≤ 2048) × (besides + n ≤ 6144) × (base ≤ 2 * besides) × (16384 ≤ length w.old) }
    ensures { Edits types.now w.old w.new op base n first second under besides result }
{
    if n == 0 {
        return Err(Halt::new(Stop::TooManyNodes));
    }
    match op {
        JOIN => join(types, w, base, n, first, under, besides),
        COUNT => count(w, base, first, under, besides),
        EXTRACT => extract(types, w, base, n, first, under, besides),
        HEAD => {
            let a = position(w, first);
            select(types, w, base, n, 1, a, under, besides)
        }
        TAIL => {
            let a = position(w, first);
            select(types, w, base, n, a, n, under, besides)
        }
        _ => {
            let a = position(w, first);
            let b = position(w, second);
            select(types, w, base, n, a, b, under, besides)
        }
    }
}
