// Trees in work memory: the first word of each node carries its type and the size and nesting of its tree.
#![tactic(auto)]

ghost use Rattle.std.specs.Prelude.{◌≡◌, ◌+◌, ◌-◌, ◌*◌, ◌%◌, ◌<◌, ◌≤◌, ◌^◌, eqb, length, get_or};
ghost use Rattle.words.specs.Reader.{pick, and};
ghost use Rattle.marks.specs.Marked.{mark, type_in, size_in, nesting_in};
ghost use Rattle.marks.specs.Post.{MarkMade, NodeMarked, TreeMarked, AboveMarked, Resized, InPlace, NestingOf, SameTree, HoldsBlank};

use tables::Types;

// The type of a marked node.
pub fn type_in(w: u32) -> u32
    ensures { result ≡ type_in w }
{
    w % 64
}

// How many nodes the tree of a marked node has.
pub fn size_in(w: u32) -> usize
    ensures { (result ≡ size_in w) × (result < 4096) }
{
    (w / 64 % 4096) as usize
}

// How many nodes the tree has whose marked node stands at `at`.
pub fn size_at(w: &[u32], at: usize) -> usize
    ensures { (result ≡ size_in (get_or w.now at 0)) × (result < 4096) }
{
    size_in(words::word(w, at))
}

// How deep the tree of a marked node nests.
pub fn nesting_in(w: u32) -> usize
    ensures { (result ≡ nesting_in w) × (result < 16384) }
{
    (w / 262144) as usize
}

// How much deeper child i nests in its parent's tree: the rest of a sequence keeps its parent's nesting.
fn level(sequence: bool, i: usize) -> usize
    ensures { (result ≡ pick (and sequence (eqb i 1)) 0 1) × (result ≤ 1) }
{
    if sequence && i == 1 { 0 } else { 1 }
}

// A marked word.
fn pack(t: u32, n: usize, k: usize) -> u32
    requires { (n < 2 ^ 32) × (k < 2 ^ 32) }
    ensures { mark t n k < 2 ^ 32 → result ≡ mark t n k }
{
    let w = t as usize + 64 * n + 262144 * k;
    (w % 4294967296) as u32
}

// The mark of a node (t, v), whose children's marked trees the words below begin with.
fn mark_of(types: &Types, t: u32, v: u32, below: &[u32]) -> u32
    ensures { MarkMade types.now t v below.now result }
{
    let count = types.child_count(t, v);
    let sequence = types.is_sequence(t);
    let mut size: usize = 1;
    let mut deepest: usize = 1;
    let mut at: usize = 0;
    for i in 0..count {
        let w = words::word(below, at);
        let n = size_in(w);
        let k = nesting_in(w) + level(sequence, i);
        deepest = deepest.max(k);
        size += n;
        at += 2 * n;
    }
    pack(t, size, deepest)
}

// Marks the node at p of a tree that ends by top: its children's trees are marked.
fn mark_node(types: &Types, w: &mut [u32], p: usize, top: usize)
    requires { (p + 2 ≤ top) × (top ≤ length w.old) }
    ensures { NodeMarked types.now w.old w.new p top }
{
    let below = p + 2;
    let t = type_in(w[p]);
    let v = w[p + 1];
    let arena = &w[..];
    let m = mark_of(types, t, v, &arena[below..top]);
    w[p] = m;
}

// Marks the tree that stands from base to top, the last node first: a node's children are marked before it. What is marked is passed over: a copied tree has
// its marks.
pub fn mark_tree(types: &Types, w: &mut [u32], base: usize, top: usize)
    requires { (base ≤ top) × (top ≤ length w.old) }
    ensures { TreeMarked types.now w.old w.new base top }
{
    for i in (0..(top - base) / 2).rev() {
        let p = base + 2 * i;
        if size_in(w[p]) == 0 {
            mark_node(types, w, p, top);
        }
    }
}

// Marks a tree anew that stands from base to top, where another tree was put in the place: only the nodes above it, since a tree that ended by the place has
// not changed.
fn mark_above(types: &Types, w: &mut [u32], base: usize, place: usize, top: usize)
    requires { (base ≤ place) × (place ≤ top) × (top ≤ length w.old) }
    ensures { AboveMarked types.now w.old w.new base place top }
{
    for i in (0..(place - base) / 2).rev() {
        let p = base + 2 * i;
        let end = p + 2 * size_in(w[p]);
        if place < end {
            mark_node(types, w, p, top);
        }
    }
}

// The mark of a tree in which one of `was` nodes gives way to one of `will` nodes that nests as deep.
fn resized(w: u32, was: usize, will: usize) -> u32
    requires { (was ≤ 4096) × (will ≤ 4096) }
    ensures { result ≡ (w + (4294967296 + 64 * will - 64 * was)) % 4294967296 }
{
    let more = 4294967296 + 64 * will - 64 * was;
    ((w as usize + more) % 4294967296) as u32
}

// Marks the nodes above the place where the tree put there nests as deep as the old one, so that only sizes change: from the root down, trees that end by
// the place are stepped over.
fn resize_above(w: &mut [u32], base: usize, place: usize, was: usize, will: usize)
    requires { (base ≤ place) × (place ≤ length w.old) × (was ≤ 4096) × (will ≤ 4096) }
    ensures { Resized w.old w.new base place was will }
{
    let mut p = base;
    // Steps over whole trees, so no range counts it.
    while p < place {
        let n = size_in(w[p]);
        let end = p + 2 * n;
        if n == 0 {
            return;
        }
        if end <= place {
            p = end;
        } else {
            w[p] = resized(w[p], was, will);
            p += 2;
        }
    }
}

// Puts the tree of n words that stands at `from` in the place of the tree that stands there, in the scope from base to end: what follows goes behind
// the new tree, then both move down. If their first words are the same, the trees are equally large and deep: then nothing else changes.
pub fn put_in_place(
    types: &Types,
    w: &mut [u32],
    base: usize,
    place: usize,
    end: usize,
    from: usize,
    n: usize,
)
    requires { (base ≤ place) × (place < end) × (end ≤ from) × (from + n + (end - place) ≤ length w.old) }
    ensures { InPlace types.now w.old w.new base place end from n }
{
    let old = w[place];
    let new = w[from];
    if old == new {
        words::move_down(w, from, place, n);
        return;
    }
    let after = place + 2 * size_in(old);
    if end < after {
        return;
    }
    let rest = end - after;
    words::copy_up(w, after, from + n, rest);
    words::move_down(w, from, place, n + rest);
    if nesting_in(old) == nesting_in(new) {
        resize_above(w, base, place, size_in(old), size_in(new));
    } else {
        mark_above(types, w, base, place, place + (n + rest));
    }
}

// How deep the node at q of the part's tree is nested: from the root down, trees that end before it are stepped over.
pub fn nesting_at(types: &Types, part: &[u32], q: usize) -> usize
    requires { q < length part.now }
    ensures { NestingOf types.now part.now q result × (result ≤ q + 2) }
{
    let mut p: usize = 0;
    let mut above: usize = 0;
    let mut sequence = false;
    let mut i: usize = 0;
    // Steps over whole trees, so no range counts it.
    while p < q {
        let w = part[p];
        let n = size_in(w);
        let end = p + 2 * n;
        if n == 0 {
            return 0;
        }
        if end <= q {
            p = end;
            i += 1;
        } else {
            above += level(sequence, i);
            sequence = types.is_sequence(type_in(w));
            i = 0;
            p += 2;
        }
    }
    above + level(sequence, i)
}

// Is the tree that stands at `start` the same as that which the part begins with?
pub fn same_tree(arena: &[u32], start: usize, part: &[u32]) -> bool
    requires { start < 2 ^ 32 }
    ensures { SameTree arena.now start part.now result }
{
    let n = 2 * size_in(words::word(arena, start));
    let m = 2 * size_in(words::word(part, 0));
    let end = start + n;
    if n != m || arena.len() < end || part.len() < m {
        return false;
    }
    arena[start..end] == part[..m]
}

// Does the tree that the part begins with hold a blank, a name or string of value 0?
pub fn holds_blank(types: &Types, part: &[u32]) -> bool
    ensures { HoldsBlank types.now part.now result }
{
    let end = 2 * size_in(words::word(part, 0));
    if part.len() < end {
        return false;
    }
    part[..end]
        .chunks_exact(2)
        .any(|pair| types.is_text(type_in(pair[0])) && pair[1] == 0)
}
