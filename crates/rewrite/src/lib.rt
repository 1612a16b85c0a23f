// The variables of an open call, and patterns set against trees in work memory.
//
// Where the variables' trees stand is kept in one array of 16 places for a call, lent to all that bind or read them; how many are bound goes by value. What a
// failed attempt bound lies past that count, and is written over.
#![tactic(auto)]

ghost use Rattle.std.specs.Prelude.{◌≡◌, ◌+◌, ◌<◌, ◌≤◌, ◌^◌, length};
ghost use Rattle.rewrite.specs.Vars.{vars_of, start_at, Sound};
ghost use Rattle.rewrite.specs.Matching.{NewTold, VariableTold, PairTold, match_in, MatchAnswers, FirstAnswers};

use meaning::{Halt, Stop};
use rules::limits::{MARK_NEW, MARK_VARIABLE, MOST_VARIABLES};
use tables::Types;

pub mod arena;
pub mod candidates;

pub const MOST_LIVE: usize = 6144;

// What setting a pattern against a tree, or a part's step, comes to. Three outcomes with names are plainer here than an Option in a Result.
#[derive(Clone, Copy)]
pub enum Verdict {
    Matches,
    Differs,
    Stops(Halt),
}

// What a match found, how many variables are bound after it, and how many nodes are live then.
#[derive(Clone, Copy)]
pub struct Matched {
    pub verdict: Verdict,
    pub bound: usize,
    pub live: usize,
}

// A place of work memory, as it is kept. Its range is known here, and would not be at an index.
fn place(x: u32) -> usize
    ensures { (result ≡ x) × (result < 2 ^ 32) }
{
    x as usize
}

// Where the variable's tree stands, of n that are bound; 2^32 - 1, where none can stand, if it is not bound. A book that passes the check reads no such variable: to
// tell one apart would only add a branch that is never taken.
#[tactic(auto, using(crate::proofs::Matcher::start_past))]
pub fn start_in(starts: &[u32; MOST_VARIABLES], n: usize, x: u32) -> usize
    ensures { (result ≡ start_at (vars_of starts.now n) x) × (result < 2 ^ 32) }
{
    let i = x as usize;
    if i < n && i < MOST_VARIABLES {
        place(starts[i])
    } else {
        4294967295
    }
}

// How many words a new variable of the type takes up at the node w; or what the match comes to, if it cannot be bound or too many nodes would be live.
fn new_words(w: u32, ty: u32, n: usize, live: usize) -> Result<usize, Verdict>
    requires { live ≤ 6144 }
    ensures { NewTold w ty n live result }
{
    if marks::type_in(w) != ty {
        return Err(Verdict::Differs);
    }
    let size = marks::size_in(w);
    if MOST_LIVE < live + size {
        return Err(Verdict::Stops(Halt::new(Stop::TooManyLiveNodes)));
    }
    if MOST_VARIABLES <= n {
        return Err(Verdict::Differs);
    }
    Ok(2 * size)
}

// Does a variable whose tree stands at `start` match the tree that the part begins with? Most are found to differ: only an equal one is asked for blanks.
fn matches_variable(types: &Types, arena: &[u32], start: usize, part: &[u32]) -> bool
    requires { start < 2 ^ 32 }
    ensures { VariableTold types.now arena.now start part.now result }
{
    marks::same_tree(arena, start, part) && !marks::holds_blank(types, part)
}

// How many words the pair (t, v) takes up at p of the part, with n variables bound; or what the match comes to, if it differs or too many nodes would be live.
fn pair_words(
    types: &Types,
    t: u32,
    v: u32,
    arena: &[u32],
    part: &[u32],
    p: usize,
    places: &[u32; MOST_VARIABLES],
    n: usize,
    live: usize,
) -> Result<usize, Verdict>
    requires { (p < 2 ^ 32) × (live ≤ 6144) }
    ensures { PairTold types.now arena.now part.now t v (start_at (vars_of places.now n) v) p n live result }
{
    if part.len() < p + 2 {
        return Err(Verdict::Differs);
    }
    let w = part[p];
    if t == MARK_NEW {
        return new_words(w, v, n, live);
    }
    if t == MARK_VARIABLE {
        let start = start_in(places, n, v);
        return if matches_variable(types, arena, start, &part[p..]) {
            Ok(2 * marks::size_in(w))
        } else {
            Err(Verdict::Differs)
        };
    }
    if marks::type_in(w) == t && part[p + 1] == v {
        Ok(2)
    } else {
        Err(Verdict::Differs)
    }
}

// The pattern's pairs set against the tree that the part of the arena begins with, at `at`. The table stands last, since few patterns come to it: what stands first
// is handed on in registers.
pub fn match_pattern(
    pairs: &[u32],
    arena: &[u32],
    part: &[u32],
    at: usize,
    places: &mut [u32; MOST_VARIABLES],
    bound: usize,
    held: usize,
    types: &Types,
) -> Matched
    requires { (length pairs.now ≤ 256) × (at < 2 ^ 20) × Sound (vars_of places.old bound) × (held ≤ 6144) }
    ensures { MatchAnswers types.now pairs.now arena.now part.now at (vars_of places.old bound) held (match_in places.new result) }
{
    let mut n = bound;
    let mut live = held;
    let mut p: usize = 0;
    for i in 0..pairs.len() / 2 {
        let t = pairs[2 * i];
        let v = pairs[2 * i + 1];
        let passed = match pair_words(types, t, v, arena, part, p, places, n, live) {
            Ok(passed) => passed,
            Err(verdict) => {
                return Matched {
                    verdict,
                    bound: n,
                    live,
                };
            }
        };
        if t == MARK_NEW {
            places[n] = (at + p) as u32;
            n += 1;
            live += passed / 2;
        }
        p += passed;
    }
    Matched {
        verdict: Verdict::Matches,
        bound: n,
        live,
    }
}

// The first node of the type, parent first and left to right, that the pattern matches: a deconstruct that searches.
pub fn match_first(
    ty: u32,
    pairs: &[u32],
    arena: &[u32],
    part: &[u32],
    at: usize,
    places: &mut [u32; MOST_VARIABLES],
    bound: usize,
    live: usize,
    types: &Types,
) -> Matched
    requires { (length pairs.now ≤ 256) × (at + length part.now < 2 ^ 20) × Sound (vars_of places.old bound) × (live ≤ 6144) }
    ensures { FirstAnswers types.now ty pairs.now arena.now part.now at (vars_of places.old bound) live (match_in places.new result) }
{
    for i in 0..part.len() / 2 {
        let p = 2 * i;
        if marks::type_in(part[p]) == ty {
            let m = match_pattern(pairs, arena, &part[p..], at + p, places, bound, live, types);
            match m.verdict {
                Verdict::Matches | Verdict::Stops(_) => {
                    return m;
                }
                Verdict::Differs => {}
            }
        }
    }
    Matched {
        verdict: Verdict::Differs,
        bound,
        live,
    }
}
