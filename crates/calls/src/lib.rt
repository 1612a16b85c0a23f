// The recursive calls of a run. Trees lie on work memory as on a stack: the scopes of the open calls, what their parts construct, the tree under way.
//
// Every member of the cycle may call those below it, and `apply` and `succeeds` the calls one level deeper. All that is below what a member is given stays
// as it is, and so do the places of the variables that are bound: each call has one array of them, lent to all that it calls on its own level.
#![tactic(auto)]

ghost use Rattle.std.specs.Prelude.{◌≡◌, ◌+◌, ◌*◌, ◌<◌, ◌≤◌, ◌^◌, length, Ok};
ghost use Rattle.std.specs.Result.{result_and};
ghost use Rattle.rewrite.specs.Vars.{vars_of, Sound};
ghost use Rattle.calls.specs.Engine.{turned_by, open_of, taking_in, seeking_in, Named, Room, given_of, scope_of, found_verdict, Deconstructs, Constructs, Conditions, Steps, Seeks, CallMatches, Succeeds, AnySucceeds, EditsAt, Applies, Chains, FillsChain, Fills, Finishes, Replaces, Calls};

use meaning::{Halt, State, Stop};
use rewrite::arena::Frame;
use rewrite::{MOST_LIVE, Matched, Verdict, arena, candidates};
use rules::limits::{FIRST_OPERATION, JOIN, MARK_CHAIN, MARK_VARIABLE, MOST_VARIABLES};
use rules::{Condition, Deconstruct, Part, Plan, Program};
use tables::Types;

// What a part's step found, what is open then, the state that is left, and where the next part stands.
#[derive(Clone, Copy)]
pub struct Taken {
    pub verdict: Verdict,
    pub frame: Frame,
    pub left: State,
    pub next: usize,
}

// Where a search ended, at a node by its number in the scope, nowhere, or by a stop; what is open then, the state that is left, and where the rule's replacement
// stands.
#[derive(Clone, Copy)]
pub struct Sought {
    pub found: Result<Option<usize>, Halt>,
    pub frame: Frame,
    pub left: State,
    pub next: usize,
}

// Whether an application of a condition succeeds, and the state that is left.
#[derive(Clone, Copy)]
pub struct Tested {
    pub verdict: Verdict,
    pub left: State,
}

// How many nodes the tree has that was built, or the stop; and the state that is left.
#[derive(Clone, Copy)]
pub struct Built {
    pub nodes: Result<usize, Halt>,
    pub left: State,
}

// What a chain made of its tree, and where the pairs after the chain begin.
#[derive(Clone, Copy)]
pub struct Chained {
    pub built: Built,
    pub next: usize,
}

// What a call left: the stop, if it was stopped; the nodes of its scope, the state that is left, and its replacements.
#[derive(Clone, Copy)]
pub struct Called {
    pub stop: Option<Halt>,
    pub nodes: usize,
    pub left: State,
    pub replacements: u32,
}

impl Called {
    // The nodes of its scope, unless it was stopped.
    fn scope(&self) -> Result<usize, Halt>
        ensures { result ≡ scope_of self.now }
    {
        match self.stop {
            None => Ok(self.nodes),
            Some(halt) => Err(halt),
        }
    }
}

// The other verdict, if the condition holds where none succeeds.
fn turned(verdict: Verdict, negated: bool) -> Verdict
    ensures { result ≡ turned_by negated verdict }
{
    match verdict {
        Verdict::Matches if negated => Verdict::Differs,
        Verdict::Differs if negated => Verdict::Matches,
        _ => verdict,
    }
}

// What a search comes to, as a condition's verdict.
fn verdict_of(found: Result<Option<usize>, Halt>) -> Verdict
    ensures { result ≡ found_verdict found }
{
    match found {
        Ok(Some(_)) => Verdict::Matches,
        Ok(None) => Verdict::Differs,
        Err(halt) => Verdict::Stops(halt),
    }
}

// What is open after a match.
fn after_match(m: Matched, top: usize) -> Frame
    ensures { result ≡ record { bound = m.bound; live = m.live; top = top } }
{
    Frame {
        bound: m.bound,
        live: m.live,
        top,
    }
}

// What a match found, as a part's step.
fn match_taken(m: Matched, top: usize, left: State, next: usize) -> Taken
    ensures { result ≡ record { verdict = m.verdict; frame = record { bound = m.bound; live = m.live; top = top }; left = left; next = next } }
{
    Taken {
        verdict: m.verdict,
        frame: after_match(m, top),
        left,
        next,
    }
}

// A part that takes a variable apart.
fn deconstruct(
    program: &Program,
    w: &[u32],
    d: Deconstruct,
    next: usize,
    places: &mut [u32; MOST_VARIABLES],
    frame: Frame,
    left: State,
) -> Taken
    requires { Room w.now (open_of places.old frame) }
    ensures { Deconstructs (given_of program.now) w.now d next (open_of places.old frame) left (taking_in places.new result) }
{
    let types = program.types;
    let book = program.book;
    let pairs = rules::pairs_of(book, d.pattern);
    let bound = frame.bound;
    let live = frame.live;
    let top = frame.top;
    let start = rewrite::start_in(places, bound, words::word(book, d.variable));
    let n = arena::nodes_at(w, start, top);
    if n == 0 {
        return Taken {
            verdict: Verdict::Differs,
            frame,
            left,
            next,
        };
    }
    let arena = &w[..top];
    let part = &arena[start..start + 2 * n];
    let m = match d.searched {
        Some(ty) => {
            rewrite::match_first(ty, pairs, arena, part, start, places, bound, live, types)
        }
        None => rewrite::match_pattern(pairs, arena, part, start, places, bound, live, types),
    };
    match_taken(m, top, left, next)
}

// Binds one more variable, whose tree stands at `start`, if there is room for it: how many are bound then.
fn bind(places: &mut [u32; MOST_VARIABLES], n: usize, start: usize) -> usize
    requires { Sound (vars_of places.old n) × (start < 2 ^ 32) }
    ensures { Named (vars_of places.old n) start (vars_of places.new result) }
{
    if n < MOST_VARIABLES {
        places[n] = start as u32;
        return n + 1;
    }
    n
}

// So many nodes, unless there is a stop.
fn with_nodes(checked: Result<(), Halt>, nodes: usize) -> Result<usize, Halt>
    ensures { result ≡ result_and checked (Ok nodes) }
{
    checked?;
    Ok(nodes)
}

// THE CYCLE

// A part that builds a tree.
#[cycle(engine)]
fn construct(
    program: &Program,
    w: &mut [u32],
    at: usize,
    next: usize,
    places: &mut [u32; MOST_VARIABLES],
    frame: Frame,
    deep: usize,
    left: State,
) -> Taken
    requires { Room w.old (open_of places.old frame) }
    ensures { Constructs (given_of program.now) w.old w.new at next (open_of places.old frame) deep left (taking_in places.new result) }
{
    let b = finish(program, w, at, places, frame, deep, left);
    match b.nodes {
        Err(halt) => Taken {
            verdict: Verdict::Stops(halt),
            frame,
            left: b.left,
            next,
        },
        Ok(nodes) => {
            let bound = bind(places, frame.bound, frame.top);
            let more = Frame {
                bound,
                live: frame.live + nodes,
                top: frame.top + 2 * nodes,
            };
            Taken {
                verdict: Verdict::Matches,
                frame: more,
                left: b.left,
                next,
            }
        }
    }
}

// A part that tests.
#[cycle(engine)]
fn condition(
    program: &Program,
    w: &mut [u32],
    c: Condition,
    next: usize,
    places: &[u32; MOST_VARIABLES],
    frame: Frame,
    deep: usize,
    left: State,
) -> Taken
    requires { Room w.old (open_of places.now frame) }
    ensures { Conditions (given_of program.now) w.old w.new c.negated c.chain next (open_of places.now frame) deep left (taking_in places.now result) }
{
    let book = program.book;
    let pairs = rules::pairs_of(book, c.chain);
    let start = rewrite::start_in(places, frame.bound, words::word(pairs, 1));
    let n = arena::nodes_at(w, start, frame.top);
    if MOST_LIVE < frame.live + n {
        return Taken {
            verdict: Verdict::Stops(Halt::new(Stop::TooManyLiveNodes)),
            frame,
            left,
            next,
        };
    }
    let t = any_succeeds(program, w, pairs, start, n, places, frame, deep, left);
    Taken {
        verdict: turned(t.verdict, c.negated),
        frame,
        left: t.left,
        next,
    }
}

// The part whose map stands at a position.
#[cycle(engine)]
fn step(
    program: &Program,
    w: &mut [u32],
    at: usize,
    places: &mut [u32; MOST_VARIABLES],
    frame: Frame,
    deep: usize,
    left: State,
) -> Taken
    requires { Room w.old (open_of places.old frame) }
    ensures { Steps (given_of program.now) w.old w.new at (open_of places.old frame) deep left (taking_in places.new result) }
{
    let book = program.book;
    let f = rules::part_of(book, at);
    let next = f.next;
    match f.part {
        Part::Deconstruct(d) => deconstruct(program, w, d, next, places, frame, left),
        Part::Construct(c) => construct(program, w, c.replacement, next, places, frame, deep, left),
        Part::Condition(c) => { condition(program, w, c, next, places, frame, deep, left) }
    }
}

// The first node of the scope, n nodes from base on, at which an attempt matches, sought from the node `from` on. Document 01's nested loops over nodes and
// parts: left by a label at the first match, yielding its position by `break`.
#[cycle(engine)]
#[tactic(auto, using(crate::proofs::Searching::tried_inside))]
fn seek(
    program: &Program,
    w: &mut [u32],
    plan: Plan,
    base: usize,
    n: usize,
    places: &mut [u32; MOST_VARIABLES],
    frame: Frame,
    deep: usize,
    left: State,
    from: usize,
) -> Sought
    requires { Room w.old (open_of places.old frame) × (plan.count ≤ 8) × (base < 2 ^ 32) × (n ≤ 2048) × (0 < n → base + 2 * n ≤ frame.top) }
    ensures { Seeks (given_of program.now) w.old w.new plan base n (open_of places.old frame) deep left from (seeking_in places.new result) }
{
    let types = program.types;
    let book = program.book;
    let pairs = rules::pairs_of(book, plan.pattern);
    let last = plan.strategy.tried(n);
    let end = base + 2 * n;
    let first = candidates::first_of(pairs, plan.target);
    let mut fuel = left;
    let mut i = from;
    // Each turn begins at the next node that may match, so no range counts them.
    'nodes: loop {
        if last <= i {
            break 'nodes Sought {
                found: Ok(None),
                frame,
                left: fuel,
                next: 0,
            };
        }
        let arena = &w[..frame.top];
        let scope = &arena[base..end];
        let next = candidates::next_candidate(
            pairs,
            first,
            scope,
            plan.target,
            0,
            2 * n,
            i,
            last,
            frame.live,
            fuel,
        );
        i = next.node;
        fuel = next.left;
        if last <= i {
            break 'nodes Sought {
                found: Ok(None),
                frame,
                left: fuel,
                next: 0,
            };
        }
        let p = base + 2 * i;
        if fuel.attempts == 0 {
            break 'nodes Sought {
                found: Err(Halt::new(Stop::BudgetSpent)),
                frame,
                left: fuel,
                next: 0,
            };
        }
        fuel.attempts -= 1;
        let m = rewrite::match_pattern(
            pairs,
            arena,
            &arena[p..end],
            p,
            places,
            frame.bound,
            frame.live,
            types,
        );
        let verdict = m.verdict;
        match verdict {
            Verdict::Differs => {
                i += 1;
                continue 'nodes;
            }
            Verdict::Stops(halt) => {
                break 'nodes Sought {
                    found: Err(halt),
                    frame,
                    left: fuel,
                    next: 0,
                };
            }
            Verdict::Matches => {}
        }
        let mut now = after_match(m, frame.top);
        let mut at = plan.first;
        for _ in 0..plan.count {
            let t = step(program, w, at, places, now, deep, fuel);
            fuel = t.left;
            let verdict = t.verdict;
            match verdict {
                Verdict::Differs => {
                    i += 1;
                    continue 'nodes;
                }
                Verdict::Stops(halt) => {
                    break 'nodes Sought {
                        found: Err(halt),
                        frame,
                        left: fuel,
                        next: 0,
                    };
                }
                Verdict::Matches => {
                    now = t.frame;
                    at = t.next;
                }
            }
        }
        break 'nodes Sought {
            found: Ok(Some(i)),
            frame: now,
            left: fuel,
            next: at,
        };
    }
}

// Is there a match in the tree of n nodes at `start`? The open call's variables are the arguments.
#[cycle(engine)]
fn matches(
    program: &Program,
    w: &mut [u32],
    at: usize,
    start: usize,
    n: usize,
    places: &mut [u32; MOST_VARIABLES],
    frame: Frame,
    deep: usize,
    left: State,
) -> Tested
    requires { Sound (vars_of places.old frame.bound) × (frame.live ≤ 2 ^ 17) × (frame.top ≤ 2 * frame.live) × (frame.top ≤ 12288) × (16384 ≤ length w.old) × (start < 2 ^ 32) × (n ≤ 2048) × (0 < n → start + 2 * n ≤ frame.top) }
    ensures { CallMatches (given_of program.now) w.old w.new at start n (open_of places.old frame) deep left result }
{
    let types = program.types;
    let book = program.book;
    let plan = rules::plan_of(types.count, book, at);
    let live = frame.live + n;
    if MOST_LIVE < live {
        return Tested {
            verdict: Verdict::Stops(Halt::new(Stop::TooManyLiveNodes)),
            left,
        };
    }
    let inner = Frame {
        bound: frame.bound,
        live,
        top: frame.top,
    };
    let s = seek(program, w, plan, start, n, places, inner, deep, left, 0);
    Tested {
        verdict: verdict_of(s.found),
        left: s.left,
    }
}

// Does the application whose first word is at `at` succeed on the tree of n nodes at `start`?
#[cycle(engine)]
fn succeeds(
    program: &Program,
    w: &mut [u32],
    pairs: &[u32],
    at: usize,
    start: usize,
    n: usize,
    places: &[u32; MOST_VARIABLES],
    frame: Frame,
    deep: usize,
    left: State,
) -> Tested
    requires { Room w.old (open_of places.now frame) × (at < 2 ^ 36) × (start < 2 ^ 32) × (n ≤ 2048) × (0 < n → start + 2 * n ≤ frame.top) }
    ensures { Succeeds (given_of program.now) w.old w.new pairs.now at start n (open_of places.now frame) deep left result }
{
    let a = words::word(pairs, at);
    if a < FIRST_OPERATION {
        if deep == 0 {
            return Tested {
                verdict: Verdict::Stops(Halt::new(Stop::CallsTooDeep)),
                left,
            };
        }
        let mut given = [0u32; MOST_VARIABLES];
        let count = words::word(pairs, at + 1);
        let args = arena::gather(w, pairs, at + 2, count, places, frame.bound, &mut given);
        let inner = Frame {
            bound: args.bound,
            live: frame.live + args.total,
            top: frame.top,
        };
        let rule = program.rule_at(a);
        return matches(
            program,
            w,
            rule,
            start,
            n,
            &mut given,
            inner,
            deep - 1,
            left,
        );
    }
    let b = arena::value_of(w, pairs, at + 3, places, frame.bound);
    if operations::holds(a, words::word(w, start + 1), b) {
        return Tested {
            verdict: Verdict::Matches,
            left,
        };
    }
    Tested {
        verdict: Verdict::Differs,
        left,
    }
}

// Does one of the chain's applications succeed? They are tried in order up to the first that does.
#[cycle(engine)]
fn any_succeeds(
    program: &Program,
    w: &mut [u32],
    pairs: &[u32],
    start: usize,
    n: usize,
    places: &[u32; MOST_VARIABLES],
    frame: Frame,
    deep: usize,
    left: State,
) -> Tested
    requires { Room w.old (open_of places.now frame) × (start < 2 ^ 32) × (n ≤ 2048) × (0 < n → start + 2 * n ≤ frame.top) }
    ensures { AnySucceeds (given_of program.now) w.old w.new pairs.now start n (open_of places.now frame) deep left result }
{
    let k = rules::chain_count(pairs, 2);
    let mut at: usize = 4;
    let mut fuel = left;
    for _ in 0..k {
        let t = succeeds(program, w, pairs, at, start, n, places, frame, deep, fuel);
        match t.verdict {
            Verdict::Stops(_) | Verdict::Matches => {
                return t;
            }
            Verdict::Differs => {}
        }
        fuel = t.left;
        at += 2 + 2 * words::word(pairs, at + 1) as usize;
    }
    Tested {
        verdict: Verdict::Differs,
        left: fuel,
    }
}

// What the operation on sequences whose application stands at `at` makes of the tree of n nodes at base. Its arguments are the trees of up to two variables.
fn edit_at(
    types: &Types,
    w: &mut [u32],
    pairs: &[u32],
    at: usize,
    base: usize,
    n: usize,
    places: &[u32; MOST_VARIABLES],
    bound: usize,
    under: usize,
    besides: usize,
) -> Result<usize, Halt>
    requires { (besides + n ≤ 6144) × (base ≤ 2 * besides) × (n ≤ 2048) × (under ≤ 2048) × (16384 ≤ length w.old) × (at < 2 ^ 36) }
    ensures { EditsAt types.now w.old w.new pairs.now at base n (vars_of places.now bound) under besides result }
{
    let op = words::word(pairs, at);
    let first = rewrite::start_in(places, bound, words::word(pairs, at + 3));
    let second = rewrite::start_in(places, bound, words::word(pairs, at + 5));
    sequences::edit(types, w, op, base, n, first, second, under, besides)
}

// Applies the application whose first word is at `at` to the tree of n nodes at base, which is on top.
#[cycle(engine)]
fn apply(
    program: &Program,
    w: &mut [u32],
    pairs: &[u32],
    at: usize,
    base: usize,
    n: usize,
    places: &[u32; MOST_VARIABLES],
    bound: usize,
    besides: usize,
    under: usize,
    deep: usize,
    left: State,
) -> Built
    requires { Sound (vars_of places.now bound) × (besides + n ≤ 6144) × (base ≤ 2 * besides) × (n ≤ 2048) × (under ≤ 2048) × (16384 ≤ length w.old) × (at < 2 ^ 36) }
    ensures { Applies (given_of program.now) w.old w.new pairs.now at base n (vars_of places.now bound) besides under deep left result }
{
    let types = program.types;
    let a = words::word(pairs, at);
    if a < FIRST_OPERATION {
        if deep == 0 {
            return Built {
                nodes: Err(Halt::new(Stop::CallsTooDeep)),
                left,
            };
        }
        let mut given = [0u32; MOST_VARIABLES];
        let count = words::word(pairs, at + 1);
        let args = arena::gather(w, pairs, at + 2, count, places, bound, &mut given);
        let rule = program.rule_at(a);
        let c = call(
            program,
            w,
            rule,
            base,
            n,
            &mut given,
            args.bound,
            besides + args.total,
            deep - 1,
            left,
        );
        return Built {
            nodes: c.scope(),
            left: c.left,
        };
    }
    if a < JOIN {
        let b = arena::value_of(w, pairs, at + 3, places, bound);
        let nodes = with_nodes(arena::compute_at(w, base, a, b), n);
        return Built { nodes, left };
    }
    let nodes = edit_at(types, w, pairs, at, base, n, places, bound, under, besides);
    Built { nodes, left }
}

// Applies a chain, its count at `from`, to the tree of n nodes at base, one application after the other.
#[cycle(engine)]
fn chain(
    program: &Program,
    w: &mut [u32],
    pairs: &[u32],
    from: usize,
    base: usize,
    n: usize,
    places: &[u32; MOST_VARIABLES],
    bound: usize,
    besides: usize,
    under: usize,
    deep: usize,
    left: State,
) -> Chained
    requires { Sound (vars_of places.now bound) × (besides + n ≤ 6144) × (base ≤ 2 * besides) × (n ≤ 2048) × (under ≤ 2048) × (16384 ≤ length w.old) × (from ≤ 1024) }
    ensures { Chains (given_of program.now) w.old w.new pairs.now from base n (vars_of places.now bound) besides under deep left result }
{
    let k = rules::chain_count(pairs, from);
    let mut at = from + 2;
    let mut fuel = left;
    let mut nodes = n;
    for _ in 0..k {
        let b = apply(
            program, w, pairs, at, base, nodes, places, bound, besides, under, deep, fuel,
        );
        match b.nodes {
            Err(_) => {
                return Chained { built: b, next: at };
            }
            Ok(now) => {
                nodes = now;
            }
        }
        fuel = b.left;
        at += 2 + 2 * words::word(pairs, at + 1) as usize;
    }
    let built = Built {
        nodes: Ok(nodes),
        left: fuel,
    };
    Chained { built, next: at }
}

// A chain of applications in a replacement, at the pair i, in a tree under way of n nodes.
#[cycle(engine)]
fn fill_chain(
    program: &Program,
    w: &mut [u32],
    pairs: &[u32],
    i: usize,
    n: usize,
    places: &[u32; MOST_VARIABLES],
    frame: Frame,
    deep: usize,
    left: State,
) -> Chained
    requires { Room w.old (open_of places.now frame) × (i ≤ 256) × (frame.live + n ≤ 6144) × (n ≤ 2048) }
    ensures { FillsChain (given_of program.now) w.old w.new pairs.now i n (open_of places.now frame) deep left result }
{
    let base = frame.top + 2 * n;
    let start = rewrite::start_in(places, frame.bound, words::word(pairs, i + 1));
    let m = arena::nodes_at(w, start, frame.top);
    let besides = frame.live + n;
    if MOST_LIVE < besides + m {
        let built = Built {
            nodes: Err(Halt::new(Stop::TooManyLiveNodes)),
            left,
        };
        return Chained { built, next: i };
    }
    arena::push_tree(w, start, m, base);
    let c = chain(
        program,
        w,
        pairs,
        i + 2,
        base,
        m,
        places,
        frame.bound,
        besides,
        n,
        deep,
        left,
    );
    let b = c.built;
    match b.nodes {
        Err(_) => c,
        Ok(more) => {
            let nodes = with_nodes(arena::check_nodes(n + more), n + more);
            Chained {
                built: Built {
                    nodes,
                    left: b.left,
                },
                next: c.next,
            }
        }
    }
}

// Fills a replacement, the pairs whose count stands at `at`, on top: its nodes are not marked yet.
#[cycle(engine)]
fn fill(
    program: &Program,
    w: &mut [u32],
    at: usize,
    places: &[u32; MOST_VARIABLES],
    frame: Frame,
    deep: usize,
    left: State,
) -> Built
    requires { Room w.old (open_of places.now frame) }
    ensures { Fills (given_of program.now) w.old w.new at (open_of places.now frame) deep left result }
{
    let book = program.book;
    let pairs = rules::pairs_of(book, at);
    let bound = frame.bound;
    let top = frame.top;
    let live = frame.live;
    let mut fuel = left;
    let mut n: usize = 0;
    let mut i: usize = 0;
    // A chain takes several pairs, so no range counts the turns.
    while i + 2 <= pairs.len() {
        let t = pairs[i];
        let v = pairs[i + 1];
        if t == MARK_CHAIN {
            let c = fill_chain(program, w, pairs, i, n, places, frame, deep, fuel);
            match c.built.nodes {
                Err(_) => {
                    return c.built;
                }
                Ok(now) => {
                    n = now;
                }
            }
            fuel = c.built.left;
            i = c.next;
        } else if t == MARK_VARIABLE {
            let start = rewrite::start_in(places, bound, v);
            let m = arena::nodes_at(w, start, top);
            if let Err(halt) = arena::check_limits(n + m, live + n + m) {
                return Built {
                    nodes: Err(halt),
                    left: fuel,
                };
            }
            arena::push_tree(w, start, m, top + 2 * n);
            n += m;
            i += 2;
        } else {
            if let Err(halt) = arena::check_limits(n + 1, live + n + 1) {
                return Built {
                    nodes: Err(halt),
                    left: fuel,
                };
            }
            arena::push_node(w, top + 2 * n, t, v);
            n += 1;
            i += 2;
        }
    }
    Built {
        nodes: Ok(n),
        left: fuel,
    }
}

// Fills a replacement and finishes it: its nodes are marked, and its nesting is tested.
#[cycle(engine)]
fn finish(
    program: &Program,
    w: &mut [u32],
    at: usize,
    places: &[u32; MOST_VARIABLES],
    frame: Frame,
    deep: usize,
    left: State,
) -> Built
    requires { Room w.old (open_of places.now frame) }
    ensures { Finishes (given_of program.now) w.old w.new at (open_of places.now frame) deep left result }
{
    let types = program.types;
    let b = fill(program, w, at, places, frame, deep, left);
    match b.nodes {
        Err(_) => b,
        Ok(n) => Built {
            nodes: with_nodes(arena::close(types, w, frame.top, n), n),
            left: b.left,
        },
    }
}

// Finishes the replacement of a match and puts it in place of node i.
#[cycle(engine)]
fn replace(
    program: &Program,
    w: &mut [u32],
    at: usize,
    base: usize,
    n: usize,
    i: usize,
    places: &[u32; MOST_VARIABLES],
    frame: Frame,
    deep: usize,
    left: State,
) -> Built
    requires { Room w.old (open_of places.now frame) × (i < n) × (n ≤ 2048) × (base + 2 * n ≤ frame.top) }
    ensures { Replaces (given_of program.now) w.old w.new at base n i (open_of places.now frame) deep left result }
{
    let types = program.types;
    let b = finish(program, w, at, places, frame, deep, left);
    match b.nodes {
        Err(_) => b,
        Ok(m) => Built {
            nodes: arena::replace_tree(types, w, base, n, i, frame.top, m),
            left: b.left,
        },
    }
}

// Rewrites the scope, n nodes from base on, which is on top: the rounds of search and replacement. The variables are the arguments; so many nodes are live besides
// the scope.
#[cycle(engine)]
pub fn call(
    program: &Program,
    w: &mut [u32],
    at: usize,
    base: usize,
    n: usize,
    places: &mut [u32; MOST_VARIABLES],
    bound: usize,
    besides: usize,
    deep: usize,
    left: State,
) -> Called
    requires { Sound (vars_of places.old bound) × (besides ≤ 2 ^ 17) × (base ≤ 2 * besides) × (base ≤ 12288) × (n ≤ 2048) × (16384 ≤ length w.old) }
    ensures { Calls (given_of program.now) w.old w.new at base n (vars_of places.old bound) besides deep left result }
{
    let types = program.types;
    let book = program.book;
    let plan = rules::plan_of(types.count, book, at);
    let mut c = Called {
        stop: None,
        nodes: n,
        left,
        replacements: 0,
    };
    let mut from: usize = 0;
    // Each turn begins from what the replacement left, so no range counts them.
    loop {
        let live = besides + c.nodes;
        if MOST_LIVE < live {
            let halt = Halt::new(Stop::TooManyLiveNodes);
            return Called {
                stop: Some(halt),
                ..c
            };
        }
        let frame = Frame {
            bound,
            live,
            top: base + 2 * c.nodes,
        };
        let s = seek(
            program, w, plan, base, c.nodes, places, frame, deep, c.left, from,
        );
        c.left = s.left;
        match s.found {
            Ok(None) => {
                return c;
            }
            Err(halt) => {
                return Called {
                    stop: Some(halt),
                    ..c
                };
            }
            Ok(Some(i)) => {
                let b = replace(
                    program, w, s.next, base, c.nodes, i, places, s.frame, deep, s.left,
                );
                c.left = b.left;
                match b.nodes {
                    Err(halt) => {
                        return Called {
                            stop: Some(halt),
                            ..c
                        };
                    }
                    Ok(nodes) => {
                        c.nodes = nodes;
                    }
                }
                c.replacements += 1;
                if !plan.strategy.again() {
                    return c;
                }
                from = plan.strategy.onward(i, marks::size_at(w, base + 2 * i));
            }
        }
    }
}
