// The rule book: the readers of a rule's head, of a part and of a rule (20, 21, each with its position); and what a call asks of a book that has passed.
#![tactic(auto)]

ghost use Rattle.std.specs.Prelude.{◌≡◌, ℕ, ◌<◌, ◌≤◌, length, get_or, IfOk, IsOkAnd};
ghost use Rattle.words.specs.Reader as Reading;
ghost use Rattle.words.specs.Reader.{value};
ghost use Rattle.words.specs.Views.{answer, got, shown};
ghost use Rattle.rules.specs.Layout as Layout;
ghost use Rattle.rules.specs.Rules.{Rule};
ghost use Rattle.std.proofs.Math.Option.{Option};
ghost use Rattle.rules.specs.Views.{part_as, part_read, head_read, strategy_as, pairs_at, pairs_end, part_count, Planned, tried_of, again_of, onward_of, chain_count, place_of_pairs};

use limits::{
    MOST_APPLICATIONS, MOST_PAIRS, MOST_PARAMETERS, MOST_PARTS, PARAMETERS, PARTS, REACH,
    REPLACEMENT, STARTS,
};
use words::{Fault, Refusal};

pub mod limits;
pub mod program;

pub use program::Program;

// What a call needs of its rule: its target type, which nodes it tries, where the pattern's count stands, how many parts there are and where the first stands.
#[derive(Clone, Copy)]
pub struct Plan {
    pub target: u32,
    pub strategy: Strategy,
    pub pattern: usize,
    pub count: u32,
    pub first: usize,
}

// Which nodes a rule tries.
#[derive(Clone, Copy)]
pub enum Strategy {
    RootOnly,
    FirstMatch,
    Exhaustive,
    OnePass,
}

// The plan of a rule that is not there.
const NO_PLAN: Plan = Plan {
    target: 0,
    strategy: Strategy::RootOnly,
    pattern: 0,
    count: 0,
    first: 0,
};

// A rule's fields before its pattern: its map, its target type, which nodes it tries, how many parameters it has and where their types stand, and where the
// pattern's count stands.
#[derive(Clone, Copy)]
pub struct Head {
    pub map: u32,
    pub target: u32,
    pub strategy: Strategy,
    pub count: u32,
    pub parameters: usize,
    pub pattern: usize,
}

// The type of the node that is searched for, if it searches, where the variable's number stands, and where the pattern's count stands.
#[derive(Clone, Copy)]
pub struct Deconstruct {
    pub searched: Option<u32>,
    pub variable: usize,
    pub pattern: usize,
}

// The type that it builds, and where the replacement's count stands.
#[derive(Clone, Copy)]
pub struct Construct {
    pub built: u32,
    pub replacement: usize,
}

// Whether it holds if no application succeeds, and where the chain's count of pairs stands.
#[derive(Clone, Copy)]
pub struct Condition {
    pub negated: bool,
    pub chain: usize,
}

// "A part is one of three kinds, each with its own fields after its bit map": positions and types, a struct for each kind.
#[derive(Clone, Copy)]
pub enum Part {
    Deconstruct(Deconstruct),
    Construct(Construct),
    Condition(Condition),
}

// A part, and the position after it.
#[derive(Clone, Copy)]
pub struct FoundPart {
    pub part: Part,
    pub next: usize,
}

impl Part {
    // Where the count of its pairs stands.
    fn pairs(self) -> usize
        ensures { result ≡ place_of_pairs self }
    {
        match self {
            Part::Deconstruct(fields) => fields.pattern,
            Part::Construct(fields) => fields.replacement,
            Part::Condition(fields) => fields.chain,
        }
    }
}

// READING, WITH EACH WORD TESTED

// Does the bit stand in a rule's map?
pub fn announces(map: u32, bit: u32) -> bool
    requires { bit < 32 }
    ensures { result ≡ Layout.bit bit map }
{
    (map >> bit) % 2 == 1
}

// A count, a map, a reach or a type, from low to high.
#[tactic(auto, unfolding(crate::specs::Layout::field))]
pub fn field(ws: &[u32], low: u32, high: u32, at: usize) -> Result<(u32, usize), Refusal>
    ensures { result ≡ got (Layout.field ws.now low high at) }
{
    words::read_in(Fault::BookEnds, Fault::BookWord, ws, low, high, at)
}

// A type outside pairs.
#[tactic(auto, unfolding(crate::specs::Layout::type_field))]
fn type_field(types: u32, ws: &[u32], at: usize) -> Result<(u32, usize), Refusal>
    ensures { result ≡ got (Layout.type_field types ws.now at) }
{
    field(ws, 0, types.saturating_sub(1), at)
}

// Passes over a count of pairs and the pairs.
#[tactic(auto, using(crate::proofs::Laws::readings, words::proofs::Laws::in_value), unfolding(crate::specs::Layout::pairs, crate::specs::Layout::field))]
fn pairs(ws: &[u32], at: usize) -> Result<usize, Refusal>
    ensures { result ≡ answer (Layout.pairs ws.now at) }
{
    let (count, first) = field(ws, 1, MOST_PAIRS, at)?;
    let n = 2 * count as usize;
    if n <= ws.len() - first {
        Ok(first + n)
    } else {
        Err(Refusal::new(Fault::BookEnds, ws.len()))
    }
}

// Passes over a variable's number and the pattern that takes the variable apart.
#[tactic(auto, using(crate::proofs::Laws::readings, crate::proofs::Laws::pairs_passed), unfolding(crate::specs::Layout::deconstruct_fields, crate::specs::Layout::variable_at))]
fn deconstruct_fields(ws: &[u32], at: usize) -> Result<usize, Refusal>
    ensures { (s : Option ℕ) → result ≡ answer (Layout.deconstruct_fields ws.now s at) }
{
    let (_, pattern) = words::read_word(Fault::BookEnds, ws, at)?;
    pairs(ws, pattern)
}

// Passes over the part whose map stands at a position. The map stays the word that it is, since `fields_at` alone turns it into a kind.
#[tactic(auto, using(crate::proofs::Laws::readings), unfolding(crate::specs::Layout::part_at, crate::specs::Layout::search_fields, crate::specs::Layout::construct_fields, crate::specs::Layout::condition_fields))]
fn part_end(types: u32, ws: &[u32], at: usize) -> Result<usize, Refusal>
    ensures { result ≡ answer (Layout.part_at types ws.now at) }
{
    let (map, next) = words::read_word(Fault::BookEnds, ws, at)?;
    match map {
        1 => deconstruct_fields(ws, next),
        3 => {
            let (_, variable) = type_field(types, ws, next)?;
            deconstruct_fields(ws, variable)
        }
        4 => {
            let (_, replacement) = type_field(types, ws, next)?;
            pairs(ws, replacement)
        }
        8 | 24 => pairs(ws, next),
        _ => Err(Refusal::new(Fault::BookWord, at)),
    }
}

// The part whose map stands at a position.
pub fn read_part(types: u32, ws: &[u32], at: usize) -> Result<FoundPart, Refusal>
    ensures { result ≡ part_read (Layout.part_at types ws.now at) }
{
    part_end(types, ws, at)?;
    Ok(part_of(ws, at))
}

// k parts, one after the other.
#[tactic(auto, using(crate::proofs::Laws::readings, crate::proofs::Laws::part_answer))]
fn some_parts(types: u32, ws: &[u32], k: u32, start: usize) -> Result<usize, Refusal>
    ensures { result ≡ answer (Reading.many k (Layout.part types ws.now) start) }
{
    let mut at = start;
    for _ in 0..k {
        at = part_end(types, ws, at)?;
    }
    Ok(at)
}

// How many parts the map announces, and where the first stands.
fn part_count(ws: &[u32], map: u32, at: usize) -> Result<(u32, usize), Refusal>
    ensures { result ≡ got (part_count ws.now map at) }
{
    if announces(map, PARTS) {
        field(ws, 1, MOST_PARTS, at)
    } else {
        Ok((0, at))
    }
}

// The parts, where the map announces them.
#[tactic(auto, using(crate::proofs::Laws::readings, crate::proofs::Laws::parts_counted))]
fn read_parts(types: u32, ws: &[u32], map: u32, at: usize) -> Result<usize, Refusal>
    ensures { result ≡ answer (Layout.parts types ws.now map at) }
{
    let (k, first) = part_count(ws, map, at)?;
    some_parts(types, ws, k, first)
}

// The replacement, where the map announces it.
#[tactic(auto, using(crate::proofs::Laws::readings), unfolding(crate::specs::Layout::replacement))]
fn read_replacement(ws: &[u32], map: u32, at: usize) -> Result<usize, Refusal>
    ensures { result ≡ answer (Layout.replacement ws.now map at) }
{
    if announces(map, REPLACEMENT) {
        pairs(ws, at)
    } else {
        Ok(at)
    }
}

// The reach, and 0 where the map announces none.
#[tactic(auto, unfolding(crate::specs::Layout::reach))]
fn reach(ws: &[u32], map: u32, at: usize) -> Result<(u32, usize), Refusal>
    ensures { result ≡ got (Layout.reach ws.now map at) }
{
    if announces(map, REACH) {
        field(ws, 1, 3, at)
    } else {
        Ok((0, at))
    }
}

// k types, one after the other.
#[tactic(auto, using(crate::proofs::Laws::readings))]
fn some_types(types: u32, ws: &[u32], k: u32, start: usize) -> Result<usize, Refusal>
    ensures { result ≡ answer (Reading.many k (Layout.type_field types ws.now) start) }
{
    let mut at = start;
    for _ in 0..k {
        (_, at) = type_field(types, ws, at)?;
    }
    Ok(at)
}

// How many parameters there are, and the position after their types.
#[tactic(auto, using(crate::proofs::Laws::readings, crate::proofs::Laws::types_words), unfolding(crate::specs::Layout::parameters))]
fn read_parameters(types: u32, ws: &[u32], map: u32, at: usize) -> Result<(u32, usize), Refusal>
    ensures { result ≡ shown length (Layout.parameters types ws.now map at) }
{
    if !announces(map, PARAMETERS) {
        return Ok((0, at));
    }
    let (k, first) = field(ws, 1, MOST_PARAMETERS, at)?;
    let end = some_types(types, ws, k, first)?;
    Ok((k, end))
}

// The head of the rule whose map stands at a position.
#[tactic(auto, using(crate::proofs::Laws::readings, crate::proofs::Laws::parameters_words), unfolding(crate::specs::Layout::head, crate::specs::Layout::head_fields))]
pub fn read_head(types: u32, ws: &[u32], at: usize) -> Result<Head, Refusal>
    ensures { result ≡ head_read (Layout.head types ws.now at) }
{
    let (map, next) = field(ws, 0, 15, at)?;
    let (target, next) = type_field(types, ws, next)?;
    let (code, next) = reach(ws, map, next)?;
    let (count, pattern) = read_parameters(types, ws, map, next)?;
    Ok(Head {
        map,
        target,
        strategy: Strategy::of_reach(code),
        count,
        parameters: pattern - count as usize,
        pattern,
    })
}

// Passes over a rule: its head, pattern, parts and replacement.
#[tactic(auto, using(crate::proofs::Laws::readings, crate::proofs::Laws::head_refused, crate::proofs::Laws::head_there, crate::proofs::Laws::pairs_passed), unfolding(crate::specs::Layout::rule))]
pub fn read_rule(types: u32, ws: &[u32], at: usize) -> Result<usize, Refusal>
    ensures { result ≡ answer (Layout.rule types ws.now at) }
{
    let head = read_head(types, ws, at)?;
    let parts = pairs(ws, head.pattern)?;
    let replacement = read_parts(types, ws, head.map, parts)?;
    read_replacement(ws, head.map, replacement)
}

// READING A BOOK THAT HAS PASSED

// The pairs whose count stands at p; none, if they are not there.
#[tactic(auto, using(crate::proofs::Laws::pairs_passed, crate::proofs::Laid::pairs_extent, crate::proofs::Laid::pairs_at_lem), unfolding(crate::specs::Views::pairs_at, crate::specs::Layout::stretch))]
pub fn pairs_of(ws: &[u32], p: usize) -> &[u32]
    ensures { (result.now ≡ pairs_at ws.now p) × (length result.now ≤ 256) }
{
    match pairs(ws, p) {
        Ok(end) => &ws[p + 1..end],
        Err(_) => &[],
    }
}

// The position after the pairs whose count stands at p; p, if they are not there.
#[tactic(auto, unfolding(crate::specs::Views::pairs_end))]
fn pairs_end(ws: &[u32], p: usize) -> usize
    ensures { result ≡ pairs_end ws.now p }
{
    let n = 2 * words::word(ws, p) as usize;
    if n < ws.len().saturating_sub(p) {
        p + 1 + n
    } else {
        p
    }
}

// The part whose map stands at a position, of a book that has passed.
#[tactic(auto, using(crate::proofs::Laid::part_found))]
fn fields_at(ws: &[u32], at: usize) -> Part
    requires { at ≤ length ws.now }
    ensures { (types : ℕ) (q : Layout.PartAt) (next : ℕ) → Layout.part_at types ws.now at ≡ value q next → result ≡ part_as q }
{
    match words::word(ws, at) {
        1 => Part::Deconstruct(Deconstruct {
            searched: None,
            variable: at + 1,
            pattern: at + 2,
        }),
        3 => Part::Deconstruct(Deconstruct {
            searched: Some(words::word(ws, at + 1)),
            variable: at + 2,
            pattern: at + 3,
        }),
        4 => Part::Construct(Construct {
            built: words::word(ws, at + 1),
            replacement: at + 2,
        }),
        map => Part::Condition(Condition {
            negated: map == 24,
            chain: at + 1,
        }),
    }
}

// The part whose map stands at a position: nothing is tested again.
#[tactic(auto, using(crate::proofs::Laid::part_found))]
pub fn part_of(ws: &[u32], at: usize) -> FoundPart
    ensures { (types : ℕ) (q : Layout.PartAt) (next : ℕ) → Layout.part_at types ws.now at ≡ value q next → result ≡ record { part = part_as q; next = next } }
{
    let part = fields_at(ws, at.min(ws.len()));
    FoundPart {
        part,
        next: pairs_end(ws, part.pairs()),
    }
}

// The plan of the rule whose map stands at a position.
fn read_plan(types: u32, ws: &[u32], at: usize) -> Result<Plan, Refusal>
    ensures { IfOk result (λ p. p.count ≤ 8) × ((rule : Rule) (next : ℕ) → Layout.rule types ws.now at ≡ value rule next → IsOkAnd result (λ p. Planned types ws.now rule p)) }
{
    let head = read_head(types, ws, at)?;
    let parts = pairs(ws, head.pattern)?;
    let (count, first) = part_count(ws, head.map, parts)?;
    Ok(Plan {
        target: head.target,
        strategy: head.strategy,
        pattern: head.pattern,
        count,
        first,
    })
}

// The plan of the rule whose map stands at a position; where there is none, one with no parts.
pub fn plan_of(types: u32, ws: &[u32], at: usize) -> Plan
    ensures { (result.count ≤ 8) × ((rule : Rule) (next : ℕ) → Layout.rule types ws.now at ≡ value rule next → Planned types ws.now rule result) }
{
    read_plan(types, ws, at).unwrap_or(NO_PLAN)
}

// WHAT A CALL ASKS OF ITS PLAN AND BOOK

impl Strategy {
    // What a reach says; 0 stands for none.
    #[tactic(auto, unfolding(crate::specs::Layout::strategy_of))]
    fn of_reach(reach: u32) -> Strategy
        ensures { result ≡ strategy_as (Layout.strategy_of reach) }
    {
        match reach {
            0 => Strategy::RootOnly,
            1 => Strategy::FirstMatch,
            2 => Strategy::Exhaustive,
            _ => Strategy::OnePass,
        }
    }

    // How many of n nodes are tried at most: all, or the root alone.
    pub fn tried(self, n: usize) -> usize
        ensures { result ≡ tried_of self n }
    {
        match self {
            Strategy::RootOnly => n.min(1),
            Strategy::FirstMatch | Strategy::Exhaustive | Strategy::OnePass => n,
        }
    }

    // Does the search go on after a replacement?
    pub fn again(self) -> bool
        ensures { result ≡ again_of self }
    {
        match self {
            Strategy::RootOnly | Strategy::FirstMatch => false,
            Strategy::Exhaustive | Strategy::OnePass => true,
        }
    }

    // Where the search goes on, if the tree put in place of node i has m nodes: at the root again, or behind that tree.
    pub fn onward(self, i: usize, m: usize) -> usize
        requires { (i ≤ 2048) × (m < 4096) }
        ensures { result ≡ onward_of self i m }
    {
        match self {
            Strategy::RootOnly | Strategy::FirstMatch | Strategy::Exhaustive => 0,
            Strategy::OnePass => i + m,
        }
    }
}

// Where rule n stands.
pub fn rule_at(starts: &[usize; STARTS], n: u32) -> usize
    ensures { n < 64 → result ≡ get_or starts.now n 0 }
{
    starts.get(n as usize).copied().unwrap_or(0)
}

// How many applications a chain has, its count at `at`; 0, if that is no count.
pub fn chain_count(pairs: &[u32], at: usize) -> u32
    ensures { (result ≡ chain_count pairs.now at) × (result ≤ 4) }
{
    let k = words::word(pairs, at);
    if k <= MOST_APPLICATIONS { k } else { 0 }
}
