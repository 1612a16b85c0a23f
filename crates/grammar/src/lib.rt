// The grammar: its check (4, 10, 11, 12, each with its position).
#![tactic(auto)]

ghost use Rattle.std.specs.Prelude.{◌≡◌, true, false, ◌≤◌, length, get_or, take, replicate};
ghost use Rattle.words.specs.Reader as Reader;
ghost use Rattle.words.specs.Views.{answer, got};
ghost use Rattle.grammar.specs.Limits.{most_types};
ghost use Rattle.grammar.specs.Grammar as Grammar;
ghost use Rattle.grammar.specs.Views.{seen_element, seen_elements, seen_form, seen_forms, seen_kind, filled, flags_after};

use limits::{FIRST_LITERAL, LAST_LITERAL, MOST_ELEMENTS, MOST_FORMS, MOST_TYPES, MOST_WORDS};
use words::{Fault, Refusal};

pub mod limits;

// A count, a class or a type, from low to high.
#[tactic(auto, unfolding(crate::specs::Grammar::field))]
fn field(ws: &[u32], low: u32, high: u32, at: usize) -> Result<(u32, usize), Refusal>
    ensures { result ≡ got (Grammar.field ws.now low high at) }
{
    words::read_in(Fault::GrammarEnds, Fault::GrammarWord, ws, low, high, at)
}

// Is the type known to have a finite tree?
fn flag(known: &[bool], i: u32) -> bool
    ensures { result ≡ get_or known.now i false }
{
    known.get(i as usize).copied().unwrap_or(false)
}

// One element of a form: can it be finished?
#[tactic(auto, using(words::proofs::Laws::read_word, words::proofs::Laws::read_bad), unfolding(crate::specs::Grammar::element))]
fn element(ws: &[u32], known: &[bool], n: u32, at: usize) -> Result<(bool, usize), Refusal>
    requires { n ≤ most_types }
    ensures { result ≡ seen_element known.now (Grammar.element ws.now n at) }
{
    let (e, next) = words::read_word(Fault::GrammarEnds, ws, at)?;
    if e < n {
        return Ok((flag(known, e), next));
    }
    if (FIRST_LITERAL..=LAST_LITERAL).contains(&e) {
        Ok((true, next))
    } else {
        Err(Refusal::new(Fault::GrammarWord, at))
    }
}

// k elements, one after the other: can all be finished?
fn elements(
    ws: &[u32],
    known: &[bool],
    n: u32,
    k: u32,
    start: usize,
) -> Result<(bool, usize), Refusal>
    requires { n ≤ most_types }
    ensures { result ≡ seen_elements known.now true (Reader.many k (Grammar.element ws.now n) start) }
{
    let mut at = start;
    let mut all = true;
    for _ in 0..k {
        let (finishes, next) = element(ws, known, n, at)?;
        all = all && finishes;
        at = next;
    }
    Ok((all, at))
}

// One form.
#[tactic(auto, using(words::proofs::Laws::read_word, words::proofs::Laws::read_bad, crate::proofs::Laws::form_view), unfolding(crate::specs::Grammar::form))]
fn form(ws: &[u32], known: &[bool], n: u32, at: usize) -> Result<(bool, usize), Refusal>
    requires { n ≤ most_types }
    ensures { result ≡ seen_form known.now (Grammar.form ws.now n at) }
{
    let (k, next) = field(ws, 0, MOST_ELEMENTS, at)?;
    elements(ws, known, n, k, next)
}

// k forms, one after the other: can any be finished?
fn forms(ws: &[u32], known: &[bool], n: u32, k: u32, start: usize) -> Result<(bool, usize), Refusal>
    requires { n ≤ most_types }
    ensures { result ≡ seen_forms known.now false (Reader.many k (Grammar.form ws.now n) start) }
{
    let mut at = start;
    let mut any = false;
    for _ in 0..k {
        let (finishes, next) = form(ws, known, n, at)?;
        any = any || finishes;
        at = next;
    }
    Ok((any, at))
}

// A type's record: its bit map and the field whose bit stands. Trees of a record of one field can always be finished. The map stays the word that it is: the
// crates above read it again where it stands, and an enum would give each of them a decoder with an arm that no checked grammar reaches.
#[tactic(auto, using(words::proofs::Laws::read_word, words::proofs::Laws::read_bad, crate::proofs::Laws::forms_view), unfolding(crate::specs::Grammar::kind, crate::specs::Grammar::finishes))]
fn kind(ws: &[u32], known: &[bool], n: u32, at: usize) -> Result<(bool, usize), Refusal>
    requires { (1 ≤ n) × (n ≤ most_types) }
    ensures { result ≡ seen_kind known.now (Grammar.kind ws.now n at) }
{
    let (map, next) = words::read_word(Fault::GrammarEnds, ws, at)?;
    match map {
        1 => {
            let (_, end) = field(ws, 1, 3, next)?;
            Ok((true, end))
        }
        2 | 4 | 16 => {
            let (_, end) = field(ws, 0, n - 1, next)?;
            Ok((true, end))
        }
        8 => {
            let (k, first) = field(ws, 1, MOST_FORMS, next)?;
            forms(ws, known, n, k, first)
        }
        _ => Err(Refusal::new(Fault::GrammarWord, at)),
    }
}

// The records of k types, one after the other.
fn kinds(ws: &[u32], known: &[bool], n: u32, k: u32, start: usize) -> Result<usize, Refusal>
    requires { (1 ≤ n) × (n ≤ most_types) }
    ensures { result ≡ answer (Reader.many k (Grammar.kind ws.now n) start) }
{
    let mut at = start;
    for _ in 0..k {
        let (_, next) = kind(ws, known, n, at)?;
        at = next;
    }
    Ok(at)
}

// One round: which types' trees can be finished with the types known before.
fn round(ws: &[u32], known: [bool; 64], n: u32, start: usize) -> [bool; 64]
    requires { (1 ≤ n) × (n ≤ most_types) }
    ensures { result ≡ filled known (replicate most_types false) 0 (Reader.many n (Grammar.kind ws.now n) start) }
{
    let mut flags = [false; 64];
    let mut at = start;
    for t in 0..n as usize {
        match kind(ws, &known, n, at) {
            Ok((finishes, next)) => {
                flags[t] = finishes;
                at = next;
            }
            Err(_) => return known,
        }
    }
    flags
}

// As many rounds as there are types, or up to the first that finds nothing new.
fn finite(ws: &[u32], n: u32, start: usize) -> [bool; 64]
    requires { (1 ≤ n) × (n ≤ most_types) }
    ensures { result ≡ flags_after n (Reader.many n (Grammar.kind ws.now n) start) }
{
    let mut known = [false; 64];
    for _ in 0..n {
        let next = round(ws, known, n, start);
        if known == next {
            return known;
        }
        known = next;
    }
    known
}

// The lowest type of which no finite tree exists is refused, at its record.
fn finite_records(ws: &[u32], known: &[bool], n: u32, start: usize) -> Result<usize, Refusal>
    requires { (1 ≤ n) × (n ≤ most_types) × (length known.now ≡ most_types) }
    ensures { result ≡ answer (Grammar.finite_records ws.now n (take n known.now) start) }
{
    let mut at = start;
    for t in 0..n {
        if !flag(known, t) {
            return Err(Refusal::new(Fault::NoFiniteTree, at));
        }
        let (_, next) = kind(ws, known, n, at)?;
        at = next;
    }
    Ok(at)
}

// 10, 11 and 12.
pub fn read_grammar(ws: &[u32]) -> Result<usize, Refusal>
    ensures { result ≡ answer (Grammar.read_grammar ws.now) }
{
    let (n, start) = field(ws, 1, MOST_TYPES, 0)?;
    let end = kinds(ws, &[false; 64], n, n, start)?;
    if end < ws.len() {
        return Err(Refusal::new(Fault::GrammarEnds, end));
    }
    let known = finite(ws, n, start);
    finite_records(ws, &known, n, start)
}

// The single check of a grammar: its length, then its words.
#[tactic(auto, unfolding(crate::specs::Grammar::check_grammar, crate::specs::Grammar::grammar_fits))]
pub fn check_grammar(ws: &[u32]) -> Result<usize, Refusal>
    ensures { result ≡ answer (Grammar.check_grammar ws.now) }
{
    if MOST_WORDS < ws.len() {
        return Err(Refusal::new(Fault::LongGrammar, 0));
    }
    read_grammar(ws)
}
