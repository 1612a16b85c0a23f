// The typing of a rule book (22 to 24, each with its position), and the single check of a rule book.
#![tactic(auto)]

ghost use Rattle.std.specs.Prelude.{◌≡◌, true, ℕ, ◌<◌, ◌≤◌, ◌^◌, length, get_or, replicate};
ghost use Rattle.std.proofs.lemmas.List.Edits.{sets};
ghost use Rattle.words.specs.Reader as Reader;
ghost use Rattle.words.specs.Reader.{accepted, and_then};
ghost use Rattle.words.specs.Views.{answer};
ghost use Rattle.grammar.specs.Grammar.{Grammar};
ghost use Rattle.tables.specs.Types.{AllTypesOf, AreAllTypes};
ghost use Rattle.rules.specs.Layout as Layout;
ghost use Rattle.rules.specs.Rules.{Rule};
ghost use Rattle.judgement.specs.Typing as Typing;
ghost use Rattle.dues.specs.Views.{words_at};
ghost use Rattle.pairs.specs.Book.{Headed};
ghost use Rattle.pairs.specs.Views.{OfBook, OfWholeBook, typed_as};
ghost use Rattle.typing.specs.Views.{deconstruct_of, parts_for, replacement_for, positions};

use dues::{Due, Place, Stack, Variables};
use pairs::Rulebook;
use rules::limits::{MOST_PARTS, MOST_WORDS, PARTS, REPLACEMENT, STARTS};
use rules::{Construct, Deconstruct, Head, Part};
use tables::{AllTypes, GrammarTypes};
use words::{Fault, Refusal};

// A RULE

// A variable is taken apart, or searched: the pattern's type is the searched one, or else its own.
fn deconstruct_typed(
    book: &Rulebook,
    part: Deconstruct,
    variables: &Variables,
    stack: &mut Stack,
) -> Result<(Variables, usize), Refusal>
    requires { accepted (Layout.pairs book.now.words.now part.pattern) ≡ true }
    ensures { OfBook book.now (λ g rules. (at : ℕ) → result ≡ typed_as (Typing.part_typed g rules book.now.words.now (deconstruct_of part) variables.now at)) }
{
    let ws = book.words;
    let v = words::word(ws, part.variable);
    let Some(own) = variables.get(v) else {
        return Err(Refusal::new(Fault::NotUsable, part.variable));
    };
    let d = part.searched.unwrap_or(own);
    pairs::stretch_typed(
        Place::Pattern,
        book,
        Due::Tree(1, d),
        variables,
        part.pattern,
        stack,
    )
}

// A variable is built, if there is room for it.
fn construct_typed(
    book: &Rulebook,
    part: Construct,
    variables: &Variables,
    at: usize,
    stack: &mut Stack,
) -> Result<(Variables, usize), Refusal>
    requires { accepted (Layout.pairs book.now.words.now part.replacement) ≡ true }
    ensures { OfBook book.now (λ g rules. result ≡ typed_as (Typing.part_typed g rules book.now.words.now (Layout.construct_at part.built part.replacement) variables.now at)) }
{
    if variables.is_full() {
        return Err(Refusal::new(Fault::NoRoom, at));
    }
    let (_, next) = pairs::stretch_typed(
        Place::Replacement,
        book,
        Due::Tree(1, part.built),
        variables,
        part.replacement,
        stack,
    )?;
    let mut more = variables.copy();
    more.push(part.built);
    Ok((more, next))
}

// The part whose map stands at a position.
fn part_typed(
    book: &Rulebook,
    variables: &Variables,
    at: usize,
    stack: &mut Stack,
) -> Result<(Variables, usize), Refusal>
    ensures { OfBook book.now (λ g rules. result ≡ typed_as (and_then (Layout.part_at book.now.types.now.types.count book.now.words.now at) (λ p next. Typing.part_typed g rules book.now.words.now p variables.now at))) }
{
    let types = book.types;
    let found = rules::read_part(types.types.count, book.words, at)?;
    match found.part {
        Part::Deconstruct(fields) => deconstruct_typed(book, fields, variables, stack),
        Part::Construct(fields) => construct_typed(book, fields, variables, at, stack),
        Part::Condition(fields) => pairs::stretch_typed(
            Place::Condition,
            book,
            Due::Chain,
            variables,
            fields.chain,
            stack,
        ),
    }
}

// k parts, one after the other: each sees the variables of those before it.
fn parts_typed(
    book: &Rulebook,
    k: u32,
    variables: Variables,
    start: usize,
    stack: &mut Stack,
) -> Result<(Variables, usize), Refusal>
    ensures { OfWholeBook book.now (λ g rules. result ≡ typed_as (Typing.parts_typed g rules book.now.words.now k variables start)) }
{
    let mut known = variables;
    let mut at = start;
    for _ in 0..k {
        (known, at) = part_typed(book, &known, at, stack)?;
    }
    Ok((known, at))
}

// The parts, where the map announces them.
fn read_parts(
    book: &Rulebook,
    map: u32,
    variables: Variables,
    at: usize,
    stack: &mut Stack,
) -> Result<(Variables, usize), Refusal>
    ensures { OfWholeBook book.now (λ g rules. result ≡ typed_as (parts_for g rules book.now.words.now map variables at)) }
{
    if !rules::announces(map, PARTS) {
        return Ok((variables, at));
    }
    let (k, first) = rules::field(book.words, 1, MOST_PARTS, at)?;
    parts_typed(book, k, variables, first, stack)
}

// The replacement, where the map announces it.
#[tactic(auto, using(crate::proofs::Whole::pairs_accepted))]
fn read_replacement(
    book: &Rulebook,
    head: Head,
    variables: &Variables,
    at: usize,
    stack: &mut Stack,
) -> Result<usize, Refusal>
    requires { accepted (Layout.replacement book.now.words.now head.map at) ≡ true }
    ensures { OfBook book.now (λ g rules. result ≡ answer (replacement_for g rules book.now.words.now head.map head.target variables.now at)) }
{
    if !rules::announces(head.map, REPLACEMENT) {
        return Ok(at);
    }
    let (_, end) = pairs::stretch_typed(
        Place::Replacement,
        book,
        Due::Tree(1, head.target),
        variables,
        at,
        stack,
    )?;
    Ok(end)
}

// The parameters, k types from `first` on, as the first variables.
#[tactic(auto, using(crate::proofs::Check::parameters_none, crate::proofs::Check::parameters_more, crate::proofs::Check::parameters_length))]
fn parameters_of(ws: &[u32], first: usize, k: u32) -> Variables
    requires { (k ≤ 4) × (first < 2 ^ 40) }
    ensures { result ≡ words_at ws.now first k }
{
    let mut variables = Variables::new();
    for i in 0..k as usize {
        variables.push(words::word(ws, first + i));
    }
    variables
}

// The rule whose map stands at a position.
fn rule_typed(book: &Rulebook, at: usize, stack: &mut Stack) -> Result<usize, Refusal>
    requires { accepted (Layout.rule book.now.types.now.types.count book.now.words.now at) ≡ true }
    ensures { OfWholeBook book.now (λ g rules. result ≡ answer (Typing.rule_typed g rules book.now.words.now at)) }
{
    let types = book.types;
    let ws = book.words;
    let head = rules::read_head(types.types.count, ws, at)?;
    let parameters = parameters_of(ws, head.parameters, head.count);
    let (matched, next) = pairs::stretch_typed(
        Place::Pattern,
        book,
        Due::Tree(1, head.target),
        &parameters,
        head.pattern,
        stack,
    )?;
    let (all, replacement) = read_parts(book, head.map, matched, next, stack)?;
    read_replacement(book, head, &all, replacement, stack)
}

// THE RULES

// Every rule, one after the other.
fn each_typed(book: &Rulebook, stack: &mut Stack) -> Result<usize, Refusal>
    requires { accepted (Reader.many (get_or book.now.words.now 0 0) (Layout.rule book.now.types.now.types.count book.now.words.now) 1) ≡ true }
    ensures { OfWholeBook book.now (λ g rules. result ≡ answer (Reader.many (get_or book.now.words.now 0 0) (Typing.rule_typed g rules book.now.words.now) 1)) }
{
    let mut at: usize = 1;
    for _ in 0..book.count() {
        at = rule_typed(book, at, stack)?;
    }
    Ok(at)
}

// Where the n rules stand.
pub fn rule_starts(types: u32, ws: &[u32], n: u32) -> [usize; STARTS]
    requires { (n ≤ 64) × (accepted (Reader.many n (Layout.rule types ws.now) 1) ≡ true) }
    ensures { result ≡ sets (replicate 64 0) 0 (positions types ws.now n 1) }
{
    let mut starts = [0usize; STARTS];
    let mut at: usize = 1;
    for i in 0..n as usize {
        starts[i] = at;
        at = rules::read_rule(types, ws, at).unwrap_or(at);
    }
    starts
}

// Does the main rule apply to the root of every tree? Its scope is the tree, of type 0.
#[tactic(auto, using(pairs::proofs::Heads::headed_at, pairs::proofs::Heads::fits_is))]
fn main_fits(book: &Rulebook) -> bool
    ensures { (rule : Rule) → Headed book.now.types.now.types.count book.now.words.now (get_or book.now.starts.now 0 0) rule → result ≡ Typing.fits_scope rule 0 }
{
    let types = book.types;
    match rules::read_head(types.types.count, book.words, book.rule_at(0)) {
        Ok(head) => dues::fits_scope(head.strategy, head.target, 0),
        Err(_) => false,
    }
}

// Every rule, of a book whose layout is read.
fn rules_typed(types: &GrammarTypes, ws: &[u32]) -> Result<usize, Refusal>
    requires { (length ws.now < 2 ^ 32) × (accepted (Layout.read_layout types.now.types.count ws.now) ≡ true) × ∥ AreAllTypes types.now.types ∥₁ }
    ensures { (g : Grammar) → AllTypesOf g types.now.types → result ≡ answer (Typing.read_rules g ws.now) }
{
    let starts = rule_starts(types.types.count, ws, words::word(ws, 0));
    let book = Rulebook {
        types,
        words: ws,
        starts: &starts,
    };
    if !main_fits(&book) {
        return Err(Refusal::new(Fault::Misplaced, 2));
    }
    let mut stack = Stack::new();
    each_typed(&book, &mut stack)
}

// 20 to 24, against the grammar's types.
#[tactic(auto, using(crate::proofs::Check::layout_accepted, crate::proofs::Check::layout_refused))]
pub fn read_rules(types: &GrammarTypes, ws: &[u32]) -> Result<usize, Refusal>
    requires { (length ws.now < 2 ^ 32) × ∥ AreAllTypes types.now.types ∥₁ }
    ensures { (g : Grammar) → AllTypesOf g types.now.types → result ≡ answer (Typing.read_rules g ws.now) }
{
    book::read_layout(types.types.count, ws)?;
    rules_typed(types, ws)
}

// The single check of a rule book: the lengths, the grammar's check, then the book's.
#[tactic(auto, using(crate::proofs::Check::check_long, crate::proofs::Check::check_long_rules, crate::proofs::Check::check_refused, crate::proofs::Check::check_accepted, crate::proofs::Check::check_read))]
pub fn check_rules(gs: &[u32], ws: &[u32]) -> Result<usize, Refusal>
    ensures { result ≡ answer (Typing.check_rules gs.now ws.now) }
{
    if grammar::limits::MOST_WORDS < gs.len() {
        return Err(Refusal::new(Fault::LongGrammar, 0));
    }
    if MOST_WORDS < ws.len() {
        return Err(Refusal::new(Fault::LongBook, 0));
    }
    grammar::read_grammar(gs)?;
    let mut types = AllTypes::none();
    types.fill(gs);
    read_rules(&types.types, ws)
}
