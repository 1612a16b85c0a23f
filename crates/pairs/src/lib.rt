// The pairs of a pattern, a replacement or a condition, read against a stack of what is due (22 to 24, each with its position), in one loop.
#![tactic(auto)]

ghost use Rattle.std.specs.Prelude.{◌≡◌, true, [], ◌∷◌, map, ◌+◌, ◌*◌, ◌<◌, ◌≤◌, ◌^◌, length, get_or};
ghost use Rattle.words.specs.Reader.{accepted};
ghost use Rattle.tree.specs.Dues.{whole};
ghost use Rattle.rules.specs.Layout as Layout;
ghost use Rattle.rules.specs.Rules.{Rule};
ghost use Rattle.judgement.specs.Wanted.{exactly};
ghost use Rattle.judgement.specs.Typing as Typing;
ghost use Rattle.dues.specs.Due.{due_as};
ghost use Rattle.dues.specs.Views.{place_as, Meets, arguments_counted};
ghost use Rattle.pairs.specs.Book.{Headed};
ghost use Rattle.pairs.specs.Views.{OfBook, typed_as, rule_usable};

pub use book::Rulebook;
use dues::{Due, Pair, Place, Stack, Variables};
use words::{Fault, Refusal};

pub mod book;

// WHAT IS APPLIED

// May rule a be applied here, to a scope of type s?
fn rule_usable(here: Place, book: &Rulebook, s: u32, a: u32) -> bool
    requires { a < 64 }
    ensures { (rule : Rule) → Headed book.now.types.now.types.count book.now.words.now (get_or book.now.starts.now a 0) rule → result ≡ rule_usable (place_as here) rule s }
{
    let types = book.types;
    match rules::read_head(types.types.count, book.words, book.rule_at(a)) {
        Ok(head) => {
            dues::applies_rule(here, head.map) && dues::fits_scope(head.strategy, head.target, s)
        }
        Err(_) => false,
    }
}

// May the rule or operation a be applied here, to a scope of type s?
fn usable(here: Place, book: &Rulebook, s: u32, a: u32) -> bool
    ensures { OfBook book.now (λ g rules. result ≡ Typing.usable g rules (place_as here) s a) }
{
    if a < book.count() {
        rule_usable(here, book, s, a)
    } else {
        let types = book.types;
        dues::applies_operation(here, a) && dues::operates_on(&types.types, a, s)
    }
}

// The pair of a rule that is usable: its count of arguments, and what they are.
fn meet_rule(book: &Rulebook, pair: Pair, stack: &mut Stack) -> Result<Option<u32>, Refusal>
    requires { (pair.first < 64) × (length stack.old < 890) }
    ensures { (rule : Rule) → Headed book.now.types.now.types.count book.now.words.now (get_or book.now.starts.now pair.first 0) rule → (Γ : Typing.Context) → Meets result Γ stack.old stack.new (arguments_counted (map exactly rule.parameters) Γ pair.second pair.at) }
{
    let types = book.types;
    let head = rules::read_head(types.types.count, book.words, book.rule_at(pair.first))?;
    if pair.second != head.count {
        return Err(pair.second_at(Fault::NotUsable));
    }
    dues::push_arguments(book.words, head.parameters, head.count, stack);
    Ok(None)
}

// An application to a scope of type s.
fn meet_application(
    here: Place,
    book: &Rulebook,
    s: u32,
    pair: Pair,
    stack: &mut Stack,
) -> Result<Option<u32>, Refusal>
    requires { length stack.old < 890 }
    ensures { OfBook book.now (λ g rules. (Γ : Typing.Context) → Meets result Γ stack.old stack.new (Typing.meets g rules (place_as here) (Typing.application s) Γ pair.first pair.second pair.at)) }
{
    if !usable(here, book, s, pair.first) {
        return Err(pair.first_at(Fault::NotUsable));
    }
    if pair.first < book.count() {
        meet_rule(book, pair, stack)
    } else {
        dues::meet_operation(s, pair, stack)
    }
}

// ALL THE PAIRS

// A pair where the due is to be met.
fn meet(
    here: Place,
    book: &Rulebook,
    due: Due,
    pair: Pair,
    variables: &Variables,
    stack: &mut Stack,
) -> Result<Option<u32>, Refusal>
    requires { length stack.old < 890 }
    ensures { OfBook book.now (λ g rules. Meets result variables.now stack.old stack.new (Typing.meets g rules (place_as here) (due_as due) variables.now pair.first pair.second pair.at)) }
{
    let types = book.types;
    match due {
        Due::Tree(nesting, d) => dues::meet_tree(here, types, nesting, d, pair, variables, stack),
        Due::Chain => dues::meet_start(pair, variables, stack),
        Due::Count(s) => dues::meet_count(s, pair, stack),
        Due::Application(s) => meet_application(here, book, s, pair, stack),
        Due::Argument(wanted) => dues::meet_argument(&types.types, wanted, pair, variables),
    }
}

// The pairs ps, which begin at `start`, against what is due first: one loop over the stack of what is due.
fn pairs_typed(
    here: Place,
    book: &Rulebook,
    ps: &[u32],
    start: usize,
    first: Due,
    variables: &Variables,
    stack: &mut Stack,
) -> Result<(Variables, usize), Refusal>
    requires { (length ps.now ≤ 256) × (start < 2 ^ 33) }
    ensures { OfBook book.now (λ g rules. result ≡ typed_as (whole (Typing.meets g rules (place_as here)) 23 ps.now (due_as first ∷ []) variables.now start)) }
{
    let types = book.types;
    let mut known = variables.copy();
    let mut i: usize = 0;
    stack.clear();
    stack.push(first);
    while let Some(due) = stack.pop() {
        let from = dues::pass_tokens(here, &types.types, due, ps, i);
        if ps.len() - from < 2 {
            return Err(Refusal::new(Fault::Misplaced, start + ps.len()));
        }
        let pair = Pair {
            first: ps[from],
            second: ps[from + 1],
            at: start + from,
        };
        let met = meet(here, book, due, pair, &known, stack)?;
        i = from + 2;
        if let Some(d) = met {
            known.push(d);
        }
    }
    if i < ps.len() {
        return Err(Refusal::new(Fault::Misplaced, start + i));
    }
    Ok((known, start + i))
}

// The pairs whose count stands at a position, against what is due first.
pub fn stretch_typed(
    here: Place,
    book: &Rulebook,
    first: Due,
    variables: &Variables,
    at: usize,
    stack: &mut Stack,
) -> Result<(Variables, usize), Refusal>
    requires { accepted (Layout.pairs book.now.words.now at) ≡ true }
    ensures { OfBook book.now (λ g rules. result ≡ typed_as (Typing.typed g rules book.now.words.now (place_as here) (due_as first) variables.now at)) }
{
    let ws = book.words;
    let start = at + 1;
    let end = start + 2 * words::word(ws, at) as usize;
    pairs_typed(here, book, &ws[start..end], start, first, variables, stack)
}
