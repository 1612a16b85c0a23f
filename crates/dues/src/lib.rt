// One pair of a pattern, a replacement or a condition, and the stack of what is due: what a pair where a tree is due, a pair of a chain and a usable operation
// leave (22 to 24, each with its position), and what tells whether a rule or an operation may be applied.
#![tactic(auto)]

ghost use Rattle.std.specs.Prelude.{List, ◌≡◌, [], ◌∷◌, ◌++◌, ℕ, ◌<◌, ◌≤◌, ◌^◌, length, replicate, eqb};
ghost use Rattle.words.specs.Reader.{or};
ghost use Rattle.grammar.specs.Grammar.{Grammar};
ghost use Rattle.grammar.specs.Kinds.{children};
ghost use Rattle.tables.specs.Types.{OfHeads, OfRows, OfTypes};
ghost use Rattle.tree.specs.Reading.{tree};
ghost use Rattle.rules.specs.Rules.{Rules};
ghost use Rattle.judgement.specs.Wanted.{a_number, to_join, wants};
ghost use Rattle.judgement.specs.Typing as Typing;
ghost use Rattle.dues.specs.Due.{due_as, wanted_as};
ghost use Rattle.dues.specs.Views.{place_as, children_due, node_due, parameters_due, variable_at, Meets, searches_as, applies_map, arguments_counted, tokens_due, TokensPassed};

pub use due::{Due, Wanted};
use limits::MOST_NESTING;
pub use pair::Pair;
use rules::Strategy;
use rules::limits::{
    COUNT, EXTRACT, FIRST_BARE, FIRST_OPERATION, FIRST_TEST, JOIN, LAST_OPERATION, LAST_TEST,
    MARK_CHAIN, MARK_NEW, MARK_VARIABLE, MOST_APPLICATIONS, SELECT,
};
pub use stack::Stack;
use tables::{GrammarTypes, Types};
pub use variables::Variables;
use words::{Fault, Refusal};

pub mod due;
pub mod limits;
pub mod pair;
pub mod stack;
pub mod variables;

// Where pairs stand.
#[derive(Clone, Copy)]
pub enum Place {
    Pattern,
    Replacement,
    Condition,
}

// WHAT IS MADE DUE

// Puts the children of a node (t, v) on the stack, all at one nesting, the first on top.
fn push_level(types: &GrammarTypes, t: u32, v: u32, nesting: u32, stack: &mut Stack)
    requires { length stack.old < 900 }
    ensures { OfRows types.now.types (λ g. stack.new ≡ children_due nesting (children g t v) ++ stack.old) }
{
    let count = types.types.child_count(t, v);
    for i in (0..count).rev() {
        stack.push(Due::Tree(nesting, types.types.child(t, v, i)));
    }
}

// Puts what a node of type d with the value v makes due on the stack: the rest of a sequence stands on its parent's nesting.
fn push_children(types: &GrammarTypes, d: u32, v: u32, nesting: u32, stack: &mut Stack)
    requires { (nesting ≤ 64) × (length stack.old < 890) }
    ensures { OfTypes types.now.types (λ g. stack.new ≡ node_due g d v nesting ++ stack.old) }
{
    if !types.types.is_sequence(d) {
        push_level(types, d, v, nesting + 1, stack);
        return;
    }
    if v == 0 {
        stack.push(Due::Tree(nesting, d));
        stack.push(Due::Tree(nesting + 1, types.types.child(d, 0, 0)));
    }
}

// Puts k applications to a scope of type s on the stack.
fn push_applications(k: u32, s: u32, stack: &mut Stack)
    requires { (k ≤ 4) × (length stack.old < 900) }
    ensures { stack.new ≡ replicate k (Typing.application s) ++ stack.old }
{
    for _ in 0..k {
        stack.push(Due::Application(s));
    }
}

// Puts arguments on the stack, of the k types that stand from `first` on.
pub fn push_arguments(ws: &[u32], first: usize, k: u32, stack: &mut Stack)
    requires { (k ≤ 4) × (first < 2 ^ 40) × (length stack.old < 900) }
    ensures { stack.new ≡ parameters_due ws.now first k ++ stack.old }
{
    for i in (0..k as usize).rev() {
        let t = words::word(ws, first + i);
        stack.push(Due::Argument(Wanted::Exactly(t)));
    }
}

// A PAIR WHERE A TREE IS DUE

// May the first word t stand where a tree of type d is due?
#[tactic(auto, unfolding(judgement::specs::Typing::may_stand))]
fn may_stand(here: Place, d: u32, t: u32) -> bool
    ensures { result ≡ Typing.may_stand (place_as here) d t }
{
    match here {
        Place::Pattern => t == d || t == MARK_NEW || t == MARK_VARIABLE,
        Place::Replacement => t == d || t == MARK_VARIABLE || t == MARK_CHAIN,
        Place::Condition => false,
    }
}

// A node (d, v).
#[tactic(auto, using(crate::proofs::Row::node_few), unfolding(judgement::specs::Typing::node))]
fn meet_node(
    types: &GrammarTypes,
    nesting: u32,
    d: u32,
    pair: Pair,
    stack: &mut Stack,
) -> Result<Option<u32>, Refusal>
    requires { (nesting ≤ 64) × (length stack.old < 890) }
    ensures { OfTypes types.now.types (λ g. (Γ : Typing.Context) → Meets result Γ stack.old stack.new (Typing.node g nesting d Γ pair.second pair.at)) }
{
    if !types.types.is_allowed(d, pair.second) {
        return Err(pair.second_at(Fault::Misplaced));
    }
    push_children(types, d, pair.second, nesting, stack);
    Ok(None)
}

// A new variable (64, v).
#[tactic(auto, unfolding(judgement::specs::Typing::new_variable))]
fn meet_new(d: u32, pair: Pair, variables: &Variables) -> Result<Option<u32>, Refusal>
    ensures { (ds : List Typing.Due) → Meets result variables.now ds ds (Typing.new_variable d variables.now pair.second pair.at) }
{
    if pair.second != d {
        return Err(pair.second_at(Fault::Misplaced));
    }
    if variables.is_full() {
        return Err(pair.second_at(Fault::NoRoom));
    }
    Ok(Some(d))
}

// The type of the variable that the pair names.
fn variable_type(pair: Pair, variables: &Variables) -> Result<u32, Refusal>
    ensures { result ≡ variable_at variables.now pair.second pair.at }
{
    variables
        .get(pair.second)
        .ok_or(pair.second_at(Fault::NotUsable))
}

// A chain (66, v) in a replacement: variable v is of type d.
#[tactic(auto, unfolding(judgement::specs::Typing::chain, judgement::specs::Typing::of_type, judgement::specs::Typing::there))]
fn meet_chain(
    d: u32,
    pair: Pair,
    variables: &Variables,
    stack: &mut Stack,
) -> Result<Option<u32>, Refusal>
    requires { length stack.old < 890 }
    ensures { Meets result variables.now stack.old stack.new (Typing.chain d variables.now pair.second pair.at) }
{
    let t = variable_type(pair, variables)?;
    if t == d {
        stack.push(Due::Count(d));
        Ok(None)
    } else {
        Err(pair.second_at(Fault::Misplaced))
    }
}

// A pair (t, v) where a tree of type d is due at a nesting.
#[tactic(auto, unfolding(judgement::specs::Typing::meets))]
pub fn meet_tree(
    here: Place,
    types: &GrammarTypes,
    nesting: u32,
    d: u32,
    pair: Pair,
    variables: &Variables,
    stack: &mut Stack,
) -> Result<Option<u32>, Refusal>
    requires { length stack.old < 890 }
    ensures { OfTypes types.now.types (λ g. (rules : Rules) → Meets result variables.now stack.old stack.new (Typing.meets g rules (place_as here) (Typing.a_tree (tree nesting d)) variables.now pair.first pair.second pair.at)) }
{
    if !may_stand(here, d, pair.first) {
        return Err(pair.first_at(Fault::Misplaced));
    }
    if MOST_NESTING < nesting {
        return Err(pair.first_at(Fault::NoRoom));
    }
    if pair.first == d {
        return meet_node(types, nesting, d, pair, stack);
    }
    if pair.first == MARK_NEW {
        return meet_new(d, pair, variables);
    }
    if pair.first == MARK_VARIABLE {
        return meet_argument(&types.types, Wanted::Exactly(d), pair, variables);
    }
    meet_chain(d, pair, variables, stack)
}

// THE TOKENS OF A SEQUENCE

// Is d a sequence of tokens, which may stand here where d is due at the nesting? Mostly d is no sequence.
#[tactic(auto, unfolding(crate::specs::Views::tokens_due))]
fn of_tokens(here: Place, types: &Types, nesting: u32, d: u32) -> bool
    ensures { OfTypes types.now (λ g. result ≡ tokens_due g (place_as here) nesting d) }
{
    nesting < MOST_NESTING
        && types.is_sequence(d)
        && types.is_token(types.child(d, 0, 0))
        && may_stand(here, d, d)
}

// Passes over elements of the sequence that is due, where they are tokens: after each the same sequence is due again, and the stack stays as it is.
pub fn pass_tokens(here: Place, types: &Types, due: Due, ps: &[u32], from: usize) -> usize
    requires { from ≤ length ps.now }
    ensures { TokensPassed types.now (place_as here) (due_as due) ps.now from result }
{
    let Due::Tree(nesting, d) = due else {
        return from;
    };
    if !of_tokens(here, types, nesting, d) {
        return from;
    }
    let e = types.child(d, 0, 0);
    let n = types.values(e);
    let elements = ps[from..]
        .chunks_exact(4)
        .take_while(|pairs| pairs[0] == d && pairs[1] == 0 && pairs[2] == e && pairs[3] < n)
        .count();
    from + 4 * elements
}

// THE PAIRS OF A CHAIN

// The first pair of a condition's chain.
#[tactic(auto, unfolding(judgement::specs::Typing::meets))]
pub fn meet_start(
    pair: Pair,
    variables: &Variables,
    stack: &mut Stack,
) -> Result<Option<u32>, Refusal>
    requires { length stack.old < 890 }
    ensures { (g : Grammar) (rules : Rules) (here : Typing.Place) → Meets result variables.now stack.old stack.new (Typing.meets g rules here Typing.a_chain variables.now pair.first pair.second pair.at) }
{
    if pair.first != MARK_CHAIN {
        return Err(pair.first_at(Fault::Misplaced));
    }
    let s = variable_type(pair, variables)?;
    stack.push(Due::Count(s));
    Ok(None)
}

// A chain's count of applications, (K, 0).
#[tactic(auto, using(crate::proofs::Row::replicate_few), unfolding(judgement::specs::Typing::meets))]
pub fn meet_count(s: u32, pair: Pair, stack: &mut Stack) -> Result<Option<u32>, Refusal>
    requires { length stack.old < 890 }
    ensures { (g : Grammar) (rules : Rules) (here : Typing.Place) (Γ : Typing.Context) → Meets result Γ stack.old stack.new (Typing.meets g rules here (Typing.application_count s) Γ pair.first pair.second pair.at) }
{
    if pair.first < 1 || MOST_APPLICATIONS < pair.first {
        return Err(pair.first_at(Fault::Misplaced));
    }
    if pair.second != 0 {
        return Err(pair.second_at(Fault::Misplaced));
    }
    push_applications(pair.first, s, stack);
    Ok(None)
}

// May a tree of type t be joined to a sequence of type s? It is another of that very type, or an element.
#[tactic(auto, unfolding(judgement::specs::Wanted::wants, tree::specs::Sequences::element_of))]
fn joins(types: &Types, s: u32, t: u32) -> bool
    ensures { OfRows types.now (λ g. result ≡ wants g (to_join s) t) }
{
    t == s || t == types.child(s, 0, 0)
}

// May a variable of type s be what is wanted as an argument?
#[tactic(auto, unfolding(judgement::specs::Wanted::wants))]
fn fits(types: &Types, wanted: Wanted, s: u32) -> bool
    ensures { OfTypes types.now (λ g. result ≡ wants g (wanted_as wanted) s) }
{
    match wanted {
        Wanted::Exactly(t) => s == t,
        Wanted::Number => types.is_number(s),
        Wanted::Joined(t) => joins(types, t, s),
        Wanted::Sequence => types.is_sequence(s),
        Wanted::Anything => true,
    }
}

// An argument.
#[tactic(auto, unfolding(judgement::specs::Typing::meets))]
pub fn meet_argument(
    types: &Types,
    wanted: Wanted,
    pair: Pair,
    variables: &Variables,
) -> Result<Option<u32>, Refusal>
    ensures { OfTypes types.now (λ g. (rules : Rules) (here : Typing.Place) (ds : List Typing.Due) → Meets result variables.now ds ds (Typing.meets g rules here (Typing.argument (wanted_as wanted)) variables.now pair.first pair.second pair.at)) }
{
    if pair.first != MARK_VARIABLE {
        return Err(pair.first_at(Fault::Misplaced));
    }
    let s = variable_type(pair, variables)?;
    if !fits(types, wanted, s) {
        return Err(pair.second_at(Fault::Misplaced));
    }
    Ok(None)
}

// WHAT IS APPLIED

// Is a rule with this map applied here? In a replacement it needs one itself.
pub fn applies_rule(here: Place, map: u32) -> bool
    ensures { result ≡ applies_map (place_as here) map }
{
    match here {
        Place::Pattern => false,
        Place::Replacement => map / 8 % 2 == 1,
        Place::Condition => true,
    }
}

// Is the operation applied here?
#[tactic(auto, unfolding(judgement::specs::Typing::applies_operation))]
pub fn applies_operation(here: Place, o: u32) -> bool
    ensures { result ≡ Typing.applies_operation (place_as here) o }
{
    match here {
        Place::Pattern => false,
        Place::Replacement => {
            (FIRST_OPERATION..=LAST_OPERATION).contains(&o) || (JOIN..=EXTRACT).contains(&o)
        }
        Place::Condition => (FIRST_TEST..=LAST_TEST).contains(&o),
    }
}

// May the operation be applied to a scope of type s? Those on sequences want one as scope, but length puts its count into a number.
#[tactic(auto, unfolding(judgement::specs::Typing::operates_on))]
pub fn operates_on(types: &Types, o: u32, s: u32) -> bool
    ensures { OfHeads types.now (λ g. result ≡ Typing.operates_on g o s) }
{
    if o < JOIN || o == COUNT {
        types.is_number(s)
    } else {
        types.is_sequence(s)
    }
}

// May a rule be applied to a scope of type s? Without a reach only where that is its target.
pub fn fits_scope(strategy: Strategy, target: u32, s: u32) -> bool
    ensures { result ≡ or (searches_as strategy) (eqb target s) }
{
    match strategy {
        Strategy::RootOnly => target == s,
        Strategy::FirstMatch | Strategy::Exhaustive | Strategy::OnePass => true,
    }
}

// THE PAIR OF AN OPERATION

// An operation with one argument.
#[tactic(auto, unfolding(crate::specs::Views::arguments_counted))]
fn meet_one(wanted: Wanted, pair: Pair, stack: &mut Stack) -> Result<Option<u32>, Refusal>
    requires { length stack.old < 890 }
    ensures { (Γ : Typing.Context) → Meets result Γ stack.old stack.new (arguments_counted (wanted_as wanted ∷ []) Γ pair.second pair.at) }
{
    if pair.second != 1 {
        return Err(pair.second_at(Fault::NotUsable));
    }
    stack.push(Due::Argument(wanted));
    Ok(None)
}

// An operation with two numbers as arguments.
#[tactic(auto, unfolding(crate::specs::Views::arguments_counted))]
fn meet_two_numbers(pair: Pair, stack: &mut Stack) -> Result<Option<u32>, Refusal>
    requires { length stack.old < 890 }
    ensures { (Γ : Typing.Context) → Meets result Γ stack.old stack.new (arguments_counted (a_number ∷ a_number ∷ []) Γ pair.second pair.at) }
{
    if pair.second != 2 {
        return Err(pair.second_at(Fault::NotUsable));
    }
    stack.push(Due::Argument(Wanted::Number));
    stack.push(Due::Argument(Wanted::Number));
    Ok(None)
}

// An operation on numbers: round and truncate have no argument, the others one.
#[tactic(auto, unfolding(judgement::specs::Typing::wanted_by_operation, crate::specs::Views::arguments_counted))]
fn meet_numeric(pair: Pair, stack: &mut Stack) -> Result<Option<u32>, Refusal>
    requires { (pair.first < 1010) × (length stack.old < 890) }
    ensures { (s : ℕ) (Γ : Typing.Context) → Meets result Γ stack.old stack.new (arguments_counted (Typing.wanted_by_operation s pair.first) Γ pair.second pair.at) }
{
    if !(FIRST_BARE..=LAST_OPERATION).contains(&pair.first) {
        return meet_one(Wanted::Number, pair, stack);
    }
    if pair.second != 0 {
        return Err(pair.second_at(Fault::NotUsable));
    }
    Ok(None)
}

// What an operation on a sequence of type s wants, if it has one argument.
#[tactic(auto, unfolding(judgement::specs::Typing::wanted_by_edit))]
fn wanted_by_edit(s: u32, t: u32) -> Wanted
    requires { t ≡ 1011 → ⊥ }
    ensures { wanted_as result ∷ [] ≡ Typing.wanted_by_edit s t }
{
    if t == JOIN {
        return Wanted::Joined(s);
    }
    if t < COUNT {
        return Wanted::Number;
    }
    if t == COUNT {
        return Wanted::Sequence;
    }
    Wanted::Anything
}

// An operation on a sequence: select has two arguments, the others one.
#[tactic(auto, unfolding(judgement::specs::Typing::wanted_by_edit))]
fn meet_edit(s: u32, pair: Pair, stack: &mut Stack) -> Result<Option<u32>, Refusal>
    requires { length stack.old < 890 }
    ensures { (Γ : Typing.Context) → Meets result Γ stack.old stack.new (arguments_counted (Typing.wanted_by_edit s pair.first) Γ pair.second pair.at) }
{
    if pair.first == SELECT {
        return meet_two_numbers(pair, stack);
    }
    meet_one(wanted_by_edit(s, pair.first), pair, stack)
}

// An operation that is usable on a scope of type s.
#[tactic(auto, unfolding(judgement::specs::Typing::wanted_by_operation))]
pub fn meet_operation(s: u32, pair: Pair, stack: &mut Stack) -> Result<Option<u32>, Refusal>
    requires { length stack.old < 890 }
    ensures { (Γ : Typing.Context) → Meets result Γ stack.old stack.new (arguments_counted (Typing.wanted_by_operation s pair.first) Γ pair.second pair.at) }
{
    if pair.first < JOIN {
        meet_numeric(pair, stack)
    } else {
        meet_edit(s, pair, stack)
    }
}
