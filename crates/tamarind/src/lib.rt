// The product's face: the callable functions, and their exports for C and Rust.
#![tactic(auto)]

ghost use Rattle.std.specs.Prelude.{◌≡◌, ◌<◌, ◌≤◌, ◌^◌, length};
ghost use Rattle.words.specs.Reader.{Words};
ghost use Rattle.words.specs.Views.{answer};
ghost use Rattle.grammar.specs.Grammar.{check_grammar};
ghost use Rattle.tree.specs.Slip.{check_slip};
ghost use Rattle.judgement.specs.Typing.{check_rules};
ghost use Rattle.meaning.specs.Limits.{least_work};
ghost use Rattle.meaning.specs.Outcome.{call_fits, output};
ghost use Rattle.meaning.specs.Stops.{number_of};
ghost use Rattle.tables.specs.Types.{IsBlank};
ghost use Rattle.tamarind.specs.Run.{inputs_of, inputs_in, memories, Runs, RunsOver, InputsRead, Answered, Accepted};
ghost use Rattle.tamarind.specs.Exports.{exported, exported_check, exported_counts, exported_outcome, RunExported, exported_converted, ConversionExported, posts_result, posting, edition};

use calls::Called;
use convert::ConversionRefusal;
use meaning::State;
pub use meaning::Stop;
use rules::Program;
use rules::limits::MOST_VARIABLES;
use tables::{AllTypes, Types};
use words::{Fault, Refusal};

// A single check's answer: the number of the refusal and its position; 0 and 0 where nothing is refused.
#[repr(C)]
#[derive(Clone, Copy)]
pub struct Answer {
    pub number: u32,
    pub position: usize,
}

// A check's answer as it is exported.
fn export(checked: Result<usize, Refusal>) -> Answer
    ensures { result ≡ exported_check checked }
{
    match checked {
        Ok(_) => Answer {
            number: 0,
            position: 0,
        },
        Err(found) => Answer {
            number: found.number(),
            position: found.position(),
        },
    }
}

// The single check of a grammar.
pub fn tamarind_check_grammar(grammar: &[u32]) -> Answer
    ensures { result ≡ exported (check_grammar grammar.now) }
{
    export(grammar::check_grammar(grammar))
}

// The single check of a slip, given its grammar.
pub fn tamarind_check_slip(grammar: &[u32], slip: &[u32]) -> Answer
    ensures { result ≡ exported (check_slip grammar.now slip.now) }
{
    export(slips::check_slip(grammar, slip))
}

// The single check of a rule book, given its grammar.
pub fn tamarind_check_rules(grammar: &[u32], rules: &[u32]) -> Answer
    ensures { result ≡ exported (check_rules grammar.now rules.now) }
{
    export(typing::check_rules(grammar, rules))
}

const LEAST_RESULT: usize = 6144;

const LEAST_WORK: usize = 16384;

const MOST_BUDGET: u32 = 1000000;

const MOST_CALLS: usize = 32;

// The number of a stop.
pub fn number_of(cause: Stop) -> u32
    ensures { result ≡ number_of cause }
{
    cause.number()
}

// What an accepted run counted: its attempts, the first call's replacements, and the words that it filled.
#[derive(Clone, Copy)]
pub struct Counts {
    pub attempts: u32,
    pub replacements: u32,
    pub filled: usize,
}

// The outcome of a run.
#[derive(Clone, Copy)]
pub enum Outcome {
    Refused(Refusal),
    Done(Counts),
    Stopped(Stop, Counts),
}

// What a run is given beside its two memories.
#[derive(Clone, Copy)]
struct Request<'a> {
    grammar: &'a [u32],
    rules: &'a [u32],
    slip: &'a [u32],
    budget: u32,
}

// The check of the call itself: 1 to 5.
#[tactic(auto, unfolding(meaning::specs::Outcome::call_fits, grammar::specs::Grammar::grammar_fits, rules::specs::Layout::rules_fit))]
fn call_fits(res: usize, work: usize, request: &Request) -> Result<usize, Refusal>
    ensures { result ≡ answer (call_fits res work (inputs_in request.now) 0) }
{
    let grammar = request.grammar;
    let rules = request.rules;
    if res < LEAST_RESULT {
        return Err(Refusal::new(Fault::ShortResult, 0));
    }
    if work < LEAST_WORK {
        return Err(Refusal::new(Fault::ShortWork, 0));
    }
    if !(1..=MOST_BUDGET).contains(&request.budget) {
        return Err(Refusal::new(Fault::Budget, 0));
    }
    if grammar::limits::MOST_WORDS < grammar.len() {
        return Err(Refusal::new(Fault::LongGrammar, 0));
    }
    if rules::limits::MOST_WORDS < rules.len() {
        return Err(Refusal::new(Fault::LongBook, 0));
    }
    Ok(0)
}

// The checks of the grammar, the rules and the slip, in this order. The grammar's types are worked out on the way, and at the last the slip's tree is put at the bottom of work memory.
fn read_inputs(request: &Request, types: &mut AllTypes, work: &mut [u32]) -> Result<usize, Refusal>
    requires { IsBlank types.old.types.types × (length request.now.rules.now < 2 ^ 32) × (least_work ≤ length work.old) }
    ensures { InputsRead request.now.grammar.now request.now.rules.now request.now.slip.now types.new.types.types work.old work.new result }
{
    grammar::read_grammar(request.grammar)?;
    types.fill(request.grammar);
    typing::read_rules(&types.types, request.rules)?;
    slips::read_slip(&types.types, request.slip, work)
}

// The answer that the first call gives, with so many words filled.
fn answer_of(c: Called, budget: u32, filled: usize) -> Outcome
    requires { c.left.attempts ≤ budget }
    ensures { Answered c budget filled result }
{
    let left = c.left;
    let counts = Counts {
        attempts: budget - left.attempts,
        replacements: c.replacements,
        filled,
    };
    match c.stop {
        None => Outcome::Done(counts),
        Some(halt) => Outcome::Stopped(halt.stop(), counts),
    }
}

// Runs what nothing refuses: the main rule on the slip's tree, which stands at the bottom of work memory.
fn execute(request: &Request, types: &Types, res: &mut [u32], work: &mut [u32]) -> Outcome
    requires { Accepted (inputs_in request.now) (length res.old) work.old types.now }
    ensures { RunsOver (inputs_in request.now) res.old (length work.old) result (memories res.new work.new) }
{
    let book = request.rules;
    let slip = request.slip;
    let starts = typing::rule_starts(types.count, book, words::word(book, 0));
    let program = Program {
        types,
        book,
        starts: &starts,
    };
    // The main rule has no arguments.
    let mut places = [0u32; MOST_VARIABLES];
    let c = calls::call(
        &program,
        work,
        program.rule_at(0),
        0,
        slip.len() / 3,
        &mut places,
        0,
        0,
        MOST_CALLS - 1,
        State {
            attempts: request.budget,
        },
    );
    slips::write_slip(&work[..2 * c.nodes], res);
    words::clear(work);
    answer_of(c, request.budget, 3 * c.nodes)
}

// A run: every check, then the main rule on the slip's tree.
pub fn run(
    grammar: &[u32],
    rules: &[u32],
    slip: &[u32],
    budget: u32,
    res: &mut [u32],
    work: &mut [u32],
) -> Outcome
    ensures { Runs (inputs_of budget grammar.now rules.now slip.now) (memories res.old work.old) result (memories res.new work.new) }
{
    let request = Request {
        grammar,
        rules,
        slip,
        budget,
    };
    if let Err(refusal) = call_fits(res.len(), work.len(), &request) {
        return Outcome::Refused(refusal);
    }
    let mut types = AllTypes::none();
    match read_inputs(&request, &mut types, work) {
        Err(refusal) => Outcome::Refused(refusal),
        Ok(_) => execute(&request, &types.types.types, res, work),
    }
}

// Is it the result that is posted? If the run was done, and the filled count does not lie past the result's end.
fn posts_result(done: bool, filled: usize, result_len: usize) -> bool
    ensures { result ≡ posts_result done filled result_len }
{
    done && filled <= result_len
}

// The words to post: the filled part of the result if the run was done, else the slip; the slip also where the count lies past the result's end.
pub fn words_to_post<'a>(done: bool, filled: usize, res: &'a [u32], slip: &'a [u32]) -> &'a [u32]
    ensures { result.now ≡ output done filled res.now slip.now }
{
    if posts_result(done, filled, res.len()) {
        return &res[..filled];
    }
    slip
}

// The sources of a posting.
const POST_SLIP: u32 = 0;

const POST_RESULT: u32 = 1;

// What is to be posted: the first words of its source, so many.
#[repr(C)]
#[derive(Clone, Copy)]
pub struct Posting {
    pub source: u32,
    pub words: usize,
}

// The words to post, for a caller that cannot be handed a part of a slice: given how the run ended and what it filled, where they stand and how many they are.
pub fn tamarind_words_to_post(
    ending: u32,
    filled: usize,
    result_len: usize,
    slip_len: usize,
) -> Posting
    ensures { result ≡ posting ending filled result_len slip_len }
{
    if posts_result(ending == 0, filled, result_len) {
        return Posting {
            source: POST_RESULT,
            words: filled,
        };
    }
    Posting {
        source: POST_SLIP,
        words: slip_len,
    }
}

// A run's answer as it is exported. The ending is 0 done, 1 stopped, 2 refused; the number is that of the stop or the refusal, the position the refusal's.
#[repr(C)]
#[derive(Clone, Copy)]
pub struct RunAnswer {
    pub ending: u32,
    pub number: u32,
    pub position: usize,
    pub attempts: u32,
    pub replacements: u32,
    pub filled: usize,
}

// An accepted run's answer as it is exported.
fn export_counts(ending: u32, number: u32, counts: Counts) -> RunAnswer
    ensures { result ≡ exported_counts ending number counts.attempts counts.replacements counts.filled }
{
    RunAnswer {
        ending,
        number,
        position: 0,
        attempts: counts.attempts,
        replacements: counts.replacements,
        filled: counts.filled,
    }
}

// An outcome as it is exported.
fn export_run(outcome: Outcome) -> RunAnswer
    ensures { result ≡ exported_outcome outcome }
{
    match outcome {
        Outcome::Refused(refusal) => RunAnswer {
            ending: 2,
            number: refusal.number(),
            position: refusal.position(),
            attempts: 0,
            replacements: 0,
            filled: 0,
        },
        Outcome::Done(counts) => export_counts(0, 0, counts),
        Outcome::Stopped(cause, counts) => export_counts(1, number_of(cause), counts),
    }
}

// A run.
pub fn tamarind_run(
    grammar: &[u32],
    rules: &[u32],
    slip: &[u32],
    budget: u32,
    res: &mut [u32],
    work: &mut [u32],
) -> RunAnswer
    ensures { RunExported (inputs_of budget grammar.now rules.now slip.now) (memories res.old work.old) result (memories res.new work.new) }
{
    export_run(run(grammar, rules, slip, budget, res, work))
}

// A conversion's answer as it is exported: the number of the refusal and its position, the grammar at fault (1 the old one, 2 the new one), and the words
// filled; each 0 where it does not apply.
#[repr(C)]
#[derive(Clone, Copy)]
pub struct ConversionAnswer {
    pub number: u32,
    pub position: usize,
    pub grammar: u32,
    pub filled: usize,
}

// What came of a conversion, as it is exported.
fn export_conversion(converted: Result<usize, ConversionRefusal>) -> ConversionAnswer
    ensures { result ≡ exported_converted converted }
{
    match converted {
        Ok(filled) => ConversionAnswer {
            number: 0,
            position: 0,
            grammar: 0,
            filled,
        },
        Err(found) => ConversionAnswer {
            number: found.refusal.number(),
            position: found.refusal.position(),
            grammar: found.grammar.number(),
            filled: 0,
        },
    }
}

// The conversion of a slip, in the three-word edition if it is counted, else in the two-word one, from the old grammar to the new by the table.
pub fn tamarind_convert(
    old_grammar: &[u32],
    new_grammar: &[u32],
    table: &[u32],
    slip: &[u32],
    counted: bool,
    res: &mut [u32],
) -> ConversionAnswer
    ensures { ConversionExported counted old_grammar.now new_grammar.now table.now slip.now res.old res.new result }
{
    let converted = convert::convert(old_grammar, new_grammar, table, slip, counted, res);
    export_conversion(converted)
}

// The number of the last change request that a caller can see.
const EDITION: u32 = 8;

// The edition of these functions: a caller asks whether it was written for this one.
pub fn tamarind_edition() -> u32
    ensures { result ≡ edition }
{
    EDITION
}
