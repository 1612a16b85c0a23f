// What C calls: each function is that of `tamarind` by the same name, and says the same. The archive is made of this crate.
#![tactic(auto)]

ghost use Rattle.std.specs.Prelude.{◌≡◌};
ghost use Rattle.grammar.specs.Grammar.{check_grammar};
ghost use Rattle.tree.specs.Slip.{check_slip};
ghost use Rattle.judgement.specs.Typing.{check_rules};
ghost use Rattle.tamarind.specs.Run.{inputs_of, memories};
ghost use Rattle.tamarind.specs.Exports.{exported, RunExported, ConversionExported, posting, edition};

use tamarind::{Answer, ConversionAnswer, Posting, RunAnswer};

// The single check of a grammar.
#[unsafe(no_mangle)]
pub extern "C" fn tamarind_check_grammar(grammar: &[u32]) -> Answer
    ensures { result ≡ exported (check_grammar grammar.now) }
{
    tamarind::tamarind_check_grammar(grammar)
}

// The single check of a slip, given its grammar.
#[unsafe(no_mangle)]
pub extern "C" fn tamarind_check_slip(grammar: &[u32], slip: &[u32]) -> Answer
    ensures { result ≡ exported (check_slip grammar.now slip.now) }
{
    tamarind::tamarind_check_slip(grammar, slip)
}

// The single check of a rule book, given its grammar.
#[unsafe(no_mangle)]
pub extern "C" fn tamarind_check_rules(grammar: &[u32], rules: &[u32]) -> Answer
    ensures { result ≡ exported (check_rules grammar.now rules.now) }
{
    tamarind::tamarind_check_rules(grammar, rules)
}

// The words to post, for a caller that cannot be handed a part of a slice: given how the run ended and what it filled, where they stand and how many they are.
#[unsafe(no_mangle)]
pub extern "C" fn tamarind_words_to_post(
    ending: u32,
    filled: usize,
    result_len: usize,
    slip_len: usize,
) -> Posting
    ensures { result ≡ posting ending filled result_len slip_len }
{
    tamarind::tamarind_words_to_post(ending, filled, result_len, slip_len)
}

// A run.
#[unsafe(no_mangle)]
pub extern "C" fn tamarind_run(
    grammar: &[u32],
    rules: &[u32],
    slip: &[u32],
    budget: u32,
    res: &mut [u32],
    work: &mut [u32],
) -> RunAnswer
    ensures { RunExported (inputs_of budget grammar.now rules.now slip.now) (memories res.old work.old) result (memories res.new work.new) }
{
    tamarind::tamarind_run(grammar, rules, slip, budget, res, work)
}

// The conversion of a slip, in the three-word edition if it is counted, else in the two-word one, from the old grammar to the new by the table.
#[unsafe(no_mangle)]
pub extern "C" fn tamarind_convert(
    old_grammar: &[u32],
    new_grammar: &[u32],
    table: &[u32],
    slip: &[u32],
    counted: bool,
    res: &mut [u32],
) -> ConversionAnswer
    ensures { ConversionExported counted old_grammar.now new_grammar.now table.now slip.now res.old res.new result }
{
    tamarind::tamarind_convert(old_grammar, new_grammar, table, slip, counted, res)
}

// The edition of these functions: a caller asks whether it was written for this one.
#[unsafe(no_mangle)]
pub extern "C" fn tamarind_edition() -> u32
    ensures { result ≡ edition }
{
    tamarind::tamarind_edition()
}
