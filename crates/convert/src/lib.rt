// The conversion of slips from an old grammar to a new one by a table: both grammars and the table are checked, the slip is read, and written node for node.
#![tactic(auto)]

ghost use Rattle.std.specs.Prelude.{◌≡◌, true, ◌*◌, ◌≤◌, length};
ghost use Rattle.words.specs.Reader.{accepted};
ghost use Rattle.grammar.specs.Grammar as Grammar;
ghost use Rattle.tables.specs.Tables.{read_of};
ghost use Rattle.tree.specs.Limits.{most_slip_words};
ghost use Rattle.convert.specs.Conversion as Conversion;
ghost use Rattle.convert.specs.Conversion.{Converts};
ghost use Rattle.convert.specs.Refusals.{passed};
ghost use Rattle.convert.specs.Views.{ValueMade, TreeConverted, nodes_in, SlipConverted, TableChecked};

use side::Side;
use table::Table;
use tables::{GrammarTypes, Types};
use tree::limits::MOST_SLIP_WORDS;
use view::View;
use words::{Fault, Refusal};

pub mod refusal;
pub mod side;
pub mod table;
pub mod tokens;
pub mod view;

pub use refusal::{AtFault, ConversionRefusal};

// A node's value in the new grammar.
#[tactic(auto, using(crate::proofs::Writing::value_form, crate::proofs::Writing::value_kept))]
fn value_to(types: &Types, table: &Table, t: u32, v: u32) -> u32
    ensures { ValueMade types.now table.now t v result }
{
    if table::bit(types, t) == 8 {
        table.form_to(t, v)
    } else {
        v
    }
}

// Turns the marked tree of n nodes that the result begins with into a slip of the new grammar: from its last node on, so that no node is written over before it
// is read.
fn convert_marked(types: &Types, table: &Table, n: usize, res: &mut [u32])
    requires { 3 * n ≤ length res.old }
    ensures { TreeConverted types.now table.now n res.old res.new }
{
    for i in (0..n).rev() {
        let mark = res[2 * i];
        let t = marks::type_in(mark);
        let v = value_to(types, table, t, res[2 * i + 1]);
        res[3 * i] = table.type_to(t);
        res[3 * i + 1] = v;
        res[3 * i + 2] = marks::size_in(mark) as u32;
    }
}

// How many nodes the slip has.
#[tactic(auto, unfolding(crate::specs::Views::nodes_in))]
fn nodes_in(counted: bool, slip: &[u32]) -> usize
    ensures { result ≡ nodes_in counted (length slip.now) }
{
    if counted {
        slip.len() / 3
    } else {
        slip.len() / 2
    }
}

// The slip, read into the result and converted there by a table that fits.
fn convert_slip(
    types: &GrammarTypes,
    table: &Table,
    slip: &[u32],
    counted: bool,
    res: &mut [u32],
) -> Result<usize, ConversionRefusal>
    requires { most_slip_words ≤ length res.old }
    ensures { SlipConverted types.now.types table.now counted slip.now res.old res.new result }
{
    slips::read_edition(types, counted, slip, res)?;
    let nodes = nodes_in(counted, slip);
    convert_marked(&types.types, table, nodes, res);
    Ok(3 * nodes)
}

// 60 and 61 for a new grammar that passes.
fn check_table<'a>(table: &'a [u32], old: &Side, new: &[u32]) -> Result<Table<'a>, Refusal>
    requires { accepted (Grammar.read_grammar new.now) ≡ true }
    ensures { TableChecked old.now (read_of (Grammar.read_grammar new.now)) table.now result }
{
    let mut side = Side::none();
    side.fill(new);
    let new = View {
        types: &side.types.types,
        classes: &side.classes,
    };
    let old = View {
        types: &old.types.types,
        classes: &old.classes,
    };
    let (fitting, _) = Table::read(table, &old, &new)?;
    Ok(fitting)
}

// The slip converted between two grammars that pass.
fn convert_between(
    old: &[u32],
    new: &[u32],
    table: &[u32],
    slip: &[u32],
    counted: bool,
    res: &mut [u32],
) -> Result<usize, ConversionRefusal>
    requires { (accepted (Grammar.read_grammar old.now) ≡ true) × (accepted (Grammar.read_grammar new.now) ≡ true) × (most_slip_words ≤ length res.old) }
    ensures { Converts (Conversion.conversion_between counted (read_of (Grammar.read_grammar old.now)) (read_of (Grammar.read_grammar new.now)) table.now slip.now) res.old res.new result }
{
    let mut side = Side::none();
    side.fill(old);
    let fitting = check_table(table, &side, new)?;
    convert_slip(&side.types, &fitting, slip, counted, res)
}

// 4: is the grammar too long?
#[tactic(auto, unfolding(grammar::specs::Grammar::grammar_fits))]
fn check_length(grammar: &[u32], which: AtFault) -> Result<(), ConversionRefusal>
    ensures { result ≡ passed which (Grammar.grammar_fits grammar.now 0) }
{
    if grammar::limits::MOST_WORDS < grammar.len() {
        return Err(ConversionRefusal {
            grammar: which,
            refusal: Refusal::new(Fault::LongGrammar, 0),
        });
    }
    Ok(())
}

// 10 to 12: the grammar's own check.
fn check_words(grammar: &[u32], which: AtFault) -> Result<(), ConversionRefusal>
    ensures { result ≡ passed which (Grammar.read_grammar grammar.now) }
{
    match grammar::read_grammar(grammar) {
        Ok(_) => Ok(()),
        Err(refusal) => Err(ConversionRefusal {
            grammar: which,
            refusal,
        }),
    }
}

// THE CONVERSION of a slip, in the three-word edition or else in the two-word one, from the old grammar to the new: how many words were written.
pub fn convert(
    old: &[u32],
    new: &[u32],
    table: &[u32],
    slip: &[u32],
    counted: bool,
    res: &mut [u32],
) -> Result<usize, ConversionRefusal>
    ensures { Converts (Conversion.conversion counted (length res.old) old.now new.now table.now slip.now) res.old res.new result }
{
    if res.len() < MOST_SLIP_WORDS {
        return Err(ConversionRefusal::from(Refusal::new(Fault::ShortResult, 0)));
    }
    check_length(old, AtFault::Old)?;
    check_length(new, AtFault::New)?;
    check_words(old, AtFault::Old)?;
    check_words(new, AtFault::New)?;
    convert_between(old, new, table, slip, counted, res)
}
