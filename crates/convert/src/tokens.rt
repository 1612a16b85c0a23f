// The classes of a grammar's tokens, read from its words: the types do not tell names from strings.
ghost use Rattle.std.specs.Prelude.{◌≡◌, true};
ghost use Rattle.words.specs.Reader as Reader;
ghost use Rattle.words.specs.Reader.{accepted};
ghost use Rattle.grammar.specs.Grammar as Grammar;
ghost use Rattle.tables.specs.Tables.{read_of};
ghost use Rattle.tables.specs.Filling.{type_count, kind_read, next_of};
ghost use Rattle.convert.specs.Table.{class_of};
ghost use Rattle.convert.specs.Views.{Classes};

// The position after the k forms that stand at `start`, in a grammar that passes.
#[tactic(auto, using(crate::proofs::TokenClasses::walk_start, crate::proofs::TokenClasses::walk_end, crate::proofs::TokenClasses::walk_inside, crate::proofs::TokenClasses::walk_more))]
fn forms_end(ws: &[u32], start: usize, k: u32) -> usize
    requires { accepted (Reader.many k (Grammar.form ws.now (type_count ws.now)) start) ≡ true }
    ensures { result ≡ next_of (Reader.many k (Grammar.form ws.now (type_count ws.now)) start) }
{
    let mut at = start;
    for _ in 0..k {
        let elements = words::word(ws, at);
        at += 1 + elements as usize;
    }
    at
}

// The position after the record that stands at `at`.
#[tactic(auto, using(crate::proofs::TokenClasses::record_long, crate::proofs::TokenClasses::end_forms, crate::proofs::TokenClasses::end_field))]
fn record_end(ws: &[u32], at: usize) -> usize
    requires { accepted (Grammar.kind ws.now (type_count ws.now) at) ≡ true }
    ensures { result ≡ next_of (Grammar.kind ws.now (type_count ws.now) at) }
{
    if words::word(ws, at) == 8 {
        let forms = words::word(ws, at + 1);
        forms_end(ws, at + 2, forms)
    } else {
        at + 2
    }
}

// The class of the token whose record stands at `at`, 0 for any other kind.
#[tactic(auto, using(crate::proofs::TokenClasses::record_long, crate::proofs::TokenClasses::class_token, crate::proofs::TokenClasses::class_none))]
fn class_at(ws: &[u32], at: usize) -> u32
    requires { accepted (Grammar.kind ws.now (type_count ws.now) at) ≡ true }
    ensures { result ≡ class_of (kind_read (Grammar.kind ws.now (type_count ws.now) at)) }
{
    if words::word(ws, at) == 1 {
        words::word(ws, at + 1)
    } else {
        0
    }
}

// The classes of the types of a grammar that passes.
#[tactic(auto, using(crate::proofs::TokenClasses::class_start, crate::proofs::TokenClasses::class_record, crate::proofs::TokenClasses::class_more, crate::proofs::TokenClasses::class_end, crate::proofs::TokenClasses::few_types))]
pub fn classes(ws: &[u32]) -> [u32; 64]
    requires { accepted (Grammar.read_grammar ws.now) ≡ true }
    ensures { Classes (read_of (Grammar.read_grammar ws.now)) result }
{
    let mut classes = [0u32; 64];
    let mut at: usize = 1;
    for t in 0..words::word(ws, 0) as usize {
        classes[t] = class_at(ws, at);
        at = record_end(ws, at);
    }
    classes
}
