// The tables of a grammar's types, worked out once, and the lookups in them.
//
// `heads` has two words a type: the map of its record and how many values its nodes may have. `rows` has a row of nine for each type and each value
// below 16: how many children such a node has, and their types.
#![tactic(auto)]

ghost use Rattle.std.specs.Prelude.{◌≡◌, ◌+◌, ◌*◌, ◌≤◌, ◌<◌, true, get_or, set, replicate, ltb};
ghost use Rattle.words.specs.Reader as Reader;
ghost use Rattle.words.specs.Reader.{accepted, or};
ghost use Rattle.grammar.specs.Grammar as Grammar;
ghost use Rattle.grammar.specs.Kinds.{kind_of, allowed, children, is_number, is_sequence, is_text};
ghost use Rattle.grammar.specs.Values.{values_of};
ghost use Rattle.tables.specs.Tables.{Tables, read_of};
ghost use Rattle.tables.specs.Filling.{type_count, kind_read, ElementPut, FormPut, FormsPut, KindPut};

pub use all_types::AllTypes;
use grammar::limits::{FIRST_LITERAL, LAST_LITERAL, MOST_ELEMENTS, MOST_FORMS, MOST_TYPES};
pub use grammar_types::GrammarTypes;
pub use types::Types;

pub mod all_types;
pub mod grammar_types;
pub mod types;

// The entries of the tables: two words a type, and a row of nine for each type and each of 16 values.
pub const HEADS: usize = 64 * 2;

pub const ROWS: usize = 64 * 16 * 9;

const NUMBERS: u32 = grammar::limits::GREATEST_NUMBER + 1;

const NAMES: u32 = grammar::limits::GREATEST_NAME + 1;

// Is the element a literal, which has no node?
fn is_literal(e: u32) -> bool
    ensures { result ≡ Grammar.is_literal e }
{
    (FIRST_LITERAL..=LAST_LITERAL).contains(&e)
}

// Stores an entry of a row.
fn put(rows: &mut [u8; ROWS], i: usize, x: usize)
    requires { (i < 9216) × (x < 256) }
    ensures { rows.new ≡ set rows.old i x }
{
    rows[i] = x as u8;
}

// Stores an element that is a type behind the m children before it, in the row at `base`.
fn put_element(rows: &mut [u8; ROWS], base: usize, m: usize, e: u32) -> usize
    requires { (base + 9 ≤ 9216) × (m < 8) × (or (ltb e 64) (Grammar.is_literal e) ≡ true) }
    ensures { ElementPut rows.old rows.new base m e result }
{
    if is_literal(e) {
        return m;
    }
    put(rows, base + 1 + m, e as usize);
    m + 1
}

// Stores the row of the form whose count stands at `at`; gives the position after the form.
fn fill_form(ws: &[u32], at: usize, rows: &mut [u8; ROWS], base: usize) -> usize
    requires { (base + 9 ≤ 9216) × (type_count ws.now ≤ 64) × (accepted (Grammar.form ws.now (type_count ws.now) at) ≡ true) }
    ensures { FormPut rows.old rows.new base result (Grammar.form ws.now (type_count ws.now) at) }
{
    let count = words::word(ws, at);
    let mut p = at + 1;
    let mut m: usize = 0;
    for _ in 0..count {
        m = put_element(rows, base, m, words::word(ws, p));
        p += 1;
    }
    put(rows, base, m);
    p
}

// Stores the rows of the k forms of type t, the first of which stands at `start`; gives the position after them.
fn fill_forms(ws: &[u32], start: usize, k: u32, t: usize, rows: &mut [u8; ROWS]) -> usize
    requires { (t < 64) × (k ≤ 16) × (type_count ws.now ≤ 64) × (accepted (Reader.many k (Grammar.form ws.now (type_count ws.now)) start) ≡ true) }
    ensures { FormsPut rows.old rows.new t result (Reader.many k (Grammar.form ws.now (type_count ws.now)) start) }
{
    let mut at = start;
    for v in 0..k as usize {
        at = fill_form(ws, at, rows, (t * 16 + v) * 9);
    }
    at
}

// Stores the rows of type t, whose record stands at `at`; gives the position after the record.
fn fill_rows(ws: &[u32], at: usize, t: usize, rows: &mut [u8; ROWS]) -> usize
    requires { (t < 64) × (type_count ws.now ≤ 64) × (accepted (Grammar.kind ws.now (type_count ws.now) at) ≡ true) }
    ensures { KindPut rows.old rows.new t result (Grammar.kind ws.now (type_count ws.now) at) }
{
    let map = words::word(ws, at);
    let field = words::word(ws, at + 1);
    let base = t * 16 * 9;
    match map {
        1 => at + 2,
        2 => {
            put(rows, base, 1);
            put(rows, base + 1, field as usize);
            at + 2
        }
        8 => fill_forms(ws, at + 2, field, t, rows),
        _ => {
            put(rows, base, 2);
            put(rows, base + 1, field as usize);
            put(rows, base + 2, t);
            at + 2
        }
    }
}

// How many values a node of the type may have whose record stands at `at`.
fn value_count(ws: &[u32], at: usize) -> u32
    requires { accepted (Grammar.kind ws.now (type_count ws.now) at) ≡ true }
    ensures { result ≡ values_of (kind_read (Grammar.kind ws.now (type_count ws.now) at)) }
{
    let map = words::word(ws, at);
    let field = words::word(ws, at + 1);
    match map {
        1 if field == 2 => NUMBERS,
        1 => NAMES,
        8 => field,
        _ => 2,
    }
}

// Works the tables out, from the words of a grammar that passes its check.
fn fill(ws: &[u32], heads: &mut [u32; HEADS], rows: &mut [u8; ROWS])
    requires { (accepted (Grammar.read_grammar ws.now) ≡ true) × (heads.old ≡ replicate 128 0) × (rows.old ≡ replicate 9216 0) }
    ensures { Tables (read_of (Grammar.read_grammar ws.now)) heads.new rows.new }
{
    let count = words::word(ws, 0) as usize;
    let mut at: usize = 1;
    for t in 0..count {
        heads[t * 2] = words::word(ws, at);
        heads[t * 2 + 1] = value_count(ws, at);
        at = fill_rows(ws, at, t, rows);
    }
}
