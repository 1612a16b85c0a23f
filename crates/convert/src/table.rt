// The table by which slips of the old grammar become slips of the new one: its check (60, 61), and the lookups in it.
ghost use Rattle.std.specs.Prelude.{◌≡◌, ◌*◌, ◌≤◌, ◌<◌, length};
ghost use Rattle.words.specs.Reader as Reader;
ghost use Rattle.words.specs.Views.{answer, got};
ghost use Rattle.grammar.specs.Kinds.{kind_of, forms_of};
ghost use Rattle.tables.specs.Types.{OfHeads};
ghost use Rattle.convert.specs.Table.{named, bit_of};
ghost use Rattle.convert.specs.Views.{place_at, type_at, form_at, EntryRead, WholeRead, AlikeTested, FormTested, FormsTested, TypeTested, TypesTested, TableRead};

use crate::view::View;
use tables::Types;
use words::{Fault, Refusal};

// One number of the table, below n.
#[tactic(auto, using(words::proofs::Laws::read_word, words::proofs::Laws::read_bad), unfolding(crate::specs::Table::named))]
fn named(table: &[u32], n: u32, at: usize) -> Result<(u32, usize), Refusal>
    ensures { result ≡ got (named table.now n at) }
{
    let (w, next) = words::read_word(Fault::TableWord, table, at)?;
    if w < n {
        Ok((w, next))
    } else {
        Err(Refusal::new(Fault::TableWord, at))
    }
}

// k numbers of the table, each below n.
#[tactic(auto, using(words::proofs::Laws::read_word, words::proofs::Laws::read_bad, words::proofs::Laws::answer_done, words::proofs::Laws::answer_stop, words::proofs::Laws::answer_next))]
fn numbers(table: &[u32], n: u32, k: u32, start: usize) -> Result<usize, Refusal>
    ensures { result ≡ answer (Reader.many k (named table.now n) start) }
{
    let mut at = start;
    for _ in 0..k {
        let (_, next) = named(table, n, at)?;
        at = next;
    }
    Ok(at)
}

// How many forms the type has.
#[tactic(auto, using(crate::proofs::Entries::count_forms, crate::proofs::Entries::count_none))]
fn form_count(types: &Types, t: u32) -> u32
    ensures { OfHeads types.now (λ g. result ≡ length (forms_of (kind_of g t))) }
{
    if types.map_of(t) == 8 {
        types.values(t)
    } else {
        0
    }
}

// The bit of a type's kind.
#[tactic(auto, using(crate::proofs::Entries::bit_none, crate::proofs::Entries::bit_there))]
pub fn bit(types: &Types, t: u32) -> u32
    ensures { OfHeads types.now (λ g. result ≡ bit_of (kind_of g t)) }
{
    match types.map_of(t) {
        0 => 8,
        map => map,
    }
}

// What the table says of one type with k forms.
#[tactic(auto, using(crate::proofs::Entries::entry_bad, crate::proofs::Entries::entry_there))]
fn entry(new: &Types, table: &[u32], k: u32, at: usize) -> Result<usize, Refusal>
    ensures { EntryRead new.now table.now k at result }
{
    let (t, next) = named(table, new.count, at)?;
    let forms = form_count(new, t);
    numbers(table, forms, k, next)
}

// The table's words, with the places of what they say of each old type: their end, where there is no such type.
#[derive(Drop)]
pub struct Table<'a> {
    pub words: &'a [u32],
    pub places: [usize; 64],
}

impl<'a> Table<'a> {
    // 60: the whole table.
    #[tactic(auto, using(crate::proofs::Entries::table_start, crate::proofs::Entries::table_fault, crate::proofs::Entries::table_more, crate::proofs::Entries::table_left, crate::proofs::Entries::table_end))]
    fn whole(words: &'a [u32], old: &Types, new: &Types) -> Result<Table<'a>, Refusal>
        requires { old.now.count ≤ 64 }
        ensures { WholeRead old.now new.now words.now result }
    {
        let mut places = [words.len(); 64];
        let mut at: usize = 0;
        for t in 0..old.count {
            places[t as usize] = at;
            let forms = form_count(old, t);
            at = entry(new, words, forms, at)?;
        }
        if at < words.len() {
            return Err(Refusal::new(Fault::TableWord, at));
        }
        Ok(Table { words, places })
    }

    // 60, then 61: the table of a conversion, and where it ends.
    pub fn read(words: &'a [u32], old: &View, new: &View) -> Result<(Table<'a>, usize), Refusal>
        requires { old.now.types.now.count ≤ 64 }
        ensures { TableRead old.now new.now words.now result }
    {
        let table = Table::whole(words, old.types, new.types)?;
        if table.type_to(0) != 0 {
            return Err(Refusal::new(Fault::TableMisfit, 0));
        }
        let end = table.types_fit(old, new)?;
        Ok((table, end))
    }

    // Where the word of a type stands.
    fn place(&self, t: u32) -> usize
        ensures { (result ≡ place_at self.now t) × (result ≤ length self.now.words.now) }
    {
        let end = self.words.len();
        self.places.get(t as usize).copied().unwrap_or(end).min(end)
    }

    // The new type of a type.
    pub fn type_to(&self, t: u32) -> u32
        ensures { result ≡ type_at self.now t }
    {
        let words = self.words;
        words::word(words, self.place(t))
    }

    // The new number of a form.
    pub fn form_to(&self, t: u32, v: u32) -> u32
        ensures { result ≡ form_at self.now t v }
    {
        let words = self.words;
        words::word(words, self.place(t) + 1 + v as usize)
    }

    // The kinds of an old type and a new one: the same, of the same class, with the mapped element?
    #[tactic(auto, using(crate::proofs::Fitting::alike_not, crate::proofs::Fitting::alike_formed, crate::proofs::Fitting::alike_classed, crate::proofs::Fitting::alike_element))]
    fn alike(&self, old: &View, new: &View, t: u32, m: u32) -> bool
        ensures { AlikeTested old.now new.now self.now t m result }
    {
        let was = old.types;
        let is = new.types;
        let kind = bit(was, t);
        if kind != bit(is, m) {
            return false;
        }
        match kind {
            8 => true,
            1 => {
                let was = old.classes;
                let is = new.classes;
                words::word(was, t as usize) == words::word(is, m as usize)
            }
            _ => self.type_to(was.child(t, 0, 0)) == is.child(m, 0, 0),
        }
    }

    // Has form n of the new type m the mapped types of form v of the old type t?
    #[tactic(auto, using(crate::proofs::Fitting::form_start, crate::proofs::Fitting::form_lengths, crate::proofs::Fitting::form_end, crate::proofs::Fitting::form_differs, crate::proofs::Fitting::form_more))]
    fn same_form(&self, old: &Types, new: &Types, t: u32, v: u32, m: u32, n: u32) -> bool
        ensures { FormTested old.now new.now self.now t v m n result }
    {
        let count = old.child_count(t, v);
        if count != new.child_count(m, n) {
            return false;
        }
        for i in 0..count {
            let mapped = self.type_to(old.child(t, v, i));
            if mapped != new.child(m, n, i) {
                return false;
            }
        }
        true
    }

    // The first of the k forms of the old type t that does not fit the new type m; k if all do.
    #[tactic(auto, using(crate::proofs::Fitting::misfit_start, crate::proofs::Fitting::misfit_end, crate::proofs::Fitting::misfit_found, crate::proofs::Fitting::misfit_more))]
    fn first_misfit(&self, old: &Types, new: &Types, k: u32, t: u32, m: u32) -> u32
        ensures { FormsTested old.now new.now self.now k t m result }
    {
        for v in 0..k {
            let n = self.form_to(t, v);
            if !self.same_form(old, new, t, v, m, n) {
                return v;
            }
        }
        k
    }

    // 61 at the word of the old type t, which stands at `at`, or of its first form that does not fit.
    #[tactic(auto, using(crate::proofs::Fitting::type_unlike, crate::proofs::Fitting::type_misfit, crate::proofs::Fitting::type_whole))]
    fn type_fits(&self, old: &View, new: &View, t: u32, at: usize) -> Result<usize, Refusal>
        requires { (t < 64) × (at ≤ t * 4294967296) }
        ensures { TypeTested old.now new.now self.now t at result }
    {
        let m = self.type_to(t);
        if !self.alike(old, new, t, m) {
            return Err(Refusal::new(Fault::TableMisfit, at));
        }
        let k = form_count(old.types, t);
        let v = self.first_misfit(old.types, new.types, k, t, m);
        if v < k {
            return Err(Refusal::new(Fault::TableMisfit, at + 1 + v as usize));
        }
        Ok(at + 1 + k as usize)
    }

    // 61: the old types, each with its forms.
    #[tactic(auto, using(crate::proofs::Fitting::types_start, crate::proofs::Fitting::types_end, crate::proofs::Fitting::types_misfit, crate::proofs::Fitting::types_more))]
    fn types_fit(&self, old: &View, new: &View) -> Result<usize, Refusal>
        requires { old.now.types.now.count ≤ 64 }
        ensures { TypesTested old.now new.now self.now result }
    {
        let mut at: usize = 0;
        let types = old.types;
        for t in 0..types.count {
            at = self.type_fits(old, new, t, at)?;
        }
        Ok(at)
    }
}
