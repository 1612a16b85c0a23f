// The layout of the whole rule book (20, 21, each with its position): it is read from its first word to its last by one reader.
#![tactic(auto)]

ghost use Rattle.std.specs.Prelude.{◌≡◌};
ghost use Rattle.words.specs.Reader as Reading;
ghost use Rattle.words.specs.Views.{answer};
ghost use Rattle.rules.specs.Layout as Layout;
ghost use Rattle.book.specs.Whole.{Steps};

use rules::limits::{MOST_RULES, PARAMETERS, REPLACEMENT};
use words::{Fault, Refusal};

// The book, and a position in it.
#[derive(Clone, Copy)]
pub struct Reader<'a> {
    pub words: &'a [u32],
    pub at: usize,
}

// The reader of a book, at a position.
pub fn reader_at<'a>(words: &'a [u32], at: usize) -> Reader<'a>
    ensures { (result.words ≡ words.entry) × (result.at ≡ at) }
{
    Reader { words, at }
}

impl<'a> Reader<'a> {
    // The reader, moved to a position.
    pub fn moved(self, at: usize) -> Reader<'a>
        ensures { (result.words ≡ self.entry.words) × (result.at ≡ at) }
    {
        Reader { at, ..self }
    }

    // The next word.
    pub fn next(&mut self) -> Result<u32, Refusal>
        ensures { (self.new.words ≡ self.old.words) × Steps (λ word. word) (Reading.word 20 self.old.words.now self.old.at) result self.old.at self.new.at }
    {
        let (word, next) = words::read_word(Fault::BookEnds, self.words, self.at)?;
        self.at = next;
        Ok(word)
    }

    // A count: the next word, from low to high.
    pub fn count(&mut self, low: u32, high: u32) -> Result<u32, Refusal>
        ensures { (self.new.words ≡ self.old.words) × Steps (λ count. count) (Layout.field self.old.words.now low high self.old.at) result self.old.at self.new.at }
    {
        let (count, next) = rules::field(self.words, low, high, self.at)?;
        self.at = next;
        Ok(count)
    }

    // The next rule.
    fn rule(&mut self, types: u32) -> Result<(), Refusal>
        ensures { (self.new.words ≡ self.old.words) × Steps (λ rule. tt) (Layout.rule types self.old.words.now self.old.at) result self.old.at self.new.at }
    {
        self.at = rules::read_rule(types, self.words, self.at)?;
        Ok(())
    }

    // The end: no words are left over.
    #[tactic(auto, unfolding(words::specs::Reader::end))]
    pub fn end(self) -> Result<usize, Refusal>
        ensures { result ≡ answer (Reading.end 20 self.entry.words.now self.entry.at) }
    {
        if self.at < self.words.len() {
            Err(Refusal::new(Fault::BookEnds, self.at))
        } else {
            Ok(self.at)
        }
    }

    // Has the map that comes next a main rule's bits? Where none comes, there is nothing to refuse here.
    #[tactic(auto, unfolding(words::specs::Reader::word, rules::specs::Layout::main_fits))]
    fn main_fits(mut self) -> bool
        ensures { result ≡ Layout.main_fits self.entry.words.now self.entry.at }
    {
        match self.next() {
            Ok(map) => rules::announces(map, REPLACEMENT) && !rules::announces(map, PARAMETERS),
            Err(_) => true,
        }
    }
}

// The layout of the whole book, over a grammar of so many types.
#[tactic(auto, using(crate::proofs::Whole::step_ok, crate::proofs::Whole::step_err, crate::proofs::Whole::rest_done, crate::proofs::Whole::rest_stop, crate::proofs::Whole::rest_next, crate::proofs::Whole::layout_refused, crate::proofs::Whole::layout_main, crate::proofs::Whole::layout_rest))]
pub fn read_layout(types: u32, ws: &[u32]) -> Result<usize, Refusal>
    ensures { result ≡ answer (Layout.read_layout types ws.now) }
{
    let mut reader = reader_at(ws, 0);
    let rules = reader.count(1, MOST_RULES)?;
    if !reader.main_fits() {
        return Err(Refusal::new(Fault::BookWord, reader.at));
    }
    for _ in 0..rules {
        reader.rule(types)?;
    }
    reader.end()
}
