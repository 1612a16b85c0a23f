// A rule book whose pairs are typed: its words, where its rules stand, and the types of its grammar.
ghost use Rattle.std.specs.Prelude.{◌≤◌, ◌<◌, ◌^◌, length, get_or};
ghost use Rattle.pairs.specs.Book.{Given};

use rules::limits::STARTS;
use tables::GrammarTypes;

#[derive(Clone, Copy)]
pub struct Rulebook<'a> {
    pub types: &'a GrammarTypes,
    pub words: &'a [u32],
    pub starts: &'a [usize; STARTS],
    ghost few: { get_or words.now 0 0 ≤ 64 },
    ghost short: { length words.now < 2 ^ 32 },
    ghost given: { ∥ Given types.now.types words.now starts.now ∥₁ },
}

impl<'a> Rulebook<'a> {
    ghost use Rattle.std.specs.Prelude.{◌≡◌};

    // How many rules there are.
    pub fn count(&self) -> u32
        ensures { (result ≡ get_or self.now.words.now 0 0) × (result ≤ 64) }
    {
        let ws = self.words;
        words::word(ws, 0)
    }

    // Where rule a stands.
    pub fn rule_at(&self, a: u32) -> usize
        ensures { a < 64 → result ≡ get_or self.now.starts.now a 0 }
    {
        rules::rule_at(self.starts, a)
    }
}
