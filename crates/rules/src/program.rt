// What is the same throughout a run: the grammar's types, the rule book's words, and where its rules stand.
ghost use Rattle.std.specs.Prelude.{◌≡◌, ◌<◌, get_or};

use crate::limits::STARTS;
use tables::Types;

#[derive(Clone, Copy)]
pub struct Program<'a> {
    pub types: &'a Types,
    pub book: &'a [u32],
    pub starts: &'a [usize; STARTS],
}

impl<'a> Program<'a> {
    // Where rule n stands.
    pub fn rule_at(&self, n: u32) -> usize
        ensures { n < 64 → result ≡ get_or self.now.starts.now n 0 }
    {
        let starts = self.starts;
        starts.get(n as usize).copied().unwrap_or(0)
    }
}
