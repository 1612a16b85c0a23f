// A pair of a pattern, a replacement or a condition.
ghost use Rattle.std.specs.Prelude.{◌≡◌, ◌+◌, ◌<◌, ◌^◌};
ghost use Rattle.words.specs.Faults.{number_of};

use words::{Fault, Refusal};

// Its two words, and the position of the first.
#[derive(Clone, Copy)]
pub struct Pair {
    pub first: u32,
    pub second: u32,
    pub at: usize,
    ghost near: { at < 2 ^ 40 },
}

impl Pair {
    // The first word is at fault.
    pub fn first_at(self, fault: Fault) -> Refusal
        ensures { result ≡ (number_of fault, self.at) }
    {
        Refusal::new(fault, self.at)
    }

    // The second word is at fault.
    pub fn second_at(self, fault: Fault) -> Refusal
        ensures { result ≡ (number_of fault, self.at + 1) }
    {
        Refusal::new(fault, self.at + 1)
    }
}
