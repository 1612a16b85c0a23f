// The meaning of a run is definitions and theorems: there is nothing to call. The state of a run and what stops it are declared here, so that the meaning and
// the code have the same.
#![tactic(auto)]

ghost use Rattle.std.specs.Prelude.{◌≡◌};
ghost use Rattle.meaning.specs.Stops.{number_of};

use std::marker::Model;

// What a run carries from step to step: the attempts left (the paper's trials). The budget at first.
#[derive(Clone, Copy)]
pub struct State {
    pub attempts: u32,
}

// Why a run stopped.
#[derive(Clone, Copy, Debug, PartialEq, Eq)]
pub enum Stop {
    // 40
    BudgetSpent,
    // 41
    CallsTooDeep,
    // 42
    TooManyNodes,
    // 43
    NestsTooDeep,
    // 44
    TooManyLiveNodes,
    // 45
    OutOfRange,
}

impl Stop {
    // The stop's number.
    pub fn number(self) -> u32
        ensures { result ≡ number_of self }
    {
        match self {
            Stop::BudgetSpent => 40,
            Stop::CallsTooDeep => 41,
            Stop::TooManyNodes => 42,
            Stop::NestsTooDeep => 43,
            Stop::TooManyLiveNodes => 44,
            Stop::OutOfRange => 45,
        }
    }
}

// A stop where a step ends by it; a clause sees its number.
#[derive(Clone, Copy, Debug, PartialEq, Eq)]
pub struct Halt {
    stop: Stop,
}

impl Model for Halt {
    ghost use Rattle.std.specs.Prelude.{ℕ};

    ghost Value = { ℕ };

    ghost use Rattle.meaning.specs.Halts.{told, untold, untold_told};

    ghost view = { told };

    ghost inverse = { untold };

    ghost inverse_ok = { untold_told };
}

impl Halt {
    pub fn new(stop: Stop) -> Halt
        ensures { result ≡ number_of stop }
    {
        Halt { stop }
    }

    pub fn stop(self) -> Stop
        ensures { number_of result ≡ self }
    {
        self.stop
    }
}
