// The stack of dues, the next on top.
ghost use Rattle.std.specs.Prelude.{◌≡◌, [], ◌∷◌, ◌<◌, ◌≤◌, length};
ghost use Rattle.dues.specs.Due.{due_as};
ghost use Rattle.dues.specs.Stack.{standing, Popped};

use crate::due::Due;
use crate::limits::MOST_DUES;
use std::marker::Model;

#[derive(Drop)]
pub struct Stack {
    dues: [Due; MOST_DUES],
    height: usize,
}

impl Model for Stack {
    ghost use Rattle.std.specs.Prelude.{List, ◌≤◌};
    ghost use Rattle.judgement.specs.Typing as Typing;

    ghost Value = { List Typing.Due };

    ghost use Rattle.dues.specs.Stack.{standing};

    ghost view = { λ s. standing s.dues s.height };

    ghost invariant = { λ s. s.height ≤ 1024 };
}

impl Stack {
    #[tactic(auto, unfolding(crate::specs::Stack::standing))]
    pub fn new() -> Stack
        ensures { result ≡ [] }
    {
        Stack {
            dues: [Due::Tree(0, 0); MOST_DUES],
            height: 0,
        }
    }

    #[tactic(auto, unfolding(crate::specs::Stack::standing))]
    pub fn clear(&mut self)
        ensures { self.new ≡ [] }
    {
        self.height = 0;
    }

    #[tactic(auto, using(crate::proofs::Standing::standing_length, crate::proofs::Standing::standing_push))]
    pub fn push(&mut self, due: Due)
        requires { length self.old < 1000 }
        ensures { self.new ≡ due_as due ∷ self.old }
    {
        self.dues[self.height] = due;
        self.height += 1;
    }

    // The due on top, which is taken off.
    pub fn pop(&mut self) -> Option<Due>
        ensures { Popped self.old result self.new }
    {
        if self.height == 0 {
            return None;
        }
        self.height -= 1;
        Some(self.dues[self.height])
    }
}
