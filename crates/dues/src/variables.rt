// The types of the variables that are there, by number.
ghost use Rattle.std.specs.Prelude.{◌≡◌, [], ◌∷◌, ◌++◌, ◌<◌, ◌≤◌, length, slice_get, leb};

use rules::limits::MOST_VARIABLES;
use std::marker::Model;

#[derive(Clone, Copy)]
pub struct Variables {
    types: [u32; MOST_VARIABLES],
    count: usize,
}

impl Model for Variables {
    ghost use Rattle.std.specs.Prelude.{List, ℕ};

    ghost Value = { List ℕ };

    ghost use Rattle.dues.specs.Variables.{known, Fits, fields, fields_known};

    ghost view = { known };

    ghost invariant = { Fits };

    ghost inverse = { fields };

    ghost inverse_ok = { fields_known };
}

impl Variables {
    pub fn new() -> Variables
        ensures { result ≡ [] }
    {
        Variables {
            types: [0; MOST_VARIABLES],
            count: 0,
        }
    }

    // Is there no room for one more?
    pub fn is_full(&self) -> bool
        ensures { result ≡ leb 16 (length self.now) }
    {
        MOST_VARIABLES <= self.count
    }

    // The type of variable v, if it is there.
    pub fn get(&self, v: u32) -> Option<u32>
        ensures { slice_get self.now v ≡ result }
    {
        self.types[..self.count].get(v as usize).copied()
    }

    // One variable more, of type d.
    pub fn push(&mut self, d: u32)
        requires { length self.old < 16 }
        ensures { self.new ≡ self.old ++ d ∷ [] }
    {
        self.types[self.count] = d;
        self.count += 1;
    }

    pub fn copy(&self) -> Variables
        ensures { (result ≡ self.now) × (length result ≤ 16) }
    {
        // How many there are is known where the fields are looked at.
        let _ = &self.count;
        *self
    }
}
