// The types of a grammar, worked out once from its words as tables, and the lookups in them.
//
// `heads` has two words a type: the map of its record and how many values its nodes may have. `rows` has a row of nine for each type and each value
// below 16: how many children such a node has, and their types. Any tables may stand here: what a lookup in them answers holds of each grammar whose types they are.
ghost use Rattle.std.specs.Prelude.{◌≡◌, ◌≤◌};

use grammar::limits::{MOST_ELEMENTS, MOST_FORMS, MOST_TYPES};

#[derive(Drop)]
pub struct Types {
    pub heads: [u32; crate::HEADS],
    pub rows: [u8; crate::ROWS],
    pub count: u32,
}

// An entry of a row as a number.
fn entry(x: u8) -> usize
    ensures { (result ≡ x) × (result ≤ 255) }
{
    usize::from(x)
}

impl Types {
    ghost use Rattle.std.specs.Prelude.{◌≡◌, true, length, get_or};
    ghost use Rattle.words.specs.Reader.{accepted};
    ghost use Rattle.grammar.specs.Grammar as Grammar;
    ghost use Rattle.grammar.specs.Kinds.{kind_of, allowed, children, is_number, is_sequence, is_text};
    ghost use Rattle.grammar.specs.Values.{values_of};
    ghost use Rattle.tables.specs.Tables.{map_of, is_token, read_of};
    ghost use Rattle.tables.specs.Types.{IsBlank, AllTypesOf, OfHeads, OfRows, Counted};

    // No types. What is filled in place is not copied: the rows are large.
    pub fn none() -> Types
        ensures blank { IsBlank result }
        ensures empty { result.count ≡ 0 }
    {
        Types {
            heads: [0; crate::HEADS],
            rows: [0; crate::ROWS],
            count: 0,
        }
    }

    // Works out the types of a grammar that passes its check.
    pub fn fill(&mut self, ws: &[u32])
        requires { (accepted (Grammar.read_grammar ws.now) ≡ true) × IsBlank self.old }
        ensures { AllTypesOf (read_of (Grammar.read_grammar ws.now)) self.new }
    {
        crate::fill(ws, &mut self.heads, &mut self.rows);
        self.count = words::word(ws, 0);
    }

    // The map of the type's record; 0 if there is no such type.
    pub fn map_of(&self, t: u32) -> u32
        ensures { OfHeads self.now (λ g. result ≡ map_of (kind_of g t)) }
    {
        if t < MOST_TYPES {
            self.heads[t as usize * 2]
        } else {
            0
        }
    }

    // How many values a node of the type may have.
    pub fn values(&self, t: u32) -> u32
        ensures { OfHeads self.now (λ g. result ≡ values_of (kind_of g t)) }
    {
        if t < MOST_TYPES {
            self.heads[t as usize * 2 + 1]
        } else {
            0
        }
    }

    // May a node of the type have the value?
    pub fn is_allowed(&self, t: u32, v: u32) -> bool
        ensures { OfHeads self.now (λ g. result ≡ allowed g t v) }
    {
        v < self.values(t)
    }

    // Is the type a sequence?
    pub fn is_sequence(&self, t: u32) -> bool
        ensures { OfHeads self.now (λ g. result ≡ is_sequence g t) }
    {
        let map = self.map_of(t);
        map == 4 || map == 16
    }

    // Is the type a token?
    pub fn is_token(&self, t: u32) -> bool
        ensures { OfHeads self.now (λ g. result ≡ is_token g t) }
    {
        self.map_of(t) == 1
    }

    // Is the type a number token? No other type has as many values.
    pub fn is_number(&self, t: u32) -> bool
        ensures { OfHeads self.now (λ g. result ≡ is_number g t) }
    {
        self.values(t) == crate::NUMBERS
    }

    // Is the type a name or a string? No other type has as many values.
    pub fn is_text(&self, t: u32) -> bool
        ensures { OfHeads self.now (λ g. result ≡ is_text g t) }
    {
        self.values(t) == crate::NAMES
    }

    // How many children a node has: never more than an entry can say.
    pub fn child_count(&self, t: u32, v: u32) -> usize
        ensures { Counted self.now t v result }
    {
        if t < MOST_TYPES && v < MOST_FORMS {
            entry(self.rows[(t as usize * 16 + v as usize) * 9])
        } else {
            0
        }
    }

    // The type of child i of a node; 0 if it has no such child.
    pub fn child(&self, t: u32, v: u32, i: usize) -> u32
        ensures { OfRows self.now (λ g. result ≡ get_or (children g t v) i 0) }
    {
        if t < MOST_TYPES && v < MOST_FORMS && i < MOST_ELEMENTS as usize {
            u32::from(self.rows[(t as usize * 16 + v as usize) * 9 + (1 + i)])
        } else {
            0
        }
    }
}
