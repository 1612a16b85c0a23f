// Types of which it is known that a grammar has them: reading by them moves only forward, within the words.
ghost use Rattle.tables.specs.Tables.{AreTables};

use crate::types::Types;

#[derive(Drop)]
pub struct GrammarTypes {
    pub types: Types,
    ghost of_grammar: { ∥ AreTables types.heads types.rows ∥₁ },
}

impl GrammarTypes {
    ghost use Rattle.std.specs.Prelude.{◌≡◌, true};
    ghost use Rattle.words.specs.Reader.{accepted};
    ghost use Rattle.grammar.specs.Grammar as Grammar;
    ghost use Rattle.tables.specs.Tables.{read_of};
    ghost use Rattle.tables.specs.Types.{IsBlank, AllTypesOf};

    // No types. What is filled in place is not copied: the rows are large.
    pub fn none() -> GrammarTypes
        ensures blank { IsBlank result.types }
        ensures empty { result.types.count ≡ 0 }
    {
        GrammarTypes {
            types: Types::none(),
        }
    }

    // Works out the types of a grammar that passes its check.
    pub fn fill(&mut self, ws: &[u32])
        requires { (accepted (Grammar.read_grammar ws.now) ≡ true) × IsBlank self.old.types }
        ensures { AllTypesOf (read_of (Grammar.read_grammar ws.now)) self.new.types }
    {
        self.types.fill(ws);
    }
}
