// All the types of some grammar, as many as it has: the type says so, and who takes them need not ask.
ghost use Rattle.tables.specs.Types.{AreAllTypes};

use crate::grammar_types::GrammarTypes;

#[derive(Drop)]
pub struct AllTypes {
    pub types: GrammarTypes,
    ghost of_grammar: { ∥ AreAllTypes types.types ∥₁ },
}

impl AllTypes {
    ghost use Rattle.std.specs.Prelude.{◌≡◌, true};
    ghost use Rattle.words.specs.Reader.{accepted};
    ghost use Rattle.grammar.specs.Grammar as Grammar;
    ghost use Rattle.tables.specs.Tables.{read_of};
    ghost use Rattle.tables.specs.Types.{IsBlank, AllTypesOf};

    // No types. What is filled in place is not copied: the rows are large.
    pub fn none() -> AllTypes
        ensures blank { IsBlank result.types.types }
        ensures empty { result.types.types.count ≡ 0 }
    {
        AllTypes {
            types: GrammarTypes::none(),
        }
    }

    // Works out the types of a grammar that passes its check.
    pub fn fill(&mut self, ws: &[u32])
        requires { (accepted (Grammar.read_grammar ws.now) ≡ true) × IsBlank self.old.types.types }
        ensures { AllTypesOf (read_of (Grammar.read_grammar ws.now)) self.new.types.types }
    {
        self.types.fill(ws);
    }
}

#[cfg(test)]
mod tests {
    use super::*;
    use words::Refusal;

    // How many types there are, and the maps of the first two.
    fn filled(grammar: &[u32]) -> Result<(u32, u32, u32), Refusal> {
        grammar::read_grammar(grammar)?;
        let mut all = AllTypes::none();
        all.fill(grammar);
        let types = all.types.types;
        Ok((types.count, types.map_of(0), types.map_of(1)))
    }

    #[test]
    fn as_many_as_the_grammar_has(rt: HostRuntime) {
        // A number or none, and the number.
        assert_eq!(rt; filled(&[2, 2, 1, 1, 2]), Ok((2, 2, 1)));
        // The number alone.
        assert_eq!(rt; filled(&[1, 1, 2]), Ok((1, 1, 0)));
    }
}
