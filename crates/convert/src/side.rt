// A grammar of the conversion: its types, and the classes of its tokens, which the types do not tell.
ghost use Rattle.std.specs.Prelude.{◌≤◌};

use crate::tokens;
use tables::GrammarTypes;

#[derive(Drop)]
pub struct Side {
    pub types: GrammarTypes,
    pub classes: [u32; 64],
    ghost few: { types.types.count ≤ 64 },
}

impl Side {
    ghost use Rattle.std.specs.Prelude.{◌≡◌, true};
    ghost use Rattle.words.specs.Reader.{accepted};
    ghost use Rattle.grammar.specs.Grammar as Grammar;
    ghost use Rattle.tables.specs.Tables.{read_of};
    ghost use Rattle.tables.specs.Types.{IsBlank};
    ghost use Rattle.convert.specs.Views.{Shows};

    // No types. What is filled in place is not copied.
    pub fn none() -> Side
        ensures blank { IsBlank result.types.types }
        ensures empty { result.types.types.count ≡ 0 }
    {
        Side {
            types: GrammarTypes::none(),
            classes: [0; 64],
        }
    }

    // Works out the types and classes of a grammar that passes its check.
    pub fn fill(&mut self, grammar: &[u32])
        requires { (accepted (Grammar.read_grammar grammar.now) ≡ true) × IsBlank self.old.types.types }
        ensures { Shows self.new (read_of (Grammar.read_grammar grammar.now)) }
    {
        self.types.fill(grammar);
        self.classes = tokens::classes(grammar);
    }
}

#[cfg(test)]
mod tests {
    use super::*;
    use words::Refusal;

    // How many types there are before a grammar is filled in, how many then, and the class of type 1.
    fn filled(grammar: &[u32]) -> Result<(u32, u32, u32), Refusal> {
        grammar::read_grammar(grammar)?;
        let mut side = Side::none();
        let before = side.types.types.count;
        side.fill(grammar);
        Ok((before, side.types.types.count, side.classes[1]))
    }

    #[test]
    fn no_types_before_those_of_a_grammar(rt: HostRuntime) {
        // A string or none, and the string.
        assert_eq!(rt; filled(&[2, 2, 1, 1, 3]), Ok((0, 2, 3)));
        // A number alone.
        assert_eq!(rt; filled(&[1, 1, 2]), Ok((0, 1, 0)));
    }
}
