// Why an input is refused, and where.
ghost use Rattle.std.specs.Prelude.{◌≡◌};
ghost use Rattle.words.specs.Faults.{number_of};

use std::fmt;
use std::marker::Model;

// What is at fault. Its number is the refusal's.
#[derive(Clone, Copy, Debug, PartialEq, Eq)]
pub enum Fault {
    // 1: the result has too few words
    ShortResult,
    // 2: work memory has too few words
    ShortWork,
    // 3: the budget is 0 or too great
    Budget,
    // 4: the grammar has too many words
    LongGrammar,
    // 5: the rule book has too many words
    LongBook,
    // 10: the grammar ends early, or words are left over
    GrammarEnds,
    // 11: a count, map, class, type or element that is not allowed
    GrammarWord,
    // 12: a type of which no finite tree exists
    NoFiniteTree,
    // 20: the rule book ends early, or words are left over
    BookEnds,
    // 21: a count, map, reach or type that is not allowed, or rule 0's bits
    BookWord,
    // 22: a variable, rule or operation that is not there or not usable here, or a wrong argument count
    NotUsable,
    // 23: a pair, value or type that cannot stand here, or pairs that are short or over
    Misplaced,
    // 24: a 17th variable, or nesting that is too deep
    NoRoom,
    // 30: the slip has no words, too many, or not whole nodes
    SlipLength,
    // 31: the slip ends early, or words are left over
    SlipEnds,
    // 32: a type, form or value that is not allowed
    SlipWord,
    // 33: nesting that is too deep
    SlipNesting,
    // 34: a wrong count of nodes
    SlipCount,
    // 60: the table ends early, has a number that is not there, or words are left over
    TableWord,
    // 61: a type or form that does not fit its image
    TableMisfit,
    // any number, that of a caller's own fault
    Numbered(u32),
}

impl Fault {
    // The refusal's number.
    pub fn number(self) -> u32
        ensures { result ≡ number_of self }
    {
        match self {
            Fault::ShortResult => 1,
            Fault::ShortWork => 2,
            Fault::Budget => 3,
            Fault::LongGrammar => 4,
            Fault::LongBook => 5,
            Fault::GrammarEnds => 10,
            Fault::GrammarWord => 11,
            Fault::NoFiniteTree => 12,
            Fault::BookEnds => 20,
            Fault::BookWord => 21,
            Fault::NotUsable => 22,
            Fault::Misplaced => 23,
            Fault::NoRoom => 24,
            Fault::SlipLength => 30,
            Fault::SlipEnds => 31,
            Fault::SlipWord => 32,
            Fault::SlipNesting => 33,
            Fault::SlipCount => 34,
            Fault::TableWord => 60,
            Fault::TableMisfit => 61,
            Fault::Numbered(number) => number,
        }
    }
}

// A refusal: the number of what is at fault, and the position of the word.
#[derive(Clone, Copy, Debug, PartialEq, Eq)]
pub struct Refusal {
    number: u32,
    position: usize,
}

impl Model for Refusal {
    ghost use Rattle.std.specs.Prelude.{ℕ};

    ghost Value = { ℕ × ℕ };

    ghost use Rattle.words.specs.Refusals.{told, untold, untold_told};

    ghost view = { told };

    ghost inverse = { untold };

    ghost inverse_ok = { untold_told };
}

impl Refusal {
    pub fn new(fault: Fault, position: usize) -> Refusal
        ensures { result ≡ (number_of fault, position) }
    {
        Refusal {
            number: fault.number(),
            position,
        }
    }

    // The same fault at another position.
    pub fn at(self, position: usize) -> Refusal
        ensures { result ≡ (self.0, position) }
    {
        Refusal { position, ..self }
    }

    pub fn number(self) -> u32
        ensures { result ≡ self.0 }
    {
        self.number
    }

    pub fn position(self) -> usize
        ensures { result ≡ self.1 }
    {
        self.position
    }
}

// `refused`, the number and the position.
impl fmt::Display for Refusal {
    fn fmt<W: fmt::Write>(&self, f: &mut fmt::Formatter<W>) -> fmt::Result {
        let number = self.number();
        let position = self.position;
        write!(f, "refused {number} {position}")
    }
}
