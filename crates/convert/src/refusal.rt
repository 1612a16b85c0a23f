// Why a conversion is refused, and where.
ghost use Rattle.std.specs.Prelude.{◌≡◌};
ghost use Rattle.convert.specs.Refusals.{grammar_number, blamed};

use words::Refusal;

// Which grammar is at fault: neither, where it is the call, the table or the slip.
#[derive(Clone, Copy, Debug, PartialEq, Eq)]
pub enum AtFault {
    Neither,
    Old,
    New,
}

impl AtFault {
    // The number of the grammar at fault.
    pub fn number(self) -> u32
        ensures { result ≡ grammar_number self }
    {
        match self {
            AtFault::Neither => 0,
            AtFault::Old => 1,
            AtFault::New => 2,
        }
    }
}

// A conversion's refusal, with the grammar at fault.
#[derive(Clone, Copy, Debug, PartialEq, Eq)]
pub struct ConversionRefusal {
    pub grammar: AtFault,
    pub refusal: Refusal,
}

// What is refused on the way is no grammar's, unless it is said.
impl From<Refusal> for ConversionRefusal {
    ghost use Rattle.convert.specs.declared.refusal.AtFault.TheVariants.{Neither};

    ghost from_gives = { λ refusal r. r ≡ blamed Neither refusal };

    fn from(refusal: Refusal) -> ConversionRefusal {
        ConversionRefusal {
            grammar: AtFault::Neither,
            refusal,
        }
    }
}
