// The parts of an input: budget, then length and words of grammar, rules and slip.
ghost use Rattle.std.specs.Prelude.{◌≡◌};
ghost use Rattle.decimal.specs.Input.{input, said, Counted};

// One past each limit: a part of that length is read, for the core to refuse.
const MOST_GRAMMAR: usize = 4097;

const MOST_RULES: usize = 16385;

const MOST_SLIP: usize = 6145;

// An input's parts, each a stretch of its numbers.
#[derive(Clone, Copy)]
pub struct Parts<'a> {
    pub budget: u32,
    pub grammar: &'a [u32],
    pub rules: &'a [u32],
    pub slip: &'a [u32],
}

// A part, and the numbers after it: its length, if that is at most `most`, and so many words.
fn part(most: usize, numbers: &[u32]) -> Option<(&[u32], &[u32])>
    ensures { Counted most numbers.now result }
{
    let (first, rest) = numbers.split_first()?;
    let count = *first as usize;
    if most < count {
        return None;
    }
    rest.split_at_checked(count)
}

// The parts of an input that is these numbers.
pub fn find_parts(numbers: &[u32]) -> Option<Parts<'_>>
    ensures { said result ≡ input numbers.now }
{
    let (budget, rest) = numbers.split_first()?;
    let (grammar, rest) = part(MOST_GRAMMAR, rest)?;
    let (rules, rest) = part(MOST_RULES, rest)?;
    let (slip, rest) = part(MOST_SLIP, rest)?;
    if !rest.is_empty() {
        return None;
    }
    Some(Parts {
        budget: *budget,
        grammar,
        rules,
        slip,
    })
}
