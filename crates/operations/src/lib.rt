// The operations on numbers, in hundredths.
#![tactic(auto)]

ghost use Rattle.std.specs.Prelude.{◌≡◌, ◌+◌, ◌*◌, ◌/◌, ◌<◌, ◌^◌};
ghost use Rattle.meaning.specs.Rounding.{half_even};
ghost use Rattle.operations.specs.Operating.{in_range_as, Operated, Compared};

use grammar::limits::GREATEST_NUMBER;
use meaning::{Halt, Stop};

// The operations, by their numbers in a rule book.
const ADD: u32 = 1000;

const SUBTRACT: u32 = 1001;

const QUOTIENT: u32 = 1002;

const ROUND: u32 = 1004;

const TRUNCATE: u32 = 1005;

const EQUAL: u32 = 1008;

// The number, if it is in range: not where there is none.
fn in_range(made: Option<u64>) -> Result<u32, Halt>
    ensures { result ≡ in_range_as made }
{
    match made {
        Some(n) if n <= GREATEST_NUMBER as u64 => Ok(n as u32),
        _ => Err(Halt::new(Stop::OutOfRange)),
    }
}

// The whole number nearest to n / d, an exact half to the even one. The ways down and up are compared, since a rest doubled might not fit.
pub fn half_even(n: u64, d: u64) -> u64
    requires { 0 < d }
    ensures { result ≡ half_even n d }
{
    let whole = n / d;
    let down = n % d;
    let up = d - down;
    if down < up {
        whole
    } else if down == up {
        whole + whole % 2
    } else {
        whole + 1
    }
}

// What the operation makes of the scope's value x, with the argument y if it takes one: nothing under 0 or by a divisor 0. The operation is the word of the book
// that names it: an enum would need a decoder with an arm that no checked book reaches.
#[tactic(auto, using(crate::proofs::Numbers::remains))]
fn compute(op: u32, x: u64, y: u64) -> Option<u64>
    requires { (x < 2 ^ 32) × (y < 2 ^ 32) }
    ensures { Operated op x y (in_range_as result) }
{
    match op {
        ADD => Some(x + y),
        SUBTRACT => x.checked_sub(y),
        QUOTIENT => Some(x.checked_div(y)? * 100),
        ROUND => Some(half_even(x, 100) * 100),
        TRUNCATE => Some(x / 100 * 100),
        _ => x.checked_rem(y),
    }
}

// What the operation makes of the scope's value a, with the argument b if it takes one.
pub fn operate(op: u32, a: u32, b: u32) -> Result<u32, Halt>
    ensures { Operated op a b result }
{
    in_range(compute(op, a as u64, b as u64))
}

// Does the comparison hold of the scope's value a and the argument b?
pub fn holds(op: u32, a: u32, b: u32) -> bool
    ensures { Compared op a b result }
{
    if op == EQUAL { a == b } else { b < a }
}
