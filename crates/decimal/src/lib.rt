// The bench's text: numbers out of bytes, the parts of an input out of numbers, and the lines that tell an outcome.
#![tactic(auto)]

pub mod input;
pub mod numbers;
pub mod printed;
