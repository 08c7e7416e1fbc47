// Symbols and sums mod q: the arithmetic that encoding and decoding share. Each function is total: it answers for any
// arguments, and says what.
#![tactic(auto)]

mod byte;
pub mod plain;
mod sum;

pub use byte::{add, sub};
pub use sum::{SumArray, negative, remainder, remainders};
