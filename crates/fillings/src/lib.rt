// Erased symbols (02: marks) filled, by what is summed over the word with 0 in their place. Each open function is total: it answers for any
// arguments, and says what.
#![tactic(auto)]

mod erasures;
mod fill;
mod sums;

pub use erasures::cleared;
pub use fill::{Filling, fill_one, fill_two};
pub use sums::{Erased, Sums};
