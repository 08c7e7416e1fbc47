// The steps that encoding and decoding share, and decoding's syndromes. Each is total: it answers for any arguments, and says what.
#![tactic(auto)]

mod checks;
mod matrix;
mod sums;
mod weight;

pub use checks::{Checks, checks_of};
pub use matrix::{Matrix, columns};
pub use sums::{Syndrome, Syndromes, syndromes_of};
pub use weight::{Body, Weight, available, weigh};
