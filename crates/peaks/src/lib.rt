// The least peak that balancing a word can leave (02, T-06: line rule 2), for eight shifts side by side. The function is total: it answers
// for any arguments, and says what.
#![tactic(auto)]

mod lanes;
mod prefix;
mod rows;
mod search;
mod suffix;

pub use lanes::Lanes;
pub use search::{LeastPeaks, least_peaks};
