// The position of an error from the two syndromes, the error and the check sum that disagrees (02, T-09), with no symbol of the word: two
// candidates, each tested by what taking the error out there does to the syndromes.
#![tactic(auto)]

mod candidate;
mod clues;
mod column;
mod error;
mod position;

pub use position::error_position;
