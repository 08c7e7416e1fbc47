// Decoding (01: Read): the pair of messages that a received word carries, with at most one symbol corrected, or with one or two erased
// symbols filled; the position of a changed symbol is looked for, or worked out from the syndromes (02, T-09). Its steps are this crate's
// own and those of crates `symbols`, `syndromes`, `differences`, `locator` and `fillings`.
#![tactic(auto)]

mod column;
mod differenced;
mod effect;
mod erased;
mod locate;
mod message;
mod method;
mod multiples;
mod parity;
mod search;
mod syndrome;
mod totals;
mod word;

pub use syndrome::syndrome_decode;
pub use word::{Change, Changes, Decoded, Decoding, decode};
