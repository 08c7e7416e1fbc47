// The two editions and the four profiles, the symbols of their words, and what they refuse. Each function is total: it answers for any
// arguments, and says what.
#![tactic(auto)]

mod edition;
mod erased;
mod levels;
mod refusal;
mod row;

pub use edition::{Edition, edition_of};
pub use erased::{ERASURE, Erasures};
pub use levels::{is_received, symbols_below};
pub use refusal::{encode_refusal, screen};
pub use row::{Row, row_in, row_of};
