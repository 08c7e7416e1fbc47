// What the two syndromes of a received word say: whether they are those of near components, and with the check symbols what a balanced word
// is, and what is said of a corrected symbol; and a multiple added to one. Each function is total.
#![tactic(auto)]

mod balanced;
mod correction;
mod plus;
mod syndrome;

pub use balanced::judge_balanced;
pub use correction::{Correction, corrected};
pub use plus::{plus_multiple, syndrome_plus};
pub use syndrome::{is_zero, near, position};
