// Whether bytes are a sound queue (01: The sheet), and which cell its used list leads to. Every operation on a queue begins with this.
#![tactic(auto)]

mod cell;
mod lists;

ghost use Rattle.std.specs.Prelude.{◌≡◌};
ghost use Rattle.soundness.specs.Checked.{checked_report, check_answer};

use cells::is_length;
pub use lists::Walked;
use refusals::Refusal;

// Checks a queue: the cell of a record, counted from 1, or the last used cell where there are fewer, and how many there are. Refused are
// a length that is not a queue's (01, number 5), and what is not sound (6).
pub fn check(queue: &[u8], number: usize) -> Result<Walked, Refusal>
    ensures { checked_report result ≡ check_answer queue.now number }
{
    if !is_length(queue.len()) {
        return Err(Refusal::SheetLength);
    }
    lists::walk_both(queue, number).ok_or(Refusal::Unsound)
}
