// The dock's queue of received words (01: the sheet): a bounded first-in first-out list in bytes that the caller lends.
// What each operation answers and leaves is defined in crate `queue_theory`; specs/Claims.antt has the list rule by these contracts alone.
#![tactic(auto)]

mod admit;
mod cell;

ghost use Rattle.std.specs.Prelude.{◌≡◌};
ghost use Rattle.queue_theory.specs.Allowed.{FormatAllows, EnqueueAllows, PeekAllows, DequeueAllows};
ghost use Rattle.queue.specs.Answer.{number_of};

use cells::CELL_SIZE;
pub use refusals::{Refusal, number};
use soundness::check;

// Makes an empty queue of all the bytes (01: lay out). A refusal, here and below, has changed no byte.
pub fn format(queue: &mut [u8]) -> Result<(), Refusal>
    ensures { FormatAllows queue.old (number_of result) queue.new }
{
    if !cells::format_cells(queue) {
        return Err(Refusal::SheetLength);
    }
    Ok(())
}

// Adds a record at the end of the queue (01: enter). The word is kept as received.
pub fn enqueue(queue: &mut [u8], boxno: usize, profile: usize, word: &[u8]) -> Result<(), Refusal>
    ensures { EnqueueAllows queue.old boxno profile word.now (number_of result) queue.new }
{
    // no list has more than 255 cells, so this leads to the last one
    let used = check(queue, 255)?;
    admit::admit(boxno, profile, word)?;
    let full = queue[1] == 0;
    if full {
        return Err(Refusal::Full);
    }
    cell::store(queue, used.cell, boxno as u8, profile as u8, word);
    Ok(())
}

// Shows a record (01: look), counted from 1, and leaves it in the queue.
pub fn peek(queue: &[u8], number: usize, out: &mut [u8]) -> Result<(), Refusal>
    ensures { PeekAllows queue.now number out.old (number_of result) out.new }
{
    let found = check(queue, number)?;
    if out.len() != CELL_SIZE {
        return Err(Refusal::Length);
    }
    if !((1 <= number) & (number <= found.records)) {
        return Err(Refusal::NoRecord);
    }
    cells::show(queue, found.cell, out);
    Ok(())
}

// Takes the first record off the queue (01: take off) and shows it.
pub fn dequeue(queue: &mut [u8], out: &mut [u8]) -> Result<(), Refusal>
    ensures { DequeueAllows queue.old out.old (number_of result) queue.new out.new }
{
    peek(queue, 1, out)?;
    cells::release(queue);
    Ok(())
}
