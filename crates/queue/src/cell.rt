// The write of a record that has been admitted.
ghost use Rattle.std.specs.Prelude.{◌≡◌};
ghost use Rattle.queue_theory.specs.Chains.{last_used};
ghost use Rattle.queue_theory.specs.Sound.{record_of};
ghost use Rattle.queue_theory.specs.Operations.{enqueue_answer, enqueued};

use cells::{CELL_SIZE, copy};

// Puts a record into the first free cell, and that cell after the last used one. The cell's zeros after the word stay.
pub(crate) fn store(queue: &mut [u8], last: usize, boxno: u8, profile: u8, word: &[u8])
    requires { (enqueue_answer queue.old boxno profile word.now ≡ 0) × (last ≡ last_used queue.old) }
    ensures { queue.new ≡ enqueued queue.old (record_of boxno profile word.now) }
{
    let first = queue[1];
    let at = usize::from(first) * CELL_SIZE;
    let end = last * CELL_SIZE;
    queue[1] = queue[at];
    queue[at] = 0;
    queue[end] = first;
    queue[at + 1] = boxno;
    queue[at + 2] = profile;
    let from = at + 3;
    let to = from + word.len();
    copy(&mut queue[from..to], word);
}
