// The two lists of a queue (01: chains), each walked once. A table counts how often each cell is met, so the test is linear in the bytes.
ghost use Rattle.std.specs.Prelude.{◌≡◌, suc, ◌≤◌, T, eqb, length, get_or};
ghost use Rattle.modular_theory.specs.Search.{all_below};
ghost use Rattle.queue_theory.specs.Layout.{is_queue_length};
ghost use Rattle.soundness.specs.Tally.{AtMost};
ghost use Rattle.soundness.specs.Walked.{is_used, Walks, WalksBoth};

use crate::cell::{Kind, is_cell, is_header};
use cells::{CELL_SIZE, capacity};

// What a walk over a good list found: the cell that was asked for or the last one, and how many cells there are.
#[derive(Clone, Copy, PartialEq, Eq, Debug)]
pub struct Walked {
    pub cell: usize,
    pub records: usize,
}

// Walks the list of used or free cells from `first`: None where it does not end or has another cell. Each cell met is counted in `seen`.
fn walk(queue: &[u8], kind: Kind, first: u8, number: usize, seen: &mut [u16; 256]) -> Option<Walked>
    requires { T (is_queue_length (length queue.now)) × AtMost 255 seen.old }
    ensures { Walks queue.now (is_used kind) first number seen.old seen.new result }
{
    let mut cell = usize::from(first);
    let mut found = Walked {
        cell: 0,
        records: 0,
    };
    for met in 0..capacity(queue) {
        if cell == 0 {
            break;
        }
        if !is_cell(queue, kind, cell) {
            return None;
        }
        seen[cell] += 1;
        found.records = met + 1;
        if met < number {
            found.cell = cell;
        }
        cell = usize::from(queue[cell * CELL_SIZE]);
    }
    (cell == 0).then_some(found)
}

// Whether each of the cells 1 to n has been met once.
fn each_once(seen: &[u16; 256], n: usize) -> bool
    requires { n ≤ 255 }
    ensures { result ≡ all_below (λ i. eqb (get_or seen.now (suc i) 0) 1) n }
{
    let mut once = true;
    for met in &seen[1..=n] {
        once &= *met == 1;
    }
    once
}

// Walks both lists of a queue of the right length: what its used list leads to, or None where the queue is not sound.
pub(crate) fn walk_both(queue: &[u8], number: usize) -> Option<Walked>
    requires { T (is_queue_length (length queue.now)) }
    ensures { WalksBoth queue.now number result }
{
    let mut seen = [0u16; 256];
    let used = walk(queue, Kind::Used, queue[0], number, &mut seen)?;
    walk(queue, Kind::Free, queue[1], 0, &mut seen)?;
    (is_header(queue) & each_once(&seen, capacity(queue))).then_some(used)
}
