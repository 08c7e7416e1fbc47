// Writes to the cells of a queue (01: the sheet), each exact for any bytes: what does not lie in them is not written.
#![tactic(auto)]

mod measure;
mod slices;

ghost use Rattle.std.specs.Prelude.{◌≡◌, ◌-◌, T, length};
ghost use Rattle.queue_theory.specs.Layout.{is_queue_length, capacity};
ghost use Rattle.queue_theory.specs.Operations.{linked, format_queue};
ghost use Rattle.cells.specs.Cells.{shown_at, released};

pub use measure::{BODY_SIZE, CELL_SIZE, capacity, is_length};
pub use slices::{all_zero, copy};

// Links each cell from 1 on to the one after it, but for the last cell.
fn link(queue: &mut [u8])
    requires { T (is_queue_length (length queue.old)) }
    ensures { queue.new ≡ linked queue.old 1 (capacity queue.old - 1) }
{
    for i in 1..capacity(queue) {
        queue[i * CELL_SIZE] = (i + 1) as u8;
    }
}

// Makes an empty queue of all the bytes, where their length is a queue's; says whether it is.
pub fn format_cells(queue: &mut [u8]) -> bool
    ensures value { result ≡ is_queue_length (length queue.old) }
    ensures queue_after { queue.new ≡ format_queue queue.old }
{
    if !is_length(queue.len()) {
        return false;
    }
    queue.fill(0);
    link(queue);
    queue[1] = 1;
    true
}

// Copies a cell out, with byte 0 as zero, where it lies in the bytes and the output is a cell's size.
pub fn show(queue: &[u8], cell: usize, out: &mut [u8])
    ensures { out.new ≡ shown_at queue.now cell out.old }
{
    if (cell < queue.len() / CELL_SIZE) & (out.len() == CELL_SIZE) {
        let a = cell * CELL_SIZE;
        copy(out, &queue[a..a + CELL_SIZE]);
        out[0] = 0;
    }
}

// Zeroes the first used cell, and puts it first on the free list, where it lies in the bytes.
pub fn release(queue: &mut [u8])
    ensures { queue.new ≡ released queue.old }
{
    if queue.len() < CELL_SIZE {
        return;
    }
    let first = queue[0];
    let at = usize::from(first) * CELL_SIZE;
    let e = at + CELL_SIZE;
    if queue.len() < e {
        return;
    }
    queue[0] = queue[at];
    queue[at] = queue[1];
    queue[1] = first;
    queue[at + 1..e].fill(0);
}
