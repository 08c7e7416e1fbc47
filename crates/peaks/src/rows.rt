// The table of a search: what a symbol counts for, in each lane.
ghost use Rattle.std.specs.Prelude.{◌+◌, ◌*◌, ◌%◌, ◌≤◌, ◌<◌, get_or};
ghost use Rattle.peaks.specs.Lanes.{LanesAre, LanesBelow, RowsAre, raised_lane};

use crate::lanes::{Lanes, raised};

// A row for each of the numbers 0 to q that are added to a symbol. That for q is that for 0 again: for one more it is the next row.
pub(crate) type Rows = [Lanes; 9];

// first + t · step mod q in lane t.
fn progression(q: u16, first: u16, step: u16) -> Lanes
    requires { (q ≤ 8) × (first < q) × (step ≤ q) }
    ensures { LanesAre (λ t. (first + t * step) % q) result }
{
    let mut r = [0u16; 8];
    let mut y = first;
    for lane in &mut r {
        *lane = y;
        y = raised(q, step, y);
    }
    r
}

// A call for each row: written into the loop over the rows, it would be worked on by lanes of several rows, which takes longer.
#[inline(never)]
fn raised_row(q: u16, y: u16, symbols: &Lanes) -> Lanes
    requires { (q ≤ 8) × (y ≤ q) × LanesBelow q symbols.now }
    ensures { LanesAre (λ t. 2 * ((y + get_or symbols.now t 0) % q)) result }
{
    let mut row = *symbols;
    for lane in &mut row {
        *lane = 2 * raised(q, y, *lane);
    }
    row
}

// Twice first + t · step + y mod q in lane t of row y.
pub(crate) fn raised_rows(q: u16, first: u16, step: u16) -> Rows
    requires { (q ≤ 8) × (first < q) × (step ≤ q) }
    ensures { RowsAre (raised_lane q first step) (q + 1) result }
{
    let symbols = progression(q, first, step);
    let mut rows = [[0u16; 8]; 9];
    for y in 0..=q {
        rows[usize::from(y)] = raised_row(q, y, &symbols);
    }
    rows
}
