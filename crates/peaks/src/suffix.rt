// The pass from the end: the peaks of the word raised by one more than each shift, from each index on.
ghost use Rattle.std.specs.Prelude.{◌≡◌, suc, ◌+◌, ◌-◌, length, take};
ghost use Rattle.code_theory.specs.Balance.{shifted};
ghost use Rattle.peaks.specs.Lanes.{LanesAre, RowsAre, raised_lane};
ghost use Rattle.peaks.specs.Sums.{SymbolsFit, SumsAre, tail_lane};
ghost use Rattle.peaks.specs.Steps.{next_sum, next_peak, SumRoom};

use crate::lanes::{Lanes, ZERO_SUM};
use crate::rows::Rows;
use symbols::Body;

// The peaks from each index on.
pub(crate) type Tails = [Lanes; 97];

// One symbol more, of which `up` is twice.
fn backward(h: u16, up: &Lanes, sums: &mut Lanes, peaks: &mut Lanes)
    requires { (length sums.old ≡ 8) × (length peaks.old ≡ 8) × SumRoom h up.now sums.old }
    ensures { LanesAre (next_sum h up.now sums.old) sums.new
        × LanesAre (next_peak h up.now sums.old peaks.old) peaks.new }
{
    for t in 0..8 {
        let sum = sums[t] + up[t] - h;
        sums[t] = sum;
        peaks[t] = peaks[t].max(sum.abs_diff(ZERO_SUM));
    }
}

// The peaks of the first m symbols, and their sums.
pub(crate) fn suffix_peaks(q: u16, m: usize, rows: &Rows, d: &Body, tails: &mut Tails) -> Lanes
    requires { SymbolsFit q m d.now × RowsAre (raised_lane q 0 1) (q + 1) rows.now × (length tails.old ≡ 97) }
    ensures { SumsAre (q - 1) (λ t. shifted q (suc t) (take m d.now)) result
        × RowsAre (tail_lane q (take m d.now)) m tails.new }
{
    let h = q - 1;
    let mut totals = [ZERO_SUM; 8];
    let mut peaks = [0u16; 8];
    for i in (0..m).rev() {
        let up = rows[usize::from(d[i]) + 1];
        backward(h, &up, &mut totals, &mut peaks);
        tails[i] = peaks;
    }
    totals
}
