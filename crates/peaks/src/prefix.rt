// The pass from the front: the peaks of the word raised by each shift, up to each index, and with them the cost of each index.
ghost use Rattle.std.specs.Prelude.{◌≡◌, ℕ, suc, ◌+◌, ◌-◌, ◌%◌, ◌≤◌, ◌<◌, get_or, take};
ghost use Rattle.code_theory.specs.Balance.{shifted};
ghost use Rattle.peaks.specs.Lanes.{RowsAre, raised_lane, taken_off};
ghost use Rattle.peaks.specs.Sums.{SymbolsFit, SumsAre, tail_lane};
ghost use Rattle.peaks.specs.Steps.{is_better, step_lane, lane_at, EightLanes, LaneRoom, LanesHold};
ghost use Rattle.peaks.specs.LeastPeaks.{found};

use crate::lanes::{Lanes, ZERO_SUM};
use crate::rows::{Rows, raised_rows};
use crate::search::{LeastPeaks, NO_COST};
use crate::suffix::Tails;
use symbols::Body;

// What a lane carries: the sum and the peak up to an index, the sum of the whole word, and the least cost of an index passed, with that
// index.
#[derive(Clone, Copy)]
pub(crate) struct Lane {
    pub(crate) sum: u16,
    pub(crate) head: u16,
    pub(crate) total: u16,
    pub(crate) cost: u16,
    pub(crate) index: u16,
}

fn is_better(total: u16, cost: u16, least: u16) -> bool
    ensures { result ≡ is_better total cost least }
{
    (total == ZERO_SUM) & (cost < least)
}

impl Lane {
    // The cost of index `here`, and one symbol more.
    fn stepped(self, here: u16, h: u16, up: u16, next: u16, tail: u16, check: u16) -> Lane
        requires { LaneRoom self h up next }
        ensures { result ≡ step_lane here self h up next tail check }
    {
        let cost = self.head.max(tail).max(check.abs_diff(h));
        let better = is_better(self.total, cost, self.cost);
        let sum = self.sum + up - h;
        Lane {
            sum,
            head: self.head.max(sum.abs_diff(ZERO_SUM)),
            total: self.total + up - next,
            cost: if better { cost } else { self.cost },
            index: if better { here } else { self.index },
        }
    }
}

// What all lanes carry, an array for each of a lane's numbers: so the compiler works on all lanes at once.
#[derive(Drop)]
pub(crate) struct LaneArrays {
    pub(crate) sums: Lanes,
    pub(crate) heads: Lanes,
    pub(crate) totals: Lanes,
    pub(crate) costs: Lanes,
    pub(crate) indices: Lanes,
}

impl LaneArrays {
    // The same in every lane, all of it in one loop: of several the compiler works on one lane at a time, which takes twice as long.
    fn step(&mut self, here: u16, h: u16, up: &Lanes, next: &Lanes, tails: &Lanes, checks: &Lanes)
        requires { EightLanes self.old
            × ((t : ℕ) → t < 8 → LaneRoom (lane_at self.old t) h (get_or up.now t 0) (get_or next.now t 0)) }
        ensures { LanesHold
            (λ t. step_lane here (lane_at self.old t) h
            (get_or up.now t 0) (get_or next.now t 0) (get_or tails.now t 0) (get_or checks.now t 0))
            self.new }
    {
        for t in 0..8 {
            let lane = Lane {
                sum: self.sums[t],
                head: self.heads[t],
                total: self.totals[t],
                cost: self.costs[t],
                index: self.indices[t],
            };
            let r = lane.stepped(here, h, up[t], next[t], tails[t], checks[t]);
            self.sums[t] = r.sum;
            self.heads[t] = r.head;
            self.totals[t] = r.total;
            self.costs[t] = r.cost;
            self.indices[t] = r.index;
        }
    }
}

// The row of the check symbol for the index after i: an odd position, at an even index, takes 1.
fn next_check(q: usize, i: usize, k: usize) -> usize
    requires { (1 ≤ q) × (k ≡ taken_off q i) }
    ensures { result ≡ taken_off q (i + 1) }
{
    if i % 2 == 1 {
        return k;
    }
    if k == 0 { q - 1 } else { k - 1 }
}

// The least cost of each shift and its index, from the peaks and the sums of the pass from the end.
pub(crate) fn prefix_search(
    q: u16,
    m: usize,
    first: u16,
    step: u16,
    rows: &Rows,
    d: &Body,
    tails: &Tails,
    totals: Lanes,
) -> LeastPeaks
    requires { SymbolsFit q m d.now
        × (first < q)
        × (step < q)
        × RowsAre (raised_lane q 0 1) (q + 1) rows.now
        × RowsAre (tail_lane q (take m d.now)) m tails.now
        × SumsAre (q - 1) (λ t. shifted q (suc t) (take m d.now)) totals }
    ensures { result ≡ found q first step (take m d.now) m }
{
    let checks = raised_rows(q, first, step);
    let mut lanes = LaneArrays {
        sums: [ZERO_SUM; 8],
        heads: [0; 8],
        totals,
        costs: [NO_COST; 8],
        indices: [m as u16; 8],
    };
    let mut k = 0;
    for i in 0..m {
        let symbol = usize::from(d[i]);
        lanes.step(
            i as u16,
            q - 1,
            &rows[symbol],
            &rows[symbol + 1],
            &tails[i],
            &checks[k],
        );
        k = next_check(usize::from(q), i, k);
    }
    LeastPeaks {
        costs: lanes.costs,
        indices: lanes.indices,
    }
}
