// Line rule 2 of 02's T-06 wants, of the choices that balance a word, one with the least peak. A choice is a shift and an index: the shift is
// added mod q to each symbol before the index, and one more from it on. A balanced word's running digital sum at a position is minus that
// of the rest: so its peak is the larger of that up to the index and that of the rest counted from the end, and both are had for all
// indices in one pass each.
ghost use Rattle.std.specs.Prelude.{◌≡◌, ◌≤◌, ◌<◌, take};
ghost use Rattle.code_theory.specs.Component.{Below};
ghost use Rattle.peaks.specs.LeastPeaks.{searchable, found, least_peaks};

use crate::lanes::Lanes;
use crate::prefix::prefix_search;
use crate::rows::raised_rows;
use crate::suffix::suffix_peaks;
use profiles::symbols_below;
use symbols::Body;

// Above every cost: no index of a shift balances the word.
pub(crate) const NO_COST: u16 = 65535;

// For each shift the least peak of an index that balances the word, and the first index that has it.
#[derive(Drop)]
pub struct LeastPeaks {
    pub costs: Lanes,
    pub indices: Lanes,
}

// By value: that an array handed over has 97 symbols is known, and of one that is lent it is not.
fn searched(q: u16, m: usize, first: u16, step: u16, d: Body) -> LeastPeaks
    requires { (q ≤ 8) × (m ≤ 97) × (first < q) × (step < q) × Below q d }
    ensures { result ≡ found q first step (take m d) m }
{
    let rows = raised_rows(q, 0, 1);
    let mut tails = [[0u16; 8]; 97];
    let whole = suffix_peaks(q, m, &rows, &d, &mut tails);
    prefix_search(q, m, first, step, &rows, &d, &tails, whole)
}

fn searchable(q: u8, m: usize, first: u8, step: u8, d: &Body) -> bool
    ensures { result ≡ searchable q m first step d.now }
{
    (q <= 8) & (m <= 97) & (first < q) & (step < q) & symbols_below(d, q)
}

// Of the first m symbols of d, whose α (01) is `first` for shift 0 and index 0: each shift adds `step` to it, and each odd position before
// the index takes 1. Where no index of a shift balances the word its cost is 65535 and its index m. All costs are 65535, and all indices 0,
// for more than 8 levels or 97 symbols, and for numbers that are no levels.
pub fn least_peaks(q: u8, m: usize, first: u8, step: u8, d: &Body) -> LeastPeaks
    ensures { result ≡ least_peaks q m first step d.now }
{
    if searchable(q, m, first, step, d) {
        searched(u16::from(q), m, u16::from(first), u16::from(step), *d)
    } else {
        LeastPeaks {
            costs: [NO_COST; 8],
            indices: [0u16; 8],
        }
    }
}
