// The choice of line rule 2 (02, T-06): "of all balancing choices, one with the least peak, then the lowest s, then the lowest v". Crate
// `peaks` gives the least peak of each shift, and the first index that has it.
ghost use Rattle.std.specs.Prelude.{◌≡◌, ◌≤◌, ◌<◌, take};
ghost use Rattle.modular_theory.specs.Residue.{Congruent};
ghost use Rattle.code_theory.specs.LineRule.{rule2};
ghost use Rattle.profiles.specs.Row.{parameters, Valid};
ghost use Rattle.peaks_theory.specs.Costs.{check_offset};
ghost use Rattle.peaks_theory.specs.Claims.{Seeded};
ghost use Rattle.encoder.specs.Symbols.{SymbolArray, Walked, Chosen, lowest_s};

use crate::balance::{Choice, Integral, shift_of};
use modular::remainder;
use peaks::{Lanes, least_peaks};
use profiles::{Edition, Row};
use symbols::weigh;

// What the sum over the odd positions lacks of alpha; in edition 18 of its mirror image, since the shifted word is complemented there.
fn check_offset(row: Row) -> usize
    requires { Valid row }
    ensures { Congruent row.q result (check_offset (parameters row) row.balanced) × (result ≤ 255) }
{
    match row.edition {
        Edition::Of2013 => usize::from(row.delta),
        Edition::Of2018 => row.n + usize::from(row.q - row.delta),
    }
}

// Alpha mod q of the integral raised by 1, and what each further shift adds to it.
#[derive(Clone, Copy)]
struct Alphas {
    first: u8,
    step: u8,
}

// The first s with the lowest of the least peaks, by their shifts.
fn lowest_s(row: Row, costs: &Lanes) -> u8
    requires { Valid row × (row.q ≤ 8) }
    ensures { result ≡ lowest_s (parameters row) costs.now }
{
    let mut lowest = row.q;
    let mut least = 65535;
    for s in 0..row.q {
        let cost = costs[usize::from(shift_of(row, s))];
        if cost < least {
            least = cost;
            lowest = s;
        }
    }
    lowest
}

impl Integral {
    fn seed(&self) -> Alphas
        ensures { Seeded (parameters self.now.row) (take self.now.row.balanced self.now.symbols) result.first result.step
            × (result.first < self.now.row.q)
            × (result.step < self.now.row.q) }
    {
        let row = self.row;
        let weight = weigh(&self.symbols, row.balanced, row.target);
        let positions = row.n + 1;
        let first = remainder(
            row.q,
            usize::from(weight.odd) + check_offset(row) + positions,
        );
        let step = remainder(row.q, positions);
        Alphas { first, step }
    }

    // 02: the choice of line rule 2. There are eight levels at most: a shift for each lane.
    pub(crate) fn least_peak(&self) -> Choice
        requires { Walked (parameters self.now.row) (take self.now.row.balanced self.now.symbols) }
        ensures { Chosen rule2 (parameters self.now.row) (take self.now.row.balanced self.now.symbols) result.shift result.v }
    {
        let row = self.row;
        let seed = self.seed();
        let found = least_peaks(row.q, row.balanced, seed.first, seed.step, &self.symbols);
        let shift = shift_of(row, lowest_s(row, &found.costs));
        let v = usize::from(found.indices[usize::from(shift)]) + 1;
        Choice { shift, v }
    }
}
