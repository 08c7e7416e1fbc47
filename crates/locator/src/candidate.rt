// The index that a syndrome names, once it is divided by what moved it.
ghost use Rattle.std.specs.Prelude.{◌≡◌, ◌≤◌};
ghost use Rattle.locating_theory.specs.Candidates.{named_by, before, candidate, syndrome_of};
ghost use Rattle.profiles.specs.Row.{parameters};
ghost use Rattle.symbols.specs.Syndromes.{rows};
ghost use Rattle.syndromes.specs.Rows.{FourRows, rows_of};
ghost use Rattle.locator.specs.Steps.{Inverse};

use crate::clues::Clues;
use modular::add;
use symbols::Syndrome;
use syndromes::{position, syndrome_plus};

// The inverse of g mod q, by the multiples of g in turn, if there is one.
#[tactic(auto, using(crate::proofs::Inverting::first_multiple, crate::proofs::Inverting::inverse_found, crate::proofs::Inverting::none_inverts))]
pub(crate) fn inverse(q: u8, g: u8) -> Option<u8>
    requires { (1 ≤ q) × (q ≤ 15) × (g ≤ q) }
    ensures { Inverse q g result }
{
    let mut product = 0;
    for i in 0..q {
        if product == 1 {
            return Some(i);
        }
        product = add(q, product, g);
    }
    None
}

impl Clues {
    // The position that h times a syndrome names; 0 for a zero syndrome.
    #[tactic(auto, using(crate::proofs::Scaling::named_is))]
    fn named(self, h: u8, s: Syndrome) -> usize
        requires { FourRows self.row (rows s) }
        ensures { result ≡ named_by (parameters self.row) h (rows_of self.row (rows s)) }
    {
        let q = self.row.q;
        position(q, syndrome_plus(q, h, s, Syndrome::ZERO))
    }

    // The index that meets column a as the one after it; the last index meets none.
    fn index_before(self, a: usize) -> usize
        ensures { result ≡ before (parameters self.row) a }
    {
        if a == 0 { self.row.n } else { a - 1 }
    }

    // The index of the parity that makes the syndrome of the first component zero, or of the second, if one does: i is the inverse of what
    // the components gain. In the second an index of the odd positions meets the column of its own number, and not the one after it.
    pub(crate) fn candidate(self, of_first: bool, i: u8) -> usize
        requires { i ≤ self.row.q }
        ensures { result ≡ candidate (parameters self.row) of_first self.odd i
            (syndrome_of of_first (rows_of self.row (rows self.first)) (rows_of self.row (rows self.second))) }
    {
        let s = if of_first { self.first } else { self.second };
        let h = if of_first == self.odd {
            i
        } else {
            self.row.q - i
        };
        let a = self.named(h, s);
        if self.odd && !of_first {
            a
        } else {
            self.index_before(a)
        }
    }
}
