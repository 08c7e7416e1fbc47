// What taking an error out at an index does to the syndromes.
ghost use Rattle.std.specs.Prelude.{◌≡◌, [], ◌∷◌, ◌/◌, ◌%◌, ◌≤◌};
ghost use Rattle.profiles.specs.Row.{parameters};
ghost use Rattle.symbols.specs.Syndromes.{rows};
ghost use Rattle.syndromes.specs.Rows.{FourRows, rows_of, Moved};
ghost use Rattle.locating_theory.specs.ErrorPosition.{near_with};

use crate::clues::Clues;
use symbols::Syndrome;
use syndromes::{near, syndrome_plus};

// The column of position a (01: the digits of a in base q, and a 1). To the compiler a byte's `/` and `%` are two divisions, so a digit is
// what the quotient leaves; and a column's high digit is below q, so that the last remainder is taken only of a byte that is no column's.
fn column(q: u8, a: u8) -> Syndrome
    requires { 1 ≤ q }
    ensures { rows result ≡ a % q ∷ a / q % q ∷ a / q / q % q ∷ 1 ∷ [] }
{
    let rest = a / q;
    let top = rest / q;
    let low = a - rest * q;
    let mid = rest - top * q;
    let high = if top < q { top } else { top % q };
    Syndrome {
        low,
        mid,
        high,
        ones: 1,
    }
}

impl Clues {
    // A syndrome with f times column a added. There is no column 0 and none past n.
    #[tactic(auto, using(syndromes::proofs::Moving::moved_still))]
    fn moved(self, f: u8, a: usize, s: Syndrome) -> Syndrome
        requires { FourRows self.row (rows s) }
        ensures { Moved self.row f a (rows s) (rows result) }
    {
        let q = self.row.q;
        if 1 <= a && a <= self.row.n {
            syndrome_plus(q, f, column(q, a as u8), s)
        } else {
            s
        }
    }

    // Whether the syndromes are near once the components gain g at index k of the parity.
    #[tactic(auto, using(syndromes::proofs::FourRows::near_same, crate::proofs::Moving::near_odd, crate::proofs::Moving::near_even))]
    pub(crate) fn near_with(self, g: u8, k: usize) -> bool
        requires { (g ≤ self.row.q) × (k ≤ 48) }
        ensures { result
            ≡ near_with (parameters self.row) self.odd g (rows_of self.row (rows self.first)) (rows_of self.row (rows self.second)) k }
    {
        let less = self.row.q - g;
        let (a, b) = if self.odd {
            (
                self.moved(less, k + 1, self.first),
                self.moved(g, k, self.second),
            )
        } else {
            (
                self.moved(g, k + 1, self.first),
                self.moved(less, k + 1, self.second),
            )
        };
        near(self.row.q, self.row.n, a, b)
    }
}
