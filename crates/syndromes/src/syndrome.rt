// Syndromes of the two components (three digit rows and the row of ones): which are those of near components.
ghost use Rattle.std.specs.Prelude.{◌≡◌};
ghost use Rattle.decoding_theory.specs.Syndromes.{from_digits, column_syndrome, near_syndromes};
ghost use Rattle.symbols.specs.Syndromes.{four_rows, rows};
ghost use Rattle.syndromes.specs.FourRows.{zero_rows};

use symbols::Syndrome;

// Whether every row is 0.
#[tactic(auto, unfolding(crate::specs::FourRows::zero_rows))]
pub fn is_zero(s: Syndrome) -> bool
    ensures { result ≡ zero_rows (rows s) }
{
    s == Syndrome::ZERO
}

// The position that the digits name.
pub fn position(q: u8, s: Syndrome) -> usize
    ensures { result ≡ from_digits q 3 (rows s) }
{
    let levels = usize::from(q);
    (usize::from(s.high) * levels + usize::from(s.mid)) * levels + usize::from(s.low)
}

// Whether the last row is 1 and the digits name one of the n positions: position 0 is none.
#[tactic(auto, unfolding(decoding_theory::specs::Syndromes::column_syndrome, decoding_theory::specs::Syndromes::column_position))]
fn is_column(q: u8, n: usize, s: Syndrome) -> bool
    ensures { result ≡ column_syndrome (four_rows q n) (rows s) }
{
    let at = position(q, s);
    s.ones == 1 && 1 <= at && at <= n
}

// Whether one of the two is zero, and the other is zero or a column.
#[tactic(auto, using(crate::proofs::Pairs::near_is))]
pub fn near(q: u8, n: usize, s: Syndrome, t: Syndrome) -> bool
    ensures { result ≡ near_syndromes (four_rows q n) (rows s) (rows t) }
{
    if is_zero(s) {
        is_zero(t) || is_column(q, n, t)
    } else {
        is_zero(t) && is_column(q, n, s)
    }
}
