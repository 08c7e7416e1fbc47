// The position of an error.
ghost use Rattle.std.specs.Prelude.{◌≡◌, T, ◌+◌, ◌≤◌};
ghost use Rattle.modular_theory.specs.Residue.{Prime};
ghost use Rattle.decoding_theory.specs.Decoded.{position_count};
ghost use Rattle.decoding_theory.specs.Syndromes.{index};
ghost use Rattle.profiles.specs.Edition.{edition_is};
ghost use Rattle.profiles.specs.Row.{Valid, parameters};
ghost use Rattle.symbols.specs.Syndromes.{rows};
ghost use Rattle.syndromes.specs.Rows.{rows_of};
ghost use Rattle.locating_theory.specs.Candidates.{holds_with};
ghost use Rattle.locating_theory.specs.ErrorPosition.{is_error};
ghost use Rattle.locator.specs.Location.{ErrorPositionAllows};
ghost use Rattle.locator.specs.Steps.{digit_row, level_rows, ReducedRows, ones_vanish, LocatedIndex};

use crate::candidate::inverse;
use crate::clues::Clues;
use crate::error::is_error;
use profiles::{Edition, Row, row_in};
use symbols::Syndrome;
use syndromes::{plus_multiple, syndrome_plus};

// A digit row that profiles of fewer than `fewest` rows do not have: there it is 0.
fn digit_row(r: usize, fewest: usize, x: u8) -> u8
    ensures { result ≡ digit_row r fewest x }
{
    if r < fewest { 0 } else { x }
}

// Whether every row is a level.
#[tactic(auto, unfolding(crate::specs::Steps::level_rows))]
fn has_levels(q: u8, s: Syndrome) -> bool
    ensures { result ≡ level_rows q (rows s) }
{
    s.low < q && s.mid < q && s.high < q && s.ones < q
}

// The rows of a syndrome as levels, without the digit rows that the profile does not have. Those of a word are levels already.
fn reduced(row: Row, s: Syndrome) -> Syndrome
    requires { Valid row }
    ensures { ReducedRows row (rows s) (rows result) }
{
    let kept = Syndrome {
        low: s.low,
        mid: digit_row(row.r, 3, s.mid),
        high: digit_row(row.r, 4, s.high),
        ones: s.ones,
    };
    if has_levels(row.q, kept) {
        kept
    } else {
        syndrome_plus(row.q, 1, kept, Syndrome::ZERO)
    }
}

impl Clues {
    // How many positions the parity has.
    fn position_count(self) -> usize
        ensures { result ≡ position_count (parameters self.row) self.odd }
    {
        if self.odd { self.row.n + 1 } else { self.row.n }
    }

    // Whether index k is one of the parity, and the syndromes are near once the components gain g there.
    #[tactic(auto, unfolding(locating_theory::specs::Candidates::holds_with))]
    fn holds_at(self, g: u8, k: usize) -> bool
        requires { g ≤ self.row.q }
        ensures { result
            ≡ holds_with (parameters self.row) self.odd g (rows_of self.row (rows self.first)) (rows_of self.row (rows self.second)) k }
    {
        k < self.position_count() && self.near_with(g, k)
    }

    // Whether the first component's candidate is tested before the second's: whether its row of ones is 0 once the components gain g, as
    // where that makes its syndrome zero. For the last odd index the first component gains nothing, so this is only the order in which the
    // candidates are tested, any order being right (`TwoCandidates` in crate `locating_theory`).
    fn begins_with_first(self, g: u8) -> bool
        requires { g ≤ self.row.q }
        ensures { result ≡ ones_vanish self.row self.odd g self.first.ones }
    {
        let gained = if self.odd { self.row.q - g } else { g };
        plus_multiple(self.row.q, gained, 1, self.first.ones) == 0
    }

    // The index of the error, by the two candidates in turn: the one tested last is worked out only where the other does not hold.
    fn error_index(self, error: i32) -> Option<usize>
        requires { Prime self.row.q × T (is_error self.row.q error) }
        ensures { LocatedIndex (parameters self.row) self.odd error (rows_of self.row (rows self.first)) (rows_of self.row (rows self.second))
            result }
    {
        let g = self.gain_without(error);
        let i = inverse(self.row.q, g)?;
        let first_before = self.begins_with_first(g);
        let k = self.candidate(first_before, i);
        if self.holds_at(g, k) {
            return Some(k);
        }
        let l = self.candidate(!first_before, i);
        self.holds_at(g, l).then_some(l)
    }
}

// The position of index k of the parity.
fn position_of(odd: bool, k: usize) -> usize
    requires { k ≤ 48 }
    ensures { result ≡ index odd k + 1 }
{
    if odd { 2 * k + 1 } else { 2 * k + 2 }
}

// 02, T-09: where the error is in w, in the edition and the profile of that number; `odd` where the check sum over the odd positions
// disagrees, not `odd` where that over the even ones does. None where no position of w explains the syndromes, where the number is no
// error, and where that of the profile is none.
pub fn error_position(
    edition: Edition,
    profile: usize,
    odd: bool,
    error: i32,
    first: Syndrome,
    second: Syndrome,
) -> Option<usize>
    ensures { ErrorPositionAllows (edition_is edition) profile odd error first second result }
{
    let row = row_in(edition, profile)?;
    if !is_error(row.q, error) {
        return None;
    }
    let clues = Clues {
        row,
        odd,
        first: reduced(row, first),
        second: reduced(row, second),
    };
    let k = clues.error_index(error)?;
    Some(position_of(odd, k))
}
