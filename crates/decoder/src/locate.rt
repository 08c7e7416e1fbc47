// Which position of an unbalanced word changed: each of the parity that the check symbols name is tried, in rising order, or the one that
// the syndromes name is (02, T-09).
ghost use Rattle.std.specs.Prelude.{◌≡◌, ◌≢◌, pos, ◌≤◌};
ghost use Rattle.profiles.specs.Edition.{edition_is};
ghost use Rattle.profiles.specs.Row.{RowOf};
ghost use Rattle.decoding_theory.specs.Decoded.{position_count, balancing_symbol, in_range, off_by_lack, near_after, fits};
ghost use Rattle.decoder.specs.Totals.{WholeWord};
ghost use Rattle.decoder.specs.Search.{parameters_of, sums_in, parity_of, Tries};
ghost use Rattle.decoder.specs.Locate.{ErrorLocated, FirstFit};

use crate::column::{moved, moves_to_zero};
use crate::parity::Parity;
use crate::search::Search;
use crate::totals::Totals;
use locator::error_position;
use modular::add;
use modular::plain::less;
use symbols::Matrix;
use syndromes::near;

impl Search {
    // How many positions the parity has.
    pub(crate) fn position_count(self) -> usize
        ensures { result ≡ position_count (parameters_of self) (parity_of self) }
    {
        match self.parity {
            Parity::Odd => self.row.n + 1,
            Parity::Even => self.row.n,
        }
    }

    // The symbol that balances the body in place of x, by plain subtraction; q where it is no level.
    pub(crate) fn balancing_symbol(self, x: u8) -> u8
        ensures { result ≡ balancing_symbol (parameters_of self) (sums_in self) x }
    {
        less(self.row.q, x, self.s.excess)
    }

    // Whether that symbol is a level. Both tests are made, which the compiler takes for one.
    #[tactic(auto, unfolding(decoding_theory::specs::Decoded::in_range, decoding_theory::specs::Decoded::balancing_symbol))]
    fn in_range(self, x: u8) -> bool
        ensures { result ≡ in_range (parameters_of self) (sums_in self) x }
    {
        let y = i32::from(x) - self.s.excess;
        (0 <= y) & (y < i32::from(self.row.q))
    }

    // Whether the check symbol of the parity is off by as much as the weight, mod q.
    fn off_by_lack(self) -> bool
        ensures { result ≡ off_by_lack (parameters_of self) (sums_in self) (parity_of self) }
    {
        let Totals {
            lack,
            asked,
            arrived,
            ..
        } = self.s;
        match self.parity {
            Parity::Odd => add(self.row.q, asked.alpha, lack) == arrived.alpha,
            Parity::Even => add(self.row.q, asked.beta, lack) == arrived.beta,
        }
    }

    // Whether the syndromes are near once the symbol at index k of the parity is corrected. At most positions neither is zero then, and
    // that is seen first.
    fn near_after(
        self,
        columns: &Matrix,
        by_first: &[u8; 16],
        by_second: &[u8; 16],
        k: usize,
    ) -> bool
        requires { Tries self columns.now by_first.now by_second.now × (k ≤ 48) }
        ensures { result ≡ near_after (parameters_of self) (sums_in self) (parity_of self) k }
    {
        let a = k + 1;
        let b = self.parity.second_column(k);
        let row = self.row;
        let s = self.s.syndromes;
        if !moves_to_zero(row, columns, s.first, by_first, a)
            && !moves_to_zero(row, columns, s.second, by_second, b)
        {
            return false;
        }
        let first = moved(row, columns, s.first, by_first, a);
        let second = moved(row, columns, s.second, by_second, b);
        near(row.q, row.n, first, second)
    }

    // The first index of the parity that fits. Where the check symbol is off by something else than the weight, none does, and none has to be
    // tried.
    #[tactic(auto, unfolding(decoding_theory::specs::Decoded::fits))]
    pub(crate) fn locate(
        self,
        columns: &Matrix,
        by_first: &[u8; 16],
        by_second: &[u8; 16],
        word: &[u8],
    ) -> Option<usize>
        requires { Tries self columns.now by_first.now by_second.now × WholeWord self.row word.now }
        ensures { FirstFit self word.now result }
    {
        if !self.off_by_lack() {
            return None;
        }
        for k in 0..self.position_count() {
            if self.in_range(word[self.parity.index(k)])
                && self.near_after(columns, by_first, by_second, k)
            {
                return Some(k);
            }
        }
        None
    }

    // The position that the syndromes name (02, T-09): no symbol of the word is looked at.
    fn locate_error(self, profile: usize) -> Option<usize>
        requires { RowOf (edition_is self.row.edition) profile self.row }
        ensures { ErrorLocated self result }
    {
        error_position(
            self.row.edition,
            profile,
            self.parity.is_odd(),
            self.s.excess,
            self.s.syndromes.first,
            self.s.syndromes.second,
        )
    }

    // The index of that position, where its symbol can be the one that changed: the two tests that are left.
    pub(crate) fn fit_located(self, profile: usize, word: &[u8]) -> Option<usize>
        requires { WholeWord self.row word.now × (self.s.excess ≢ pos 0)
            × RowOf (edition_is self.row.edition) profile self.row }
        ensures { FirstFit self word.now result }
    {
        if !self.off_by_lack() {
            return None;
        }
        let i = self.locate_error(profile)? - 1;
        self.in_range(word[i]).then_some(i / 2)
    }
}
