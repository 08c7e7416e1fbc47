// How the symbol of one parity that changed is found: only here the two decoders part.
ghost use Rattle.std.specs.Prelude.{◌≡◌, ◌≢◌, ℕ, refl, pos};
ghost use Rattle.profiles.specs.Edition.{edition_is};
ghost use Rattle.profiles.specs.Row.{RowOf};
ghost use Rattle.symbols.specs.Columns.{Columns};
ghost use Rattle.decoder.specs.Totals.{WholeWord};
ghost use Rattle.decoder.specs.Locate.{tried_in};
ghost use Rattle.decoder.specs.Changed.{ChangedWith};

use crate::effect::{effect_of, syndromes_after, syndromes_at};
use crate::search::Search;
use symbols::{Matrix, Syndromes};

// Its index among the positions of the parity and the syndromes once it is corrected, if there is one; and how many positions were tried.
#[derive(Clone, Copy)]
pub(crate) struct ChangedSymbol {
    pub(crate) found: Option<(usize, Syndromes)>,
    pub(crate) tried: usize,
}

pub(crate) trait Method {
    // The count that is said, where so many positions would be tried.
    ghost count: { ℕ → ℕ };

    // The symbol, in the profile of that number.
    fn changed_symbol(
        search: Search,
        profile: usize,
        columns: &Matrix,
        word: &[u8],
    ) -> ChangedSymbol
        requires { Columns search.row.q search.row.n columns.now × WholeWord search.row word.now
            × (search.s.excess ≢ pos 0) × RowOf (edition_is search.row.edition) profile search.row }
        ensures { ChangedWith search word.now (count (tried_in search word.now)) result };

    // Where none is tried, none is said.
    ghost none: { count 0 ≡ 0 };
}

// Positions are tried, with the multiples of what a correction adds in a table.
pub(crate) struct Trying;

impl Method for Trying {
    ghost count = { λ t. t };

    ghost none = { refl };

    fn changed_symbol(
        search: Search,
        _profile: usize,
        columns: &Matrix,
        word: &[u8],
    ) -> ChangedSymbol {
        let effect = effect_of(search.row, search.parity, search.s.lack);
        match search.locate(columns, &effect.first, &effect.second, word) {
            Some(k) => {
                let after = syndromes_after(search, columns, effect, k);
                ChangedSymbol {
                    found: Some((k, after)),
                    tried: k + 1,
                }
            }
            None => ChangedSymbol {
                found: None,
                tried: search.position_count(),
            },
        }
    }
}

// Its position is located by the syndromes (02, T-09), and none is tried.
pub(crate) struct Locating;

impl Method for Locating {
    ghost count = { λ t. 0 };

    ghost none = { refl };

    fn changed_symbol(
        search: Search,
        profile: usize,
        columns: &Matrix,
        word: &[u8],
    ) -> ChangedSymbol {
        let found = search
            .fit_located(profile, word)
            .map(|k| (k, syndromes_at(search, columns, k)));
        ChangedSymbol { found, tried: 0 }
    }
}
