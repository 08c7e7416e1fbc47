// What the search for the changed symbol goes by.
ghost use Rattle.profiles.specs.Row.{Valid};
ghost use Rattle.decoder.specs.Totals.{Totalled};

use crate::parity::Parity;
use crate::totals::Totals;
use profiles::Row;

// The sums over the word, and the parity of the positions whose check symbol disagrees.
#[derive(Clone, Copy)]
pub(crate) struct Search {
    pub(crate) row: Row,
    pub(crate) s: Totals,
    pub(crate) parity: Parity,
    ghost valid: { Valid row },
    ghost totalled: { Totalled row s },
}
