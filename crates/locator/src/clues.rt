// What the position of an error is found by.
ghost use Rattle.profiles.specs.Row.{Valid};
ghost use Rattle.symbols.specs.Syndromes.{rows};
ghost use Rattle.syndromes.specs.Rows.{FourRows};

use profiles::Row;
use symbols::Syndrome;

// The profile's row, whether the check sum that disagrees is that over the odd positions, and the syndromes, as levels.
#[derive(Clone, Copy)]
pub(crate) struct Clues {
    pub(crate) row: Row,
    pub(crate) odd: bool,
    pub(crate) first: Syndrome,
    pub(crate) second: Syndrome,
    ghost valid: { Valid row },
    ghost first_levels: { FourRows row (rows first) },
    ghost second_levels: { FourRows row (rows second) },
}
