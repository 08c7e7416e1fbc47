// What is summed over a received word, once: its excess, its check symbols and the syndromes of its components.
ghost use Rattle.std.specs.Prelude.{◌≡◌};
ghost use Rattle.profiles.specs.Row.{parameters};
ghost use Rattle.symbols.specs.Columns.{Columns};
ghost use Rattle.decoding_theory.specs.Decoded.{sums};
ghost use Rattle.decoder.specs.Received.{BodyArray};
ghost use Rattle.decoder.specs.Totals.{WholeWord, sums_of, Components, Totalled, SummedWord};

use crate::differenced::take_components;
use modular::negative;
use profiles::Row;
use symbols::{Body, Checks, Matrix, Syndromes, checks_of, syndromes_of, weigh};

#[derive(Clone, Copy)]
pub(crate) struct Totals {
    // The weight of the body less its balancing value.
    pub(crate) excess: i32,
    // What a changed symbol lacks by it, mod q.
    pub(crate) lack: u8,
    // The check symbols α and β: as the body asks for, and as received.
    pub(crate) asked: Checks,
    pub(crate) arrived: Checks,
    // Those of the components.
    pub(crate) syndromes: Syndromes,
}

// The sums over a word, of whose body x holds the differences.
fn total(row: Row, columns: &Matrix, word: &[u8], x: &Body) -> Totals
    requires { WholeWord row word.now × Components row word.now x.now × Columns row.q row.n columns.now }
    ensures { Totalled row result × (sums_of row result ≡ sums (parameters row) word.now) }
{
    let m = row.balanced;
    let weight = weigh(word, m, row.target);
    Totals {
        excess: weight.excess,
        lack: negative(row.q, weight.excess),
        asked: checks_of(row.q, row.delta, weight),
        arrived: Checks {
            alpha: word[m],
            beta: word[m + 1],
        },
        syndromes: syndromes_of(row.q, row.n, columns, x),
    }
}

// The sums over a word, whose components are put into x, an array of levels.
pub(crate) fn sums_of(row: Row, columns: &Matrix, word: &[u8], x: &mut Body) -> Totals
    requires { WholeWord row word.now × Columns row.q row.n columns.now × BodyArray row x.old }
    ensures { SummedWord row word.now x.new result }
{
    take_components(row, word, x);
    total(row, columns, word, x)
}
