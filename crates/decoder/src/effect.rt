// What a change of a symbol of one parity does to the two syndromes: a multiple of a column is added to each.
ghost use Rattle.std.specs.Prelude.{◌≡◌, ◌≤◌, ◌<◌, if◌then◌else◌};
ghost use Rattle.profiles.specs.Row.{Valid, parameters};
ghost use Rattle.symbols.specs.Columns.{Columns};
ghost use Rattle.decoder.specs.Parity.{is_odd};
ghost use Rattle.decoder.specs.Direction.{first_loses};
ghost use Rattle.decoder.specs.Search.{FactorsOf, Moves, Tries, After};

use crate::column::{moved, plus_column};
use crate::differenced::is_backward;
use crate::multiples::multiples;
use crate::parity::Parity;
use crate::search::Search;
use modular::sub;
use profiles::Row;
use symbols::{Matrix, Syndromes};

// What is used in the first component, and in the second.
#[derive(Clone, Copy)]
pub(crate) struct Sides<T> {
    pub(crate) first: T,
    pub(crate) second: T,
}

// Whether the first component loses what a symbol of the parity gains, and the second gains it; if not, it is the other way round. This is
// all that the edition decides here.
fn first_loses(row: Row, parity: Parity) -> bool
    ensures { result ≡ first_loses (parameters row) (is_odd parity) }
{
    is_backward(row) != parity.is_odd()
}

// What stands for the gain where a symbol of the parity gains it, and for its negative.
fn by_side<T>(row: Row, parity: Parity, more: T, less: T) -> Sides<T>
    ensures first { result.first ≡ if first_loses (parameters row) (is_odd parity) then less else more }
    ensures second { result.second ≡ if first_loses (parameters row) (is_odd parity) then more else less }
{
    if first_loses(row, parity) {
        Sides {
            first: less,
            second: more,
        }
    } else {
        Sides {
            first: more,
            second: less,
        }
    }
}

// How often the column comes in where a symbol of the parity gains e: e times and its negative.
fn factors_of(row: Row, parity: Parity, e: u8) -> Sides<u8>
    requires { Valid row × (e < row.q) }
    ensures { FactorsOf row (is_odd parity) e result.first result.second }
{
    by_side(row, parity, e, sub(row.q, 0, e))
}

// The multiples of both, of each level, for trying many columns. Each table is made before it is known whose it is, which is quicker.
pub(crate) fn effect_of(row: Row, parity: Parity, e: u8) -> Sides<[u8; 16]>
    requires { Valid row × (e < row.q) }
    ensures { Moves row (is_odd parity) e result.first result.second }
{
    let more = multiples(row.q, e);
    let less = multiples(row.q, sub(row.q, 0, e));
    by_side(row, parity, more, less)
}

// The syndromes once the symbol at index k of the parity is corrected, by the multiples that were made for trying.
pub(crate) fn syndromes_after(
    search: Search,
    columns: &Matrix,
    effect: Sides<[u8; 16]>,
    k: usize,
) -> Syndromes
    requires { Tries search columns.now effect.first effect.second × (k ≤ 48) }
    ensures { After search k result }
{
    let Search { row, s, parity } = search;
    Syndromes {
        first: moved(row, columns, s.syndromes.first, &effect.first, k + 1),
        second: moved(
            row,
            columns,
            s.syndromes.second,
            &effect.second,
            parity.second_column(k),
        ),
    }
}

// The same where no position was tried: for one column each a table would cost more.
pub(crate) fn syndromes_at(search: Search, columns: &Matrix, k: usize) -> Syndromes
    requires { Columns search.row.q search.row.n columns.now × (k ≤ 48) }
    ensures { After search k result }
{
    let Search { row, s, parity } = search;
    let factors = factors_of(row, parity, s.lack);
    Syndromes {
        first: plus_column(row, columns, s.syndromes.first, factors.first, k + 1),
        second: plus_column(
            row,
            columns,
            s.syndromes.second,
            factors.second,
            parity.second_column(k),
        ),
    }
}
