// How a changed symbol moves a syndrome: by a multiple of a column.
ghost use Rattle.std.specs.Prelude.{◌≡◌, ◌+◌, ◌*◌, ◌%◌, ◌≤◌, ◌<◌, eqb, get_or};
ghost use Rattle.decoding_theory.specs.Syndromes.{zero_syndrome, moved};
ghost use Rattle.profiles.specs.Row.{Valid, parameters};
ghost use Rattle.symbols.specs.Columns.{Columns};
ghost use Rattle.symbols.specs.Syndromes.{rows};
ghost use Rattle.syndromes.specs.FourRows.{zero_rows};
ghost use Rattle.decoder.specs.Multiples.{Multiples};
ghost use Rattle.syndromes.specs.Rows.{FourRows, rows_of, Moved};
ghost use Rattle.decoder.specs.Rows.{moved_rows, ColumnIndex, Movable, RowsMoved};

use crate::multiples::multiple;
use modular::{add, sub};
use profiles::Row;
use symbols::{Matrix, Syndrome};
use syndromes::{is_zero, syndrome_plus};

// One row s of a syndrome with a multiple of the column's digit d added.
fn moved_row(q: u8, s: u8, multiples: &[u8; 16], d: u8) -> u8
    requires { (s < q) × (d < q) × (q ≤ 15) × Multiples q multiples.now }
    ensures { result ≡ (s + get_or multiples.now 1 0 * d) % q }
{
    add(q, s, multiple(multiples, d))
}

// The syndrome with a multiple of a column added.
fn moved_rows(q: u8, column: [u8; 3], s: Syndrome, multiples: &[u8; 16]) -> Syndrome
    requires { Movable q column (rows s) multiples.now }
    ensures { RowsMoved q (get_or multiples.now 1 0) column s result }
{
    Syndrome {
        low: moved_row(q, s.low, multiples, column[0]),
        mid: moved_row(q, s.mid, multiples, column[1]),
        high: moved_row(q, s.high, multiples, column[2]),
        ones: moved_row(q, s.ones, multiples, 1),
    }
}

// The index of column a in the matrix: there is no column 0 and none past n. The column itself would be copied whole where one digit is
// looked at.
fn column_index(n: usize, a: usize) -> Option<usize>
    ensures { ColumnIndex n a result }
{
    if a == 0 || n < a { None } else { Some(a - 1) }
}

// The syndrome with a multiple of column a added, by the multiples of each level.
pub(crate) fn moved(
    row: Row,
    columns: &Matrix,
    s: Syndrome,
    multiples: &[u8; 16],
    a: usize,
) -> Syndrome
    requires { Valid row × Columns row.q row.n columns.now × FourRows row (rows s) × Multiples row.q multiples.now }
    ensures { Moved row (get_or multiples.now 1 0) a (rows s) (rows result) }
{
    match column_index(row.n, a) {
        Some(i) => moved_rows(row.q, columns[i], s, multiples),
        None => s,
    }
}

// The same by f itself, where one column alone is asked for and a table would cost more.
pub(crate) fn plus_column(row: Row, columns: &Matrix, s: Syndrome, f: u8, a: usize) -> Syndrome
    requires { Valid row × Columns row.q row.n columns.now × FourRows row (rows s) }
    ensures { Moved row f a (rows s) (rows result) }
{
    match column_index(row.n, a) {
        Some(i) => {
            let [low, mid, high] = columns[i];
            let column = Syndrome {
                low,
                mid,
                high,
                ones: 1,
            };
            syndrome_plus(row.q, f, column, s)
        }
        None => s,
    }
}

// Whether one row s with a multiple of the digit d added is 0: the multiple is then the row's negative, which is the same for every column.
#[tactic(auto, using(crate::proofs::Multiplying::row_zero))]
fn row_to_zero(q: u8, s: u8, multiples: &[u8; 16], d: u8) -> bool
    requires { (s < q) × (d < q) × (q ≤ 15) × Multiples q multiples.now }
    ensures { result ≡ eqb ((s + get_or multiples.now 1 0 * d) % q) 0 }
{
    multiple(multiples, d) == sub(q, 0, s)
}

// Whether the syndrome with a multiple of a column added is zero: one row after the other, and first the row of ones, which is the
// same for every column.
#[tactic(auto, unfolding(syndromes::specs::FourRows::zero_rows))]
fn rows_to_zero(q: u8, column: [u8; 3], s: Syndrome, multiples: &[u8; 16]) -> bool
    requires { Movable q column (rows s) multiples.now }
    ensures { result ≡ zero_rows (moved_rows q (get_or multiples.now 1 0) column (rows s)) }
{
    row_to_zero(q, s.ones, multiples, 1)
        && row_to_zero(q, s.low, multiples, column[0])
        && row_to_zero(q, s.mid, multiples, column[1])
        && row_to_zero(q, s.high, multiples, column[2])
}

// The same of column a, by the multiples of each level.
pub(crate) fn moves_to_zero(
    row: Row,
    columns: &Matrix,
    s: Syndrome,
    multiples: &[u8; 16],
    a: usize,
) -> bool
    requires { Valid row × Columns row.q row.n columns.now × FourRows row (rows s) × Multiples row.q multiples.now }
    ensures { result ≡ zero_syndrome (parameters row) (moved (parameters row) (get_or multiples.now 1 0) a (rows_of row (rows s))) }
{
    match column_index(row.n, a) {
        Some(i) => rows_to_zero(row.q, columns[i], s, multiples),
        None => is_zero(s),
    }
}
