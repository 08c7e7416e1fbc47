// The syndromes (01: check row sums) of both components of an interleaved word.
ghost use Rattle.std.specs.Prelude.{◌≡◌, true, false, [], ◌∷◌, min};
ghost use Rattle.modular.specs.Remainder.{residue};
ghost use Rattle.symbols.specs.Syndromes.{rows, Light, Added, part, row_sums};

use crate::matrix::Matrix;
use crate::weight::Body;
use modular::remainder;

// The row sums of one component: three digit rows, and the row of ones.
#[derive(Clone, Copy, PartialEq, Eq, Debug)]
pub struct Syndrome {
    pub low: u8,
    pub mid: u8,
    pub high: u8,
    pub ones: u8,
}

impl Syndrome {
    // That of a component of the code (01: all check rows are 0).
    pub const ZERO: Syndrome = Syndrome {
        low: 0,
        mid: 0,
        high: 0,
        ones: 0,
    };
}

#[derive(Clone, Copy, PartialEq, Eq, Debug)]
pub struct Syndromes {
    pub first: Syndrome,
    pub second: Syndrome,
}

// Row sums not yet reduced mod q.
#[derive(Clone, Copy)]
pub(crate) struct Unreduced {
    pub(crate) low: u32,
    pub(crate) mid: u32,
    pub(crate) high: u32,
    pub(crate) ones: u32,
}

impl Unreduced {
    const ZERO: Unreduced = Unreduced {
        low: 0,
        mid: 0,
        high: 0,
        ones: 0,
    };
}

// A symbol x in a column more.
fn added(s: Unreduced, column: [u8; 3], x: u8) -> Unreduced
    requires { Light s }
    ensures { Added s column x result }
{
    let y = u32::from(x);
    Unreduced {
        low: s.low + u32::from(column[0]) * y,
        mid: s.mid + u32::from(column[1]) * y,
        high: s.high + u32::from(column[2]) * y,
        ones: s.ones + y,
    }
}

// The sums mod q.
fn reduced(q: u8, s: Unreduced) -> Syndrome
    ensures { rows result ≡ residue q s.low ∷ residue q s.mid ∷ residue q s.high ∷ residue q s.ones ∷ [] }
{
    Syndrome {
        low: remainder(q, s.low as usize),
        mid: remainder(q, s.mid as usize),
        high: remainder(q, s.high as usize),
        ones: remainder(q, s.ones as usize),
    }
}

// The syndromes of the components in x: x[0] is neither's, and then their symbols follow in turn, n of
// each, or all 48.
pub fn syndromes_of(q: u8, n: usize, columns: &Matrix, x: &Body) -> Syndromes
    ensures { (rows result.first ≡ row_sums q columns.now (part true (min n 48) x.now))
        × (rows result.second ≡ row_sums q columns.now (part false (min n 48) x.now)) }
{
    let mut first = Unreduced::ZERO;
    let mut second = Unreduced::ZERO;
    for i in 0..n.min(48) {
        let column = columns[i];
        first = added(first, column, x[2 * i + 1]);
        second = added(second, column, x[2 * i + 2]);
    }
    Syndromes {
        first: reduced(q, first),
        second: reduced(q, second),
    }
}
