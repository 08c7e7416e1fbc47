// The steps: the messages at their positions, the check symbols that they ask for, and both together.
ghost use Rattle.std.specs.Prelude.{◌≡◌, ◌≤◌, ◌<◌, length};
ghost use Rattle.modular_theory.specs.Residue.{minus};
ghost use Rattle.code_theory.specs.Parameters.{message_length};
ghost use Rattle.profiles.specs.Row.{Valid, parameters};
ghost use Rattle.symbols.specs.Syndromes.{rows};
ghost use Rattle.components.specs.Checks.{check_symbols, set_at, Solves, Placed, Filled};
ghost use Rattle.components.specs.Components.{padded};

use crate::sums::{component_sums, residues};
use profiles::Row;
use symbols::{Body, Syndrome};

// The check symbols of a component: of position 2, and of 1, q and q².
#[derive(Clone, Copy)]
pub(crate) struct CheckSymbols {
    pub(crate) two: u8,
    pub(crate) one: u8,
    pub(crate) mid: u8,
    pub(crate) high: u8,
}

// Both components' symbols at a position.
fn set_pair(x: &mut Body, position: usize, a: u8, b: u8)
    requires { (1 ≤ position) × (position ≤ 48) }
    ensures { x.new ≡ set_at x.old position a b }
{
    x[2 * position - 1] = a;
    x[2 * position] = b;
}

// Both messages at their positions, and 0 at the check positions: 2, and the powers of q, of which `power` is the next.
fn placed(row: Row, first: &[u8], second: &[u8]) -> Body
    requires { Valid row × (length first.now ≡ message_length (parameters row))
        × (length second.now ≡ message_length (parameters row)) }
    ensures { Placed row first.now second.now result }
{
    let q = usize::from(row.q);
    let mut x = [0; 97];
    let mut power = 1;
    let mut next = 0;
    for position in 1..=row.n {
        if position == power {
            power *= q;
        } else if position != 2 {
            set_pair(&mut x, position, first[next], second[next]);
            next += 1;
        }
    }
    x
}

// a - x mod q, of two symbols. Nothing on the way passes 255 or is below 0; in `modular::sub`, which takes any bytes, it may.
fn difference(q: u8, a: u8, x: u8) -> u8
    requires { (a < q) × (x < q) }
    ensures { result ≡ minus q a x }
{
    if a < x { a + (q - x) } else { a - x }
}

// The check symbols that make up for these sums.
fn check_symbols(q: u8, s: Syndrome) -> CheckSymbols
    requires { (s.low < q) × (s.mid < q) × (s.high < q) × (s.ones < q) }
    ensures { Solves q (rows s) (check_symbols result) }
{
    let two = difference(
        q,
        difference(q, difference(q, s.ones, s.low), s.mid),
        s.high,
    );
    CheckSymbols {
        two,
        one: difference(q, difference(q, difference(q, 0, s.low), two), two),
        mid: difference(q, 0, s.mid),
        high: difference(q, 0, s.high),
    }
}

// The array with the check symbols of both components set.
fn filled(row: Row, mut x: Body, first: CheckSymbols, second: CheckSymbols) -> Body
    requires { Valid row × (3 ≤ row.r) }
    ensures { Filled row x (check_symbols first) (check_symbols second) result }
{
    let q = usize::from(row.q);
    set_pair(&mut x, 2, first.two, second.two);
    set_pair(&mut x, 1, first.one, second.one);
    set_pair(&mut x, q, first.mid, second.mid);
    if 3 < row.r {
        set_pair(&mut x, q * q, first.high, second.high);
    }
    x
}

// The components of two messages of the right length, by a profile's row.
pub(crate) fn interleaved(row: Row, first: &[u8], second: &[u8]) -> Body
    requires { Valid row × (3 ≤ row.r) × (row.q ≤ 9) × (length first.now ≡ message_length (parameters row))
        × (length second.now ≡ message_length (parameters row)) }
    ensures { result ≡ padded (parameters row) first.now second.now }
{
    let x = placed(row, first, second);
    let mod_q = residues(row.q, x);
    let sums = component_sums(row.q, row.n, &mod_q);
    let a = check_symbols(row.q, sums.first);
    let b = check_symbols(row.q, sums.second);
    filled(row, x, a, b)
}
