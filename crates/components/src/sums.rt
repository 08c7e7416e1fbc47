// The row sums of both components (01: check row sums), which form their check symbols, in eight bits (02, T-05: No wide multiply): only
// indices are wider. There are nine levels at most, and what is carried from symbol to symbol is below q.
ghost use Rattle.std.specs.Prelude.{◌≡◌, true, false, ◌+◌, ◌*◌, ◌%◌, ◌≤◌, ◌<◌, length};
ghost use Rattle.code_theory.specs.Component.{Below};
ghost use Rattle.symbols.specs.Syndromes.{rows, part};
ghost use Rattle.components.specs.PartialSums.{PartialSum, PartialSums};
ghost use Rattle.components.specs.Lanes.{column_lanes, symbol_lanes, four_lanes, LanesBelow, LanesAccumulated};
ghost use Rattle.components.specs.Residues.{less_once, residues};

use profiles::symbols_below;
use symbols::{Body, Syndrome, Syndromes, columns};

// A sum for each row of both components, side by side: four of the first, four of the second, and eight bytes that are not used. The
// compiler works on sixteen bytes at a time, and on eight by themselves it does not.
type Lanes = [u8; 16];

// a, with k taken off once where it is not below k.
fn less_once(k: u8, a: u8) -> u8
    ensures { result ≡ less_once k a }
{
    if a < k { a } else { a - k }
}

// A product of two symbols mod q, by three comparisons and no division: 4q, 2q and q are taken off where they can be.
fn product_residue(q: u8, product: u8) -> u8
    requires { (q ≤ 9) × (product < 8 * q) }
    ensures { result ≡ product % q }
{
    let double = 2 * q;
    less_once(q, less_once(double, less_once(2 * double, product)))
}

// A symbol more in a row: its product with the row's digit is added to what is carried.
fn accumulated(q: u8, s: u8, digit: u8, x: u8) -> u8
    requires { (q ≤ 9) × (s < q) × (digit < q) × (x < q) }
    ensures { PartialSum q (s + digit * x) result }
{
    let product = product_residue(q, digit * x);
    less_once(q, s + product)
}

// The same in every lane. In place: an array handed over by value is taken apart into its bytes at every turn.
fn accumulate_all(q: u8, s: &mut Lanes, column: &Lanes, x: &Lanes)
    requires { (q ≤ 9) × (length s.old ≡ 16) × LanesBelow q s.old × LanesBelow q column.now × LanesBelow q x.now }
    ensures { LanesAccumulated q s.old column.now x.now s.new }
{
    for j in 0..16 {
        s[j] = accumulated(q, s[j], column[j], x[j]);
    }
}

// A column (01: the digits, and 1 last), for each component.
fn column_lanes(digits: [u8; 3]) -> Lanes
    ensures { result ≡ column_lanes digits }
{
    let [a, b, c] = digits;
    [a, b, c, 1, a, b, c, 1, 0, 0, 0, 0, 0, 0, 0, 0]
}

// A symbol of each component, for each of its rows.
fn symbol_lanes(a: u8, b: u8) -> Lanes
    ensures { result ≡ symbol_lanes a b }
{
    [a, a, a, a, b, b, b, b, 0, 0, 0, 0, 0, 0, 0, 0]
}

// The sums of four lanes, from one on.
fn syndrome_from(s: Lanes, k: usize) -> Syndrome
    requires { k ≤ 12 }
    ensures { rows result ≡ four_lanes s k }
{
    Syndrome {
        low: s[k],
        mid: s[k + 1],
        high: s[k + 2],
        ones: s[k + 3],
    }
}

// The sums of the n symbols of each component in x: x[0] is neither's, and then they follow in turn. The columns are built once.
pub(crate) fn component_sums(q: u8, n: usize, x: &Body) -> Syndromes
    requires { (2 ≤ q) × (q ≤ 9) × (n ≤ 48) × Below q x.now }
    ensures { PartialSums q (part true n x.now) (rows result.first)
        × PartialSums q (part false n x.now) (rows result.second) }
{
    let matrix = columns(q, n);
    let mut s = [0; 16];
    for i in 0..n {
        let column = column_lanes(matrix[i]);
        let pair = symbol_lanes(x[2 * i + 1], x[2 * i + 2]);
        accumulate_all(q, &mut s, &column, &pair);
    }
    Syndromes {
        first: syndrome_from(s, 0),
        second: syndrome_from(s, 4),
    }
}

// The symbols mod q. Levels are their own remainders, and then nothing is divided.
pub(crate) fn residues(q: u8, mut x: Body) -> Body
    requires { 1 ≤ q }
    ensures { result ≡ residues q x }
{
    if symbols_below(&x, q) {
        return x;
    }
    for symbol in &mut x {
        *symbol %= q;
    }
    x
}
