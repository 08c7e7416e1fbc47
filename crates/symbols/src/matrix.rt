// The columns of the check matrix (01: column i holds the digits of i in base q), counted up.
ghost use Rattle.std.specs.Prelude.{◌≡◌, ℕ, suc, ◌≤◌};
ghost use Rattle.modular_theory.specs.Digits.{digits};
ghost use Rattle.symbols.specs.Columns.{AllBelow, positions, columns_of};

// A column for each position from 1 to 48.
pub type Matrix = [[u8; 3]; 48];

// The three digits in base q of the number after that with the digits d, the lowest first. A way out for each carry is quicker than a
// test of each digit.
fn next(q: u8, d: [u8; 3]) -> [u8; 3]
    requires { AllBelow q d }
    ensures { (i : ℕ) → d ≡ digits q 3 i → result ≡ digits q 3 (suc i) }
{
    let [first, second, third] = d;
    if first + 1 < q {
        return [first + 1, second, third];
    }
    if second + 1 < q {
        return [0, second + 1, third];
    }
    if third + 1 < q {
        return [0, 0, third + 1];
    }
    [0, 0, 0]
}

// How many positions have a column.
fn positions(q: u8, n: usize) -> usize
    ensures { (result ≡ positions q n) × (result ≤ 48) }
{
    if q == 0 { 0 } else { n.min(48) }
}

// Three digits in base q of each position from 1 to n, the lowest first: an array of digit arrays. The rows after them are zeros. There is
// one way out, so that the compiler builds the table where it is used.
pub fn columns(q: u8, n: usize) -> Matrix
    ensures { result ≡ columns_of q n }
{
    let mut table = [[0; 3]; 48];
    let mut digits = [0; 3];
    for i in 0..positions(q, n) {
        let column = next(q, digits);
        table[i] = column;
        digits = column;
    }
    table
}
