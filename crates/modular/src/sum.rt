// Sums mod q. To divide a sum of 16 bits by q is to multiply it by an inverse of q and to drop 16 bits: the quotient is then
// right, or one too low.
ghost use Rattle.std.specs.Prelude.{◌≡◌, ◌/◌, ◌%◌, ◌≤◌, slice_index};
ghost use Rattle.modular.specs.Remainder.{residue, residues_of, residue_of_integer, residue_of_negative};

// A sum for each symbol of an array that w fits (01: an array of 97 holds w).
pub type SumArray = [u16; 97];

// The inverse of q in 65535ths, rounded down. Those of the profiles' levels stand there for speed: they take no division.
fn inverse(q: u16) -> u16
    requires { 1 ≤ q }
    ensures { result ≡ 65535 / q }
{
    match q {
        3 => 21845,
        5 => 13107,
        7 => 9362,
        _ => 65535 / q,
    }
}

// A sum mod q by that inverse: what is left by the quotient is below twice q.
fn remainder_by(q: u16, inverse: u16, sum: u16) -> u8
    requires { (1 ≤ q) × (q ≤ 255) × (inverse ≡ 65535 / q) }
    ensures { result ≡ sum % q }
{
    let quotient = (u32::from(sum) * u32::from(inverse) / 65536) as u16;
    let left = sum - quotient * q;
    if left < q {
        left as u8
    } else {
        (left - q) as u8
    }
}

// A sum mod q, and 0 where there are no levels.
pub fn remainder(q: u8, sum: usize) -> u8
    ensures { result ≡ residue q sum }
{
    if q == 0 {
        return 0;
    }
    match u16::try_from(sum) {
        Ok(sum) => {
            let levels = u16::from(q);
            remainder_by(levels, inverse(levels), sum)
        }
        Err(_) => (sum % usize::from(q)) as u8,
    }
}

// Sums mod q, all of an array, many at a time.
pub fn remainders(q: u8, sums: &SumArray) -> [u8; 97]
    ensures { result ≡ residues_of q (λ i. slice_index sums.now i) 97 }
{
    if q == 0 {
        return [0; 97];
    }
    let levels = u16::from(q);
    let by = inverse(levels);
    let mut d = [0; 97];
    for i in 0..97 {
        d[i] = remainder_by(levels, by, sums[i]);
    }
    d
}

// An integer mod q, and 0 where there are no levels. One below 0 is counted down from -1, which has the highest remainder. `plain` has a
// function of this name, by plain subtraction: to take one for the other is the wrong turn that 01 names.
pub(crate) fn level(q: u8, z: i64) -> u8
    ensures { result ≡ residue_of_integer q z }
{
    if q == 0 {
        return 0;
    }
    match usize::try_from(z) {
        Ok(n) => remainder(q, n),
        Err(_) => q - 1 - remainder(q, (-1 - z) as usize),
    }
}

// -e mod q, and 0 where there are no levels. In 64 bits -e fits for every e.
pub fn negative(q: u8, e: i32) -> u8
    ensures { result ≡ residue_of_negative q e }
{
    level(q, -i64::from(e))
}
