// One or two erased symbols filled: at most q tries, each of which looks at the numbers first and then at the syndromes.
ghost use Rattle.std.specs.Prelude.{◌≡◌, ◌<◌};
ghost use Rattle.decoding_theory.specs.Filled.{sums_with, fill_one, fill_two};
ghost use Rattle.symbols.specs.Syndromes.{four_rows};
ghost use Rattle.fillings.specs.Filling.{erased_of, four_row_sums, filling_of};
ghost use Rattle.fillings.specs.Steps.{one_if_near};

use crate::sums::{Erased, Numbers, Sums, numbers_with, suits, syndromes_with, wanted};
use symbols::Syndromes;
use syndromes::near;

// What N erased symbols are filled with, and the syndromes then.
#[derive(Clone, Copy, PartialEq, Eq, Debug)]
pub struct Filling<const N: usize> {
    pub symbols: [u8; N],
    pub syndromes: Syndromes,
}

// The symbol y, if the syndromes that it gives are near.
fn one_if_near(q: u8, n: usize, y: u8, s: Syndromes) -> Option<Filling<1>>
    ensures { result ≡ one_if_near q n y s }
{
    near(q, n, s.first, s.second).then_some(Filling {
        symbols: [y],
        syndromes: s,
    })
}

// One erased symbol: what is wanted there, if it makes a codeword.
pub fn fill_one(q: u8, n: usize, erased: Erased, sums: Sums) -> Option<Filling<1>>
    ensures { filling_of result ≡ fill_one (four_rows q n) (erased_of erased) (four_row_sums sums) }
{
    let numbers = Numbers::from(sums);
    let y = wanted(q, erased, numbers);
    if !suits(q, erased, y, numbers) {
        return None;
    }
    one_if_near(q, n, y, syndromes_with(q, erased, y, sums.syndromes))
}

// The second of two, once y stands at the first.
fn fill_second(
    q: u8,
    n: usize,
    first: Erased,
    second: Erased,
    y: u8,
    sums: Sums,
) -> Option<Filling<1>>
    requires { y < q }
    ensures { filling_of result ≡ fill_one (four_rows q n) (erased_of second) (sums_with (four_rows q n) (erased_of first) y (four_row_sums sums)) }
{
    let numbers = numbers_with(q, first, y, Numbers::from(sums));
    let z = wanted(q, second, numbers);
    if !suits(q, second, z, numbers) {
        return None;
    }
    let after = syndromes_with(q, first, y, sums.syndromes);
    one_if_near(q, n, z, syndromes_with(q, second, z, after))
}

// Two: the first level of the first for which the second can be filled.
pub fn fill_two(q: u8, n: usize, first: Erased, second: Erased, sums: Sums) -> Option<Filling<2>>
    ensures { filling_of result ≡ fill_two (four_rows q n) (erased_of first) (erased_of second) (four_row_sums sums) }
{
    for y in 0..q {
        if let Some(f) = fill_second(q, n, first, second, y, sums) {
            return Some(Filling {
                symbols: [y, f.symbols[0]],
                syndromes: f.syndromes,
            });
        }
    }
    None
}
