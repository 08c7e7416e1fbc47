// What is summed over a word, and what a symbol put where 0 stood does to it.
ghost use Rattle.std.specs.Prelude.{◌≡◌, ◌&&◌, ◌≤◌, ltb, pos, nat_abs, ◌+ℤ◌};
ghost use Rattle.fillings.specs.Steps.{numbers_of, NumbersWith, numbers_with, wanted_by, consistent_numbers};
ghost use Rattle.fillings.specs.Steps.{syndromes_plus, syndromes_with};

use modular::plain::less;
use symbols::{Checks, Syndromes};
use syndromes::{plus_multiple, syndrome_plus};

// What is summed over a word: what its body exceeds the balancing value by, its check symbols as the body asks for them and as received,
// and the syndromes of its components.
#[derive(Clone, Copy, PartialEq, Eq, Debug)]
pub struct Sums {
    pub excess: i16,
    pub asked: Checks,
    pub arrived: Checks,
    pub syndromes: Syndromes,
}

// An erased symbol: one of the body, at an odd or an even position, with what one more of it adds to the syndromes; or a check symbol.
#[derive(Clone, Copy, PartialEq, Eq, Debug)]
pub enum Erased {
    Odd(Syndromes),
    Even(Syndromes),
    Alpha,
    Beta,
}

// The sums that are looked at before the syndromes. The excess is wide enough for two symbols more.
#[derive(Clone, Copy)]
pub(crate) struct Numbers {
    pub(crate) excess: i32,
    pub(crate) asked: Checks,
    pub(crate) arrived: Checks,
}

impl From<Sums> for Numbers {
    fn from(sums: Sums) -> Numbers
        ensures { (result ≡ numbers_of sums) × (nat_abs result.excess ≤ 32768) }
    {
        Numbers {
            excess: i32::from(sums.excess),
            asked: sums.asked,
            arrived: sums.arrived,
        }
    }
}

// The numbers once y stands where the symbol is erased. Before it the excess is at most 16 bits and one symbol.
pub(crate) fn numbers_with(q: u8, erased: Erased, y: u8, mut numbers: Numbers) -> Numbers
    requires { nat_abs numbers.excess ≤ 33023 }
    ensures { NumbersWith q erased y numbers result }
{
    match erased {
        Erased::Odd(_) => {
            numbers.excess += i32::from(y);
            numbers.asked.alpha = plus_multiple(q, y, 1, numbers.asked.alpha);
        }
        Erased::Even(_) => {
            numbers.excess += i32::from(y);
            numbers.asked.beta = plus_multiple(q, y, 1, numbers.asked.beta);
        }
        Erased::Alpha => numbers.arrived.alpha = y,
        Erased::Beta => numbers.arrived.beta = y,
    }
    numbers
}

// The only symbol that can stand there: what takes the excess away, and q where that is no level; or the check symbol asked for.
pub(crate) fn wanted(q: u8, erased: Erased, numbers: Numbers) -> u8
    ensures { result ≡ wanted_by q erased numbers }
{
    match erased {
        Erased::Odd(_) | Erased::Even(_) => less(q, 0, numbers.excess),
        Erased::Alpha => numbers.asked.alpha,
        Erased::Beta => numbers.asked.beta,
    }
}

// Whether the body is balanced, and both check symbols are as asked.
fn consistent(numbers: Numbers) -> bool
    ensures { result ≡ consistent_numbers numbers }
{
    numbers.excess == 0 && numbers.asked == numbers.arrived
}

// Whether y is a level, and the numbers are consistent once it stands there.
pub(crate) fn suits(q: u8, erased: Erased, y: u8, numbers: Numbers) -> bool
    requires { nat_abs numbers.excess ≤ 33023 }
    ensures { result ≡ (ltb y q && consistent_numbers (numbers_with q erased y numbers)) }
{
    y < q && consistent(numbers_with(q, erased, y, numbers))
}

// Both syndromes with y times those of e added.
fn syndromes_plus(q: u8, y: u8, e: Syndromes, s: Syndromes) -> Syndromes
    ensures { result ≡ syndromes_plus q y e s }
{
    Syndromes {
        first: syndrome_plus(q, y, e.first, s.first),
        second: syndrome_plus(q, y, e.second, s.second),
    }
}

// The syndromes once y stands where the symbol is erased.
pub(crate) fn syndromes_with(q: u8, erased: Erased, y: u8, s: Syndromes) -> Syndromes
    ensures { result ≡ syndromes_with q erased y s }
{
    match erased {
        Erased::Odd(e) | Erased::Even(e) => syndromes_plus(q, y, e, s),
        Erased::Alpha | Erased::Beta => s,
    }
}
