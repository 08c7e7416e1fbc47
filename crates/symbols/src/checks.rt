// The check symbols of a word (01: α and β), by the weights of its odd and its even positions.
ghost use Rattle.std.specs.Prelude.{◌≡◌};
ghost use Rattle.symbols.specs.Weight.{checks_of};

use crate::weight::Weight;
use modular::remainder;

// 01: α and β.
#[derive(Clone, Copy, PartialEq, Eq, Debug)]
pub struct Checks {
    pub alpha: u8,
    pub beta: u8,
}

// Those that the weights ask for, with the row's delta in α.
pub fn checks_of(q: u8, delta: u8, weight: Weight) -> Checks
    ensures { result ≡ checks_of q delta weight }
{
    Checks {
        alpha: remainder(q, usize::from(weight.odd) + usize::from(delta)),
        beta: remainder(q, usize::from(weight.even)),
    }
}
