// A multiple added to a syndrome, row by row.
ghost use Rattle.std.specs.Prelude.{◌≡◌, ◌+◌, ◌*◌};
ghost use Rattle.modular.specs.Remainder.{residue};
ghost use Rattle.syndromes.specs.Plus.{syndrome_plus};

use modular::remainder;
use symbols::Syndrome;

// A check symbol or a row of a syndrome, s, with y times e added.
pub fn plus_multiple(q: u8, y: u8, e: u8, s: u8) -> u8
    ensures { result ≡ residue q (s + y * e) }
{
    remainder(q, usize::from(s) + usize::from(y) * usize::from(e))
}

// A syndrome s with y times e added.
pub fn syndrome_plus(q: u8, y: u8, e: Syndrome, s: Syndrome) -> Syndrome
    ensures { result ≡ syndrome_plus q y e s }
{
    Syndrome {
        low: plus_multiple(q, y, e.low, s.low),
        mid: plus_multiple(q, y, e.mid, s.mid),
        high: plus_multiple(q, y, e.high, s.high),
        ones: plus_multiple(q, y, e.ones, s.ones),
    }
}
