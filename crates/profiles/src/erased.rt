// The erased symbols of a received word (02: marks): where they are, and whether there are too many.
ghost use Rattle.std.specs.Prelude.{◌≡◌};
ghost use Rattle.code_theory.specs.Erasures.{erased_indices};
ghost use Rattle.profiles.specs.Refusal.{erasure_number, screened, screening, NextErased};

use refusals::Refusal;

// 02: the mark.
pub const ERASURE: u8 = 255;

// The erased symbols of a word that can be decoded.
#[derive(Clone, Copy, PartialEq, Eq, Debug)]
pub enum Erasures {
    // It has levels only.
    Whole,
    // One symbol is erased, at this index.
    One(usize),
    // Two are, at these indices, in rising order.
    Two(usize, usize),
}

// The index of the first erased symbol from an index on, if there is one.
fn next_erased(word: &[u8], from: usize) -> Option<usize>
    ensures { NextErased word.now from result }
{
    for i in from..word.len() {
        if word[i] == ERASURE {
            return Some(i);
        }
    }
    None
}

// A word of levels or erasures, by those that are erased: more than two are refused.
pub(crate) fn screen_erasures(word: &[u8]) -> Result<Erasures, Refusal>
    ensures { screened result ≡ screening (erasure_number 2 word.now) (erased_indices 0 word.now) }
{
    let Some(first) = next_erased(word, 0) else {
        return Ok(Erasures::Whole);
    };
    let Some(second) = next_erased(word, first + 1) else {
        return Ok(Erasures::One(first));
    };
    let Some(_) = next_erased(word, second + 1) else {
        return Ok(Erasures::Two(first, second));
    };
    Err(Refusal::Erasures)
}
