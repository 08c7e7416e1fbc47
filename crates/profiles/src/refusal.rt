// By which of 01's numbers 2 and 3, and 02's 14 and 11, a call in a profile is refused: the line rule, the lengths, the symbols, then the
// erasures. The lengths are one test, as in the definitions. Number 1 is the lookup's.
ghost use Rattle.std.specs.Prelude.{◌≡◌};
ghost use Rattle.code_theory.specs.Erasures.{erased_indices};
ghost use Rattle.refusals.specs.Number.{answer_number};
ghost use Rattle.profiles.specs.Refusal.{encode_number, decode_number, screened, screening};

use crate::erased::{Erasures, screen_erasures};
use crate::levels::{levels_or_erasures, symbols_below};
use crate::row::Row;
use refusals::Refusal;

// Two messages, by a line rule (02, T-06), with an output of `len` symbols: whether they can be encoded.
pub fn encode_refusal(
    row: Row,
    rule: usize,
    first: &[u8],
    second: &[u8],
    len: usize,
) -> Result<(), Refusal>
    ensures { answer_number result ≡ encode_number row rule first.now second.now len }
{
    if !((rule == 1) | (rule == 2)) {
        return Err(Refusal::LineRule);
    }
    if !((first.len() == row.message) & (second.len() == row.message) & (len == row.codeword)) {
        return Err(Refusal::Length);
    }
    if !symbols_below(first, row.q) {
        return Err(Refusal::Symbol);
    }
    if !symbols_below(second, row.q) {
        return Err(Refusal::Symbol);
    }
    Ok(())
}

// A received word, with outputs of k and l symbols: its erased symbols. A word of levels is passed over only once.
pub fn screen(row: Row, word: &[u8], k: usize, l: usize) -> Result<Erasures, Refusal>
    ensures { screened result ≡ screening (decode_number row word.now k l) (erased_indices 0 word.now) }
{
    if !((word.len() == row.codeword) & (k == row.message) & (l == row.message)) {
        return Err(Refusal::Length);
    }
    if symbols_below(word, row.q) {
        return Ok(Erasures::Whole);
    }
    if !levels_or_erasures(word, row.q) {
        return Err(Refusal::Symbol);
    }
    screen_erasures(word)
}
