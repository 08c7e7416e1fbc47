// The differences of a word (01: differencing w mod q), forward or backward: each symbol less the one before it, or the one before it less
// the symbol (02: edition 18). They are put into an array at the indices of the symbols. Each function is total: it answers for any
// arguments, and says what.
#![tactic(auto)]

ghost use Rattle.std.specs.Prelude.{◌≡◌, min, set, ltb};
ghost use Rattle.differences.specs.Overlaid.{difference_of, differences_at, changed_by};

use modular::sub;
use symbols::{Body, available};

// What differencing gives for two neighbours a and b. All that the direction decides is decided here.
fn neighbour_difference(backward: bool, q: u8, a: u8, b: u8) -> u8
    ensures { result ≡ difference_of backward q a b }
{
    if backward { sub(q, a, b) } else { sub(q, b, a) }
}

// The differences of the first m symbols, 97 at most, into x. The first symbol has none.
pub fn difference_body(backward: bool, q: u8, m: usize, word: &[u8], x: &mut Body)
    ensures { x.new ≡ differences_at (λ j. ltb j (min m 97)) backward q word.now x.old }
{
    for i in 1..available(m, word.len()) {
        x[i] = neighbour_difference(backward, q, word[i - 1], word[i]);
    }
}

// Those that change where the symbol at index i of the first m is corrected to y, its own and the next, into x.
pub fn correct_differences(
    backward: bool,
    q: u8,
    m: usize,
    word: &[u8],
    i: usize,
    y: u8,
    x: &mut Body,
)
    ensures { x.new ≡ differences_at (changed_by i (min m 97)) backward q (set word.now i y) x.old }
{
    let end = available(m, word.len());
    if end <= i {
        return;
    }
    if 0 < i {
        x[i] = neighbour_difference(backward, q, word[i - 1], y);
    }
    let next = i + 1;
    if next < end {
        x[next] = neighbour_difference(backward, q, y, word[next]);
    }
}
