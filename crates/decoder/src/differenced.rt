// The components of a received word (01: its halves), in an array: the differences of its body, each at the index of the later of two
// symbols. In the edition of 2018 (02, T-03) they are taken backward, and so have the other sign.
ghost use Rattle.std.specs.Prelude.{◌≡◌, ◌<◌, set};
ghost use Rattle.profiles.specs.Row.{parameters};
ghost use Rattle.decoder.specs.Received.{BodyArray};
ghost use Rattle.decoder.specs.Direction.{is_backward};
ghost use Rattle.decoder.specs.Totals.{WholeWord, Components};

use differences::{correct_differences, difference_body};
use profiles::{Edition, Row};
use symbols::Body;

// Whether the differences are taken backward: the earlier symbol less the later.
pub(crate) fn is_backward(row: Row) -> bool
    ensures { result ≡ is_backward (parameters row) }
{
    row.edition == Edition::Of2018
}

// The components of a word, into x, an array of levels.
pub(crate) fn take_components(row: Row, word: &[u8], x: &mut Body)
    requires { WholeWord row word.now × BodyArray row x.old }
    ensures { Components row word.now x.new }
{
    difference_body(is_backward(row), row.q, row.balanced, word, x);
}

// The components in x of a word, once the symbol at index i is y.
pub(crate) fn correct_components(row: Row, word: &[u8], i: usize, y: u8, x: &mut Body)
    requires { WholeWord row word.now × Components row word.now x.old × (y < row.q) }
    ensures { Components row (set word.now i y) x.new }
{
    correct_differences(is_backward(row), row.q, row.balanced, word, i, y, x);
}
