// The component words of a pair of messages (01: How a word is made, 1 to 3), in one array.
#![tactic(auto)]

mod component;
mod sums;

ghost use Rattle.std.specs.Prelude.{◌≡◌};
ghost use Rattle.components.specs.Components.{components_of};

use component::interleaved;
use profiles::row_of;
use symbols::Body;

// 01: x of a pair of user words: 0, then the symbols of their halves in turn; zeros after them, and zeros alone where the number
// is no profile's or a message has not its length. The symbols of the messages need not be levels.
pub fn components(profile: usize, first: &[u8], second: &[u8]) -> Body
    ensures { result ≡ components_of profile first.now second.now }
{
    let Some(row) = row_of(profile) else {
        return [0; 97];
    };
    if first.len() != row.message || second.len() != row.message {
        return [0; 97];
    }
    interleaved(row, first, second)
}
