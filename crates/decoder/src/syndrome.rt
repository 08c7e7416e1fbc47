// Decoding by the syndromes (02, T-09): no position is tried, and none is counted.
ghost use Rattle.decoder.specs.SyndromeDecode.{SyndromeDecodeAllows};

use crate::method::Locating;
use crate::word::{Decoded, decode_by};
use refusals::Refusal;

// 01: Read, as `decode` answers it, refusals included, but for the count: the position of a changed symbol is worked out from the
// syndromes, and not looked for.
pub fn syndrome_decode(
    edition: usize,
    profile: usize,
    word: &[u8],
    first: &mut [u8],
    second: &mut [u8],
) -> Result<Decoded, Refusal>
    ensures { SyndromeDecodeAllows edition profile word.now result
        first.old first.new second.old second.new }
{
    decode_by::<Locating>(edition, profile, word, first, second).answer
}
