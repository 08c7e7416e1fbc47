// Encoding (01: Write) of a pair of messages into the word that goes on the line. The pair's components are those of crate `components`.
#![tactic(auto)]

mod balance;
mod least_peak;
mod pair;
mod word;

ghost use Rattle.encoder.specs.Answer.{EncodeAllows};

use pair::write;
use profiles::{edition_of, encode_refusal, row_in};
use refusals::Refusal;

// 01: Write. The word of two messages, in edition 13 or 18 (02, T-03) and a profile from 1 to 4, by line rule 1 or 2 (02, T-06). The output
// then holds it, or the call is refused and the output is as it was.
pub fn encode(
    edition: usize,
    profile: usize,
    rule: usize,
    first: &[u8],
    second: &[u8],
    out: &mut [u8],
) -> Result<(), Refusal>
    ensures { EncodeAllows edition profile rule first.now second.now result out.old out.new }
{
    let known = edition_of(edition).ok_or(Refusal::Edition)?;
    let row = row_in(known, profile).ok_or(Refusal::Profile)?;
    encode_refusal(row, rule, first, second, out.len())?;
    write(row, profile, rule, first, second, out);
    Ok(())
}
