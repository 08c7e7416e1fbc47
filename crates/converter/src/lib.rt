// Conversion (02, T-04) of a word of one edition into the word that the encoder makes in the other for the same pair, by line rule 1 (02,
// T-06: "T-04 keeps to version 1"). A word is read as decoding reads it, and passed on only where that finds it clean.
#![tactic(auto)]

ghost use Rattle.std.specs.Prelude.{◌≡◌, length};
ghost use Rattle.refusals.specs.Number.{answer_number};
ghost use Rattle.decoder.specs.Decode.{decoded_report};
ghost use Rattle.converter.specs.Conversion.{other_edition};
ghost use Rattle.converter.specs.Answer.{ConvertAllows};
ghost use Rattle.converter.specs.Steps.{doubt, Room};

use decoder::{Decoded, Decoding, decode};
use encoder::encode;
use profiles::{edition_of, row_in};
use refusals::Refusal;

// The edition that a word of this one is converted to.
fn other_edition(edition: usize) -> usize
    ensures { result ≡ other_edition edition }
{
    if edition == 18 { 13 } else { 18 }
}

// What keeps a word from being converted, by what it was read as; nothing where it is clean.
fn doubt_of(read: Decoding) -> Result<(), Refusal>
    ensures { answer_number result ≡ doubt (decoded_report read) }
{
    match read.answer? {
        Decoded::Clean => Ok(()),
        Decoded::Corrected(_) => Err(Refusal::NotClean),
        Decoded::Filled(_) => Err(Refusal::NotClean),
    }
}

// The word, read into two messages of k symbols each and written in the other edition.
fn rewrite(
    edition: usize,
    profile: usize,
    word: &[u8],
    first: &mut [u8],
    second: &mut [u8],
    out: &mut [u8],
) -> Result<(), Refusal>
    requires { Room edition profile (length first.old) (length second.old) (length out.old) }
    ensures { ConvertAllows edition profile word.now result out.old out.new }
{
    let read = decode(edition, profile, word, first, second);
    doubt_of(read)?;
    encode(other_edition(edition), profile, 1, first, second, out)
}

// 02, T-04: a word of the edition of that number into the word of the other edition. Refused 12: the edition is neither 13 nor 18; 1: no
// such profile; 2: the word or the output is not N long; 3, 11 and 4 as decoding refuses; 13: the word is read, but as corrected or filled.
// A refusal leaves the output as it was.
pub fn convert(edition: usize, profile: usize, word: &[u8], out: &mut [u8]) -> Result<(), Refusal>
    ensures { ConvertAllows edition profile word.now result out.old out.new }
{
    let known = edition_of(edition).ok_or(Refusal::Edition)?;
    let row = row_in(known, profile).ok_or(Refusal::Profile)?;
    if out.len() != row.codeword {
        return Err(Refusal::Length);
    }
    // k, which is at most 45
    let k = row.message;
    let mut first = [0u8; 45];
    let mut second = [0u8; 45];
    rewrite(
        edition,
        profile,
        word,
        &mut first[..k],
        &mut second[..k],
        out,
    )
}
