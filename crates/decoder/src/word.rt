// Decoding of a received word, by its sums.
ghost use Rattle.std.specs.Prelude.{◌≡◌, ◌≢◌, eqb, pos, length, Ok};
ghost use Rattle.code_theory.specs.Operations.{answered, decode_answer};
ghost use Rattle.decoding_theory.specs.Decoded.{decoded_body, decoded_unbalanced, decoded};
ghost use Rattle.decoding_theory.specs.TriedPositions.{tried_unbalanced, tried_of};
ghost use Rattle.profiles.specs.Edition.{edition_is};
ghost use Rattle.profiles.specs.Row.{Valid, parameters, RowOf};
ghost use Rattle.symbols.specs.Columns.{Columns};
ghost use Rattle.decoder.specs.Received.{BodyArray};
ghost use Rattle.decoder.specs.Totals.{WholeWord, sums_of, Components, Totalled};
ghost use Rattle.decoder.specs.Search.{parameters_of, sums_in, parity_of, After};
ghost use Rattle.decoder.specs.Method.{answer_by};
ghost use Rattle.decoder.specs.Locate.{FitsFirst};
ghost use Rattle.decoder.specs.Outputs.{Outputs};
ghost use Rattle.decoder.specs.Decode.{ReadAs, Answers, DecodeAllows};
ghost use Rattle.decoder.specs.Steps.{Admits, Judged, wrong_parity, BalancedAnswers};

use crate::differenced::correct_components;
use crate::erased::{decode_one, decode_two};
use crate::message::write_pair;
use crate::method::{Method, Trying};
use crate::parity::Parity;
use crate::search::Search;
use crate::totals::{Totals, sums_of};
use profiles::{Erasures, Row, edition_of, row_in, screen};
use refusals::Refusal;
use symbols::{Body, Matrix, Syndromes, columns};
use syndromes::{Correction, corrected, judge_balanced};

// What is said of an erased symbol that was filled: its position, from 1, and the symbol sent there.
#[derive(Clone, Copy, PartialEq, Eq, Debug)]
pub struct Change {
    pub position: usize,
    pub symbol: u8,
}

// What is said of one or two, in rising order.
#[derive(Clone, Copy, PartialEq, Eq, Debug)]
pub enum Changes {
    One(Change),
    Two(Change, Change),
}

// What a received word is read as; the outputs hold its messages.
#[derive(Clone, Copy, PartialEq, Eq, Debug)]
pub enum Decoded {
    Clean,
    Corrected(Correction),
    // 02: the word has marks.
    Filled(Changes),
}

// What `decode` answers: what the word is read as, or why it is not; 02: and how many positions were tried.
#[derive(Clone, Copy, PartialEq, Eq, Debug)]
pub struct Decoding {
    pub answer: Result<Decoded, Refusal>,
    pub tried: usize,
}

// A balanced body: clean, or one check symbol is wrong.
fn judge(row: Row, s: Totals) -> Result<Decoded, Refusal>
    requires { Valid row × Totalled row s }
    ensures { Judged (parameters row) (sums_of row s) result }
{
    let judged = judge_balanced(
        row.q,
        row.n,
        row.balanced as u8,
        s.syndromes.first,
        s.syndromes.second,
        s.asked,
        s.arrived,
    )?;
    match judged {
        None => Ok(Decoded::Clean),
        Some(c) => Ok(Decoded::Corrected(c)),
    }
}

// The parity of the positions whose check symbol alone disagrees.
fn wrong_parity(s: Totals) -> Option<Parity>
    ensures { result ≡ wrong_parity (eqb s.asked.alpha s.arrived.alpha) (eqb s.asked.beta s.arrived.beta) }
{
    match (
        s.asked.alpha == s.arrived.alpha,
        s.asked.beta == s.arrived.beta,
    ) {
        (false, true) => Some(Parity::Odd),
        (true, false) => Some(Parity::Even),
        _ => None,
    }
}

// The symbol at index k of the parity corrected, where that is the first that fits, and the syndromes are then those given. The components
// of the word are in x.
#[inline]
fn correct(
    search: Search,
    after: Syndromes,
    word: &[u8],
    k: usize,
    x: &mut Body,
    first: &mut [u8],
    second: &mut [u8],
) -> Decoded
    requires { FitsFirst search word.now k × After search k after × Components search.row word.now x.old
        × Outputs search.row first.old second.old }
    ensures { ReadAs (decoded_body (parameters_of search) (sums_in search) (parity_of search) word.now) (Ok result)
        first.old first.new second.old second.new }
{
    let i = search.parity.index(k);
    let y = search.balancing_symbol(word[i]);
    correct_components(search.row, word, i, y, x);
    write_pair(search.row, after, x, first, second);
    Decoded::Corrected(corrected(i + 1, word[i], y))
}

// An unbalanced body, whose components are in x: one of its symbols changed where exactly one check symbol disagrees.
fn decode_unbalanced<M: Method>(
    profile: usize,
    row: Row,
    columns: &Matrix,
    s: Totals,
    word: &[u8],
    x: &mut Body,
    first: &mut [u8],
    second: &mut [u8],
) -> Decoding
    requires { WholeWord row word.now × Columns row.q row.n columns.now × Totalled row s × Components row word.now x.old
        × Outputs row first.old second.old × (s.excess ≢ pos 0)
        × RowOf (edition_is row.edition) profile row }
    ensures { Answers (answered (decoded_unbalanced (parameters row) (sums_of row s) word.now)
        (M.count (tried_unbalanced (parameters row) (sums_of row s) word.now))) result
        first.old first.new second.old second.new }
{
    let Some(parity) = wrong_parity(s) else {
        let answer = Err(Refusal::Unreadable);
        return Decoding { answer, tried: 0 };
    };
    let search = Search { row, s, parity };
    let changed = M::changed_symbol(search, profile, columns, word);
    let answer = match changed.found {
        Some((k, after)) => Ok(correct(search, after, word, k, x, first, second)),
        None => Err(Refusal::Unreadable),
    };
    Decoding {
        answer,
        tried: changed.tried,
    }
}

// What follows the balance test of a balanced word, whose components are in x.
#[inline]
fn decode_balanced(
    row: Row,
    s: Totals,
    x: &mut Body,
    first: &mut [u8],
    second: &mut [u8],
) -> Result<Decoded, Refusal>
    requires { BodyArray row x.old × Totalled row s × Outputs row first.old second.old }
    ensures { BalancedAnswers row s x.old result
        first.old first.new second.old second.new }
{
    let found = judge(row, s)?;
    write_pair(row, s.syndromes, x, first, second);
    Ok(found)
}

// A word of levels that numbers 1 to 3 let through, by its sums. The columns are built once. A call, so that the room on the stack for its
// tables is not taken where a symbol is erased too.
#[inline(never)]
fn decode_word<M: Method>(
    profile: usize,
    row: Row,
    word: &[u8],
    first: &mut [u8],
    second: &mut [u8],
) -> Decoding
    requires { WholeWord row word.now × Outputs row first.old second.old × RowOf (edition_is row.edition) profile row }
    ensures { Answers (answered (decoded (parameters row) word.now) (M.count (tried_of (parameters row) word.now))) result
        first.old first.new second.old second.new }
{
    let matrix = columns(row.q, row.n);
    let mut x = [0u8; 97];
    let s = sums_of(row, &matrix, word, &mut x);
    if s.excess != 0 {
        return decode_unbalanced::<M>(profile, row, &matrix, s, word, &mut x, first, second);
    }
    Decoding {
        answer: decode_balanced(row, s, &mut x, first, second),
        tried: 0,
    }
}

// The row of the profile of that number, in the edition of that number, and the erased symbols of the word; or what refuses the call, where
// the outputs have so many symbols.
#[inline(always)]
fn admit(
    edition: usize,
    profile: usize,
    word: &[u8],
    first: usize,
    second: usize,
) -> Result<(Row, Erasures), Refusal>
    ensures { Admits edition profile word.now first second result }
{
    let edition = edition_of(edition).ok_or(Refusal::Edition)?;
    let row = row_in(edition, profile).ok_or(Refusal::Profile)?;
    let erasures = screen(row, word, first, second)?;
    Ok((row, erasures))
}

// What is read of a word, in the edition of that number, with the symbol that changed found by a method.
pub(crate) fn decode_by<M: Method>(
    edition: usize,
    profile: usize,
    word: &[u8],
    first: &mut [u8],
    second: &mut [u8],
) -> Decoding
    ensures { Answers (answer_by M.count
        (decode_answer edition profile word.now (length first.old) (length second.old))) result
        first.old first.new second.old second.new }
{
    let (row, erasures) = match admit(edition, profile, word, first.len(), second.len()) {
        Ok(admitted) => admitted,
        Err(refusal) => {
            let answer = Err(refusal);
            return Decoding { answer, tried: 0 };
        }
    };
    let answer = match erasures {
        Erasures::Whole => return decode_word::<M>(profile, row, word, first, second),
        Erasures::One(i) => decode_one(row, word, i, first, second),
        Erasures::Two(i, j) => decode_two(row, word, i, j, first, second),
    };
    Decoding { answer, tried: 0 }
}

// 01: Read, in the edition of that number (02). Refused 12 (02): the edition is neither 13 nor 18; 1: no such profile; 2: a length is
// wrong; 3: a symbol is neither a level nor an erasure; 11 (02): more than two symbols are erased; 4: the word is read as nothing. What is
// refused changes no output.
pub fn decode(
    edition: usize,
    profile: usize,
    word: &[u8],
    first: &mut [u8],
    second: &mut [u8],
) -> Decoding
    ensures { DecodeAllows edition profile word.now result
        first.old first.new second.old second.new }
{
    decode_by::<Trying>(edition, profile, word, first, second)
}
