// Decoding of a word with one or two erased symbols (02: marks): the sums over the word with 0 there, what each of them adds, and the
// pair of the word once it is filled.
ghost use Rattle.std.specs.Prelude.{[], ◌∷◌, ◌<◌};
ghost use Rattle.decoding_theory.specs.Filled.{decoded_erased};
ghost use Rattle.profiles.specs.Row.{Valid, parameters};
ghost use Rattle.symbols.specs.Columns.{Columns};
ghost use Rattle.fillings.specs.Filling.{four_row_sums};
ghost use Rattle.decoder.specs.Received.{BodyArray};
ghost use Rattle.decoder.specs.Totals.{WholeWord, sums_of, Totalled};
ghost use Rattle.decoder.specs.Outputs.{Outputs};
ghost use Rattle.decoder.specs.Decode.{ReadAs};
ghost use Rattle.decoder.specs.Erased.{ErasedWord, SameSums, OneMore, ErasedHere, FilledBy, completed};

use crate::column::moved;
use crate::differenced::correct_components;
use crate::effect::effect_of;
use crate::message::write_pair;
use crate::parity::Parity;
use crate::totals::{Totals, sums_of};
use crate::word::{Change, Changes, Decoded};
use fillings::{Erased, Filling, Sums, cleared, fill_one, fill_two};
use profiles::Row;
use refusals::Refusal;
use symbols::{Body, Matrix, Syndrome, Syndromes, columns};

// What one more of the symbol at index i of the body adds to the syndromes: a column to one, and a column taken from the other.
fn one_more(row: Row, columns: &Matrix, i: usize) -> Syndromes
    requires { Valid row × Columns row.q row.n columns.now × (i < row.balanced) }
    ensures { OneMore row i result }
{
    let zero = Syndrome::ZERO;
    let parity = Parity::of(i);
    let k = i / 2;
    let effect = effect_of(row, parity, 1);
    Syndromes {
        first: moved(row, columns, zero, &effect.first, k + 1),
        second: moved(row, columns, zero, &effect.second, parity.second_column(k)),
    }
}

// The erased symbol at index i of a word.
fn erased_at(row: Row, columns: &Matrix, i: usize) -> Erased
    requires { Valid row × Columns row.q row.n columns.now × (i < row.codeword) }
    ensures { ErasedHere row i result }
{
    if i == row.balanced {
        return Erased::Alpha;
    }
    if row.balanced < i {
        return Erased::Beta;
    }
    let adds = one_more(row, columns, i);
    match Parity::of(i) {
        Parity::Odd => Erased::Odd(adds),
        Parity::Even => Erased::Even(adds),
    }
}

// The sums that filling starts from.
fn sums_in(row: Row, s: Totals) -> Sums
    requires { Totalled row s }
    ensures { SameSums row (four_row_sums result) (sums_of row s) }
{
    Sums {
        excess: s.excess as i16,
        asked: s.asked,
        arrived: s.arrived,
        syndromes: s.syndromes,
    }
}

// What the symbol at index i of a word, which has 0 there, is filled with. The word's components are put into x.
fn find_one(row: Row, word: &[u8], i: usize, x: &mut Body) -> Option<Filling<1>>
    requires { WholeWord row word.now × BodyArray row x.old × (i < row.codeword) }
    ensures { FilledBy row word.now (i ∷ []) x.new result }
{
    let matrix = columns(row.q, row.n);
    let s = sums_of(row, &matrix, word, x);
    let erased = erased_at(row, &matrix, i);
    fill_one(row.q, row.n, erased, sums_in(row, s))
}

// The same of the symbols at the indices i and j.
fn find_two(row: Row, word: &[u8], i: usize, j: usize, x: &mut Body) -> Option<Filling<2>>
    requires { WholeWord row word.now × BodyArray row x.old × (i < row.codeword) × (j < row.codeword) }
    ensures { FilledBy row word.now (i ∷ j ∷ []) x.new result }
{
    let matrix = columns(row.q, row.n);
    let s = sums_of(row, &matrix, word, x);
    let erased = erased_at(row, &matrix, i);
    let other = erased_at(row, &matrix, j);
    fill_two(row.q, row.n, erased, other, sums_in(row, s))
}

// The pair of a word, which has 0 at index i, once that symbol is filled.
fn complete_one(
    row: Row,
    word: &[u8],
    i: usize,
    first: &mut [u8],
    second: &mut [u8],
) -> Result<Decoded, Refusal>
    requires { WholeWord row word.now × (i < row.codeword) × Outputs row first.old second.old }
    ensures { ReadAs (completed (parameters row) word.now (i ∷ [])) result
        first.old first.new second.old second.new }
{
    let mut x = [0u8; 97];
    let filling = find_one(row, word, i, &mut x).ok_or(Refusal::Unreadable)?;
    let y = filling.symbols[0];
    correct_components(row, word, i, y, &mut x);
    write_pair(row, filling.syndromes, &mut x, first, second);
    Ok(Decoded::Filled(Changes::One(Change {
        position: i + 1,
        symbol: y,
    })))
}

// The same of a word that has 0 at the indices i and j. The first symbol is put into it.
fn complete_two(
    row: Row,
    word: &mut [u8],
    i: usize,
    j: usize,
    first: &mut [u8],
    second: &mut [u8],
) -> Result<Decoded, Refusal>
    requires { WholeWord row word.old × (i < row.codeword) × (j < row.codeword) × Outputs row first.old second.old }
    ensures { ReadAs (completed (parameters row) word.old (i ∷ j ∷ [])) result
        first.old first.new second.old second.new }
{
    let mut x = [0u8; 97];
    let filling = find_two(row, word, i, j, &mut x).ok_or(Refusal::Unreadable)?;
    let y = filling.symbols[0];
    let z = filling.symbols[1];
    correct_components(row, word, i, y, &mut x);
    word[i] = y;
    correct_components(row, word, j, z, &mut x);
    write_pair(row, filling.syndromes, &mut x, first, second);
    Ok(Decoded::Filled(Changes::Two(
        Change {
            position: i + 1,
            symbol: y,
        },
        Change {
            position: j + 1,
            symbol: z,
        },
    )))
}

// A word of which the symbol at index i is erased.
pub(crate) fn decode_one(
    row: Row,
    word: &[u8],
    i: usize,
    first: &mut [u8],
    second: &mut [u8],
) -> Result<Decoded, Refusal>
    requires { ErasedWord row word.now (i ∷ []) × Outputs row first.old second.old }
    ensures { ReadAs (decoded_erased (parameters row) word.now) result
        first.old first.new second.old second.new }
{
    let n = row.codeword;
    let known = cleared(word);
    complete_one(row, &known[..n], i, first, second)
}

// A word of which the symbols at the indices i and j are erased.
pub(crate) fn decode_two(
    row: Row,
    word: &[u8],
    i: usize,
    j: usize,
    first: &mut [u8],
    second: &mut [u8],
) -> Result<Decoded, Refusal>
    requires { ErasedWord row word.now (i ∷ j ∷ []) × Outputs row first.old second.old }
    ensures { ReadAs (decoded_erased (parameters row) word.now) result
        first.old first.new second.old second.new }
{
    let n = row.codeword;
    let mut known = cleared(word);
    complete_two(row, &mut known[..n], i, j, first, second)
}
