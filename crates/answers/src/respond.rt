// What Read answers of a word, as a line.
ghost use Rattle.std.specs.Prelude.{◌≡◌, ◌+◌, ◌≤◌, length};
ghost use Rattle.code_theory.specs.Parameters.{message_length};
ghost use Rattle.code_theory.specs.Profiles as Profiles;
ghost use Rattle.code_theory.specs.Reading.{changes_of, error_of};
ghost use Rattle.decoder.specs.Decode.{changes_in, finding_of};
ghost use Rattle.decoder.specs.SyndromeDecode.{syndrome_report};
ghost use Rattle.lines_theory.specs.Line.{letter, answer_line, read_answer};
ghost use Rattle.answers.specs.Writing.{Wrote, shown_line, Small};

use crate::text::Writer;
use decoder::{Change, Changes, Decoded};
use profiles::row_of;
use refusals::Refusal;

// 02, T-03: boxlines stays with the edition of 2013.
const EDITION: usize = 13;

// The kind of a reading, its changes and its error. A clean word has zeros for its change.
fn fields(decoded: Decoded) -> (u8, Changes, i16)
    ensures kind { result.0 ≡ letter (finding_of decoded) }
    ensures changes { changes_in result.1 ≡ changes_of (finding_of decoded) }
    ensures error { result.2 ≡ error_of (finding_of decoded) }
{
    match decoded {
        Decoded::Clean => {
            let none = Change {
                position: 0,
                symbol: 0,
            };
            (b'C', Changes::One(none), 0)
        }
        Decoded::Corrected(c) => {
            let one = Change {
                position: c.position,
                symbol: c.symbol,
            };
            (b'M', Changes::One(one), c.error)
        }
        Decoded::Filled(changes) => (b'F', changes, 0),
    }
}

// What decoding answered, as a line.
fn write_decoded(
    decoded: Result<Decoded, Refusal>,
    profile: usize,
    first: &[u8],
    second: &[u8],
    line: &mut Writer,
)
    requires profile_bound { (profile ≤ 9) × (length first.now ≤ 45) × (length second.now ≤ 45) }
    requires small { Small (syndrome_report decoded) first.now second.now }
    requires room { line.old.at + 110 ≤ length line.old.out.now }
    ensures { Wrote line.old line.new
        (shown_line profile (syndrome_report decoded) first.now second.now) }
{
    match decoded {
        Ok(read) => {
            let (kind, changes, error) = fields(read);
            line.reading_line(profile, kind, changes, error, first, second);
        }
        Err(refusal) => line.refusal_line(refusal),
    }
}

// Read, into two words of the profile's length, and its answer as a line. By the syndromes (02, T-09), which is quicker: no count is
// printed.
fn respond_with(profile: usize, word: &[u8], first: &mut [u8], second: &mut [u8], line: &mut Writer)
    requires profile_bound { (profile ≤ 9) × (message_length (Profiles.profile profile) ≤ 45) }
    requires room { line.old.at + 110 ≤ length line.old.out.now }
    requires first_len { length first.old ≡ message_length (Profiles.profile profile) }
    requires second_len { length second.old ≡ message_length (Profiles.profile profile) }
    ensures { Wrote line.old line.new (answer_line profile (read_answer profile word.now)) }
{
    let decoded = decoder::syndrome_decode(EDITION, profile, word, first, second);
    write_decoded(decoded, profile, first, second, line);
}

// 01: k, and 0 for a number that is no profile's.
fn message_length(profile: usize) -> usize
    ensures { (result ≡ message_length (Profiles.profile profile)) × (result ≤ 45) }
{
    let Some(row) = row_of(profile) else {
        return 0;
    };
    row.message
}

// The same, with the words, of k symbols each.
pub(crate) fn respond(profile: usize, word: &[u8], line: &mut Writer)
    requires { (profile ≤ 9) × (line.old.at + 110 ≤ length line.old.out.now) }
    ensures { Wrote line.old line.new (answer_line profile (read_answer profile word.now)) }
{
    let k = message_length(profile);
    let mut first = [0u8; 45];
    let mut second = [0u8; 45];
    respond_with(profile, word, &mut first[..k], &mut second[..k], line);
}
