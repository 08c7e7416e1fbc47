// The answer to one line (01: The line program).
#![tactic(auto)]

mod form;
mod respond;
mod text;

ghost use Rattle.std.specs.Prelude.{◌≡◌, ◌≤◌, length};
ghost use Rattle.lines_theory.specs.Line.{line_answer};
ghost use Rattle.lines_theory.specs.Feed.{overwritten};

use crate::text::Writer;
use refusals::Refusal;

// What an answer is written into. The longest, of profile 4 with two filled places of two digits, has 108 bytes, byte 10 included.
pub type AnswerBuffer = [u8; 128];

// Writes the answer to a line, byte 10 included, and returns its length. 01: 9 for a line that is not of the form; else
// the order of Read.
pub fn answer(line: &[u8], out: &mut AnswerBuffer) -> usize
    ensures length { result ≡ length (line_answer line.now) }
    ensures fits { result ≤ 128 }
    ensures bytes { out.new ≡ overwritten (line_answer line.now) out.old }
{
    let mut word = [0u8; 99];
    let parsed = form::parse(line, &mut word);
    let mut answer = Writer {
        out: &mut out[..],
        at: 0,
    };
    match parsed {
        Some(profile) => {
            let n = line.len() - 2;
            respond::respond(profile, &word[..n], &mut answer);
        }
        None => answer.refusal_line(Refusal::Form),
    }
    answer.at
}
