// What a balanced word is: the tests.
ghost use Rattle.std.specs.Prelude.{◌≡◌, eqb};
ghost use Rattle.decoding_theory.specs.Syndromes.{near_syndromes};
ghost use Rattle.symbols.specs.Syndromes.{four_rows, rows};
ghost use Rattle.syndromes.specs.Judgement.{judgement_report, balanced_report};

use crate::correction::{Correction, corrected};
use crate::syndrome::near;
use refusals::Refusal;
use symbols::{Checks, Syndrome};

// That of a word whose body has m symbols: clean, or one check symbol is corrected. `asked` are the check symbols that the body asks for,
// `arrived` those received.
pub fn judge_balanced(
    q: u8,
    n: usize,
    m: u8,
    first: Syndrome,
    second: Syndrome,
    asked: Checks,
    arrived: Checks,
) -> Result<Option<Correction>, Refusal>
    ensures { judgement_report result
        ≡ balanced_report m asked arrived (near_syndromes (four_rows q n) (rows first) (rows second)) (eqb asked.alpha arrived.alpha)
        (eqb asked.beta arrived.beta) }
{
    if !near(q, n, first, second) {
        return Err(Refusal::Unreadable);
    }
    let body = usize::from(m);
    match (asked.alpha == arrived.alpha, asked.beta == arrived.beta) {
        (true, true) => Ok(None),
        (true, false) => Ok(Some(corrected(body + 2, arrived.beta, asked.beta))),
        (false, true) => Ok(Some(corrected(body + 1, arrived.alpha, asked.alpha))),
        (false, false) => Err(Refusal::Unreadable),
    }
}
