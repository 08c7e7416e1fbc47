// What is refused of a record, in 01's order.
ghost use Rattle.std.specs.Prelude.{◌≡◌};
ghost use Rattle.code_theory.specs.Refusal.{first_refusal};
ghost use Rattle.queue_theory.specs.Operations.{record_tests};
ghost use Rattle.queue.specs.Answer.{number_of};

use profiles::{is_received, row_of};
use refusals::Refusal;

// What enqueue answers for a record, before it looks for room.
pub(crate) fn admit(boxno: usize, profile: usize, word: &[u8]) -> Result<(), Refusal>
    ensures { number_of result ≡ first_refusal (record_tests boxno profile word.now) }
{
    if !((1 <= boxno) & (boxno <= 40)) {
        return Err(Refusal::BoxNumber);
    }
    let row = row_of(profile).ok_or(Refusal::Profile)?;
    if word.len() != row.codeword {
        return Err(Refusal::Length);
    }
    if !is_received(word, row.q) {
        return Err(Refusal::Symbol);
    }
    Ok(())
}
