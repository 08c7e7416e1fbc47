// The word that goes on the line (01: How a word is made, 6): w, alpha and beta.
ghost use Rattle.std.specs.Prelude.{◌≡◌, length, take};
ghost use Rattle.code_theory.specs.Codeword.{with_checks};
ghost use Rattle.profiles.specs.Row.{Valid};

use profiles::Row;
use symbols::{checks_of, weigh};

// 01: the line word, written over all of the output: w with its check symbols.
pub(crate) fn put(row: Row, w: &[u8; 97], out: &mut [u8])
    requires { Valid row × (length w.now ≡ 97) × (length out.old ≡ row.codeword) }
    ensures { out.new ≡ with_checks row.q (take row.balanced w.now) }
{
    let m = row.balanced;
    let checks = checks_of(row.q, row.delta, weigh(w, m, row.target));
    out[..m].copy_from_slice(&w[..m]);
    out[m] = checks.alpha;
    out[m + 1] = checks.beta;
}
