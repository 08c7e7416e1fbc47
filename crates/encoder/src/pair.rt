// The word of two messages.
ghost use Rattle.std.specs.Prelude.{◌≡◌, T, length};
ghost use Rattle.code_theory.specs.Parameters.{in_edition, message_length, codeword_length};
ghost use Rattle.code_theory.specs.Component.{is_word};
ghost use Rattle.code_theory.specs.Profiles.{profile};
ghost use Rattle.code_theory.specs.LineRule.{line_rule_of, encoded_by};
ghost use Rattle.profiles.specs.Edition.{edition_is};
ghost use Rattle.profiles.specs.Row.{RowOf};

use crate::balance::balanced;
use crate::word::put;
use components::components;
use profiles::Row;

// 01: the line word of a pair of user words, by their profile's row, in an edition, and number, written over all of the output; 02, T-06:
// by a line rule.
pub(crate) fn write(
    row: Row,
    number: usize,
    rule: usize,
    first: &[u8],
    second: &[u8],
    out: &mut [u8],
)
    requires { RowOf (edition_is row.edition) number row × T (is_word (profile number).q (message_length (profile number)) first.now)
        × T (is_word (profile number).q (message_length (profile number)) second.now)
        × (length out.old ≡ codeword_length (profile number)) }
    ensures { out.new
        ≡ encoded_by (line_rule_of rule) (in_edition (edition_is row.edition) (profile number)) first.now
        second.now }
{
    let x = components(number, first, second);
    let w = balanced(row, rule, &x);
    put(row, &w, out);
}
