// The messages that the components of a word hold.
ghost use Rattle.std.specs.Prelude.{◌≡◌, true, false, ◌+◌, ◌-◌, ◌*◌, ◌≤◌, ◌<◌, T, length};
ghost use Rattle.decoding_theory.specs.Syndromes.{near_syndrome};
ghost use Rattle.profiles.specs.Row.{parameters};
ghost use Rattle.symbols.specs.Syndromes.{rows, part};
ghost use Rattle.syndromes.specs.Rows.{FourRows, rows_of};
ghost use Rattle.decoder.specs.Rows.{NearFourRows};
ghost use Rattle.decoder.specs.Sides.{is_first};
ghost use Rattle.decoder.specs.Received.{BodyArray};
ghost use Rattle.decoder.specs.Outputs.{Restored, Outputs, Messages, RestoredMessages, copied_run};

use modular::sub;
use profiles::Row;
use symbols::{Body, Syndrome, Syndromes};
use syndromes::{is_zero, position};

// One component restored by its syndrome: as it is, or with 1 taken from the symbol that the syndrome names.
fn restore(row: Row, s: Syndrome, side: usize, x: &mut Body)
    requires { BodyArray row x.old × FourRows row (rows s) × T (near_syndrome (parameters row) (rows_of row (rows s))) × (side ≤ 1) }
    ensures { Restored row (rows_of row (rows s)) (is_first side) x.old x.new }
{
    if is_zero(s) {
        return;
    }
    let i = 2 * position(row.q, s) - 1 + side;
    x[i] = sub(row.q, x[i], 1);
}

// The symbols of both components at the indices i to end - 1, into the outputs from `next` on.
fn copy_run(x: &Body, i: usize, end: usize, next: usize, first: &mut [u8], second: &mut [u8])
    requires { (i ≤ end) × (end ≤ 48) × (next + (end - i) ≤ length first.old) × (next + (end - i) ≤ length second.old) }
    ensures first_after { first.new ≡ copied_run x.now 1 i (end - i) next first.old }
    ensures second_after { second.new ≡ copied_run x.now 2 i (end - i) next second.old }
{
    for k in 0..end - i {
        let from = 2 * (i + k);
        first[next + k] = x[from + 1];
        second[next + k] = x[from + 2];
    }
}

// The messages of both components: the symbols at the positions that are no check positions, 2 and the powers of q.
fn extract(row: Row, x: &Body, first: &mut [u8], second: &mut [u8])
    requires { BodyArray row x.now × Outputs row first.old second.old }
    ensures { Messages row x.now first.new second.new }
{
    let q = usize::from(row.q);
    let n = row.n;
    let mut power = q;
    let mut i = 2;
    let mut next = 0;
    while power <= n {
        let end = power - 1;
        copy_run(x, i, end, next, first, second);
        next += end - i;
        i = power;
        power *= q;
    }
    copy_run(x, i, n, next, first, second);
}

// Both messages of the components in x, which have the syndromes s.
pub(crate) fn write_pair(row: Row, s: Syndromes, x: &mut Body, first: &mut [u8], second: &mut [u8])
    requires { BodyArray row x.old × NearFourRows row (rows s.first) (rows s.second) × Outputs row first.old second.old }
    ensures { RestoredMessages (parameters row) (part true row.n x.old) (part false row.n x.old)
        (rows_of row (rows s.first)) (rows_of row (rows s.second)) first.new second.new }
{
    restore(row, s.first, 0, x);
    restore(row, s.second, 1, x);
    extract(row, x, first, second);
}
