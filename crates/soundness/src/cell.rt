// Whether a cell is as a used or a free one has to be.
ghost use Rattle.std.specs.Prelude.{◌≡◌, T, length};
ghost use Rattle.queue_theory.specs.Layout.{body_size, padded_size, is_queue_length, header};
ghost use Rattle.queue_theory.specs.Sound.{is_padded, is_record, is_header, is_cell};
ghost use Rattle.soundness.specs.Walked.{is_used};

use cells::{BODY_SIZE, CELL_SIZE, all_zero, capacity};
use profiles::{is_received, row_of};

// Whether the bytes after box and profile are a word as the profile receives it, of levels or erasures, and then zeros.
fn is_padded(bytes: &[u8], profile: usize) -> bool
    requires { length bytes.now ≡ padded_size }
    ensures { result ≡ is_padded profile bytes.now }
{
    let Some(row) = row_of(profile) else {
        return false;
    };
    let q = row.q;
    let n = row.codeword;
    is_received(&bytes[..n], q) & all_zero(&bytes[n..])
}

// The same. Each profile has an arm of its own, so that the compiler knows the loops' lengths: without the arms a look at a full queue of
// 255 cells takes twice as long.
fn is_word(bytes: &[u8], profile: u8) -> bool
    requires { length bytes.now ≡ padded_size }
    ensures { result ≡ is_padded profile bytes.now }
{
    match profile {
        1 => is_padded(bytes, 1),
        2 => is_padded(bytes, 2),
        3 => is_padded(bytes, 3),
        4 => is_padded(bytes, 4),
        _ => false,
    }
}

// Whether the bytes of a cell after byte 0 are a record.
fn is_record(body: &[u8]) -> bool
    requires { length body.now ≡ body_size }
    ensures { result ≡ is_record body.now }
{
    let boxno = body[0];
    ((1 <= boxno) & (boxno <= 40)) & is_word(&body[2..], body[1])
}

// Whether cell 0 is as it has to be, besides the first cells of both lists.
pub(crate) fn is_header(queue: &[u8]) -> bool
    requires { T (is_queue_length (length queue.now)) }
    ensures { result ≡ is_header (header queue.now) }
{
    all_zero(&queue[2..CELL_SIZE])
}

// Which of the two lists a cell is on.
#[derive(Clone, Copy, PartialEq, Eq, Debug)]
pub(crate) enum Kind {
    Used,
    Free,
}

// Whether a number is a cell's, and the cell is as one of that kind has to be.
pub(crate) fn is_cell(queue: &[u8], kind: Kind, cell: usize) -> bool
    requires { T (is_queue_length (length queue.now)) }
    ensures { result ≡ is_cell queue.now (is_used kind) cell }
{
    if cell > capacity(queue) {
        return false;
    }
    let a = cell * CELL_SIZE + 1;
    let body = &queue[a..a + BODY_SIZE];
    match kind {
        Kind::Used => is_record(body),
        Kind::Free => all_zero(body),
    }
}
