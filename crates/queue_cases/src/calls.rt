// The calls that a line can name.
ghost use Rattle.std.specs.Prelude.{◌≤◌, length};

use crate::text::{number, report, unhex};

// What a buffer holds before a call.
const UNTOUCHED: u8 = 170;

// A new buffer: answers its size.
fn renew(fields: &[u8], space: &mut [u8]) -> usize
    ensures { result ≤ length space.old }
{
    let (size, _) = number(fields);
    let size = size.min(space.len());
    let queue = &mut space[..size];
    queue.fill(UNTOUCHED);
    report(Ok(()), queue, &[]);
    size
}

fn format(queue: &mut [u8]) {
    let answer = queue::format(queue);
    report(answer, queue, &[]);
}

fn enqueue(fields: &[u8], queue: &mut [u8]) {
    let mut word = [0; 128];
    let (boxno, fields) = number(fields);
    let (profile, fields) = number(fields);
    let n = unhex(fields, &mut word);
    let answer = queue::enqueue(queue, boxno, profile, &word[..n]);
    report(answer, queue, &[]);
}

fn peek(fields: &[u8], queue: &[u8]) {
    let mut space = [UNTOUCHED; 208];
    let (record, fields) = number(fields);
    let (size, _) = number(fields);
    let out = &mut space[..size.min(208)];
    let answer = queue::peek(queue, record, out);
    report(answer, queue, out);
}

fn dequeue(fields: &[u8], queue: &mut [u8]) {
    let mut space = [UNTOUCHED; 208];
    let (size, _) = number(fields);
    let out = &mut space[..size.min(208)];
    let answer = queue::dequeue(queue, out);
    report(answer, queue, out);
}

// Writes one byte, if there is such a byte.
fn poke(fields: &[u8], queue: &mut [u8]) {
    let (at, fields) = number(fields);
    let (value, _) = number(fields);
    if let Some(byte) = queue.get_mut(at) {
        *byte = (value % 256) as u8;
    }
    report(Ok(()), queue, &[]);
}

// Runs a line on the first `size` bytes; answers the size after it.
pub(crate) fn run(line: &[u8], space: &mut [u8], size: usize) -> usize
    requires { size ≤ length space.old }
    ensures { result ≤ length space.old }
{
    let Some((kind, rest)) = line.split_first() else {
        return size;
    };
    let fields = rest.get(1..).unwrap_or(&[]);
    if *kind == b'N' {
        return renew(fields, space);
    }
    let queue = &mut space[..size];
    match *kind {
        b'F' => format(queue),
        b'E' => enqueue(fields, queue),
        b'L' => peek(fields, queue),
        b'T' => dequeue(fields, queue),
        _ => poke(fields, queue),
    }
    size
}
