// Numbers and bytes of a line of text, and what is printed.
ghost use Rattle.std.specs.Prelude.{◌<◌, ◌≤◌, length};

use queue::Refusal;
use std::fmt;
use std::fmt::Write;

// The decimal number in front, and what follows the byte after it.
pub(crate) fn number(text: &[u8]) -> (usize, &[u8]) {
    let mut value = 0;
    for (i, b) in text.iter().enumerate() {
        match *b {
            b'0'..=b'9' => value = value % 100000 * 10 + usize::from(*b - b'0'),
            _ => return (value, &text[i + 1..]),
        }
    }
    (value, &[])
}

// The value of a hexadecimal digit; 0 for any other byte.
fn hex_value(b: u8) -> u8
    ensures { result < 16 }
{
    match b {
        b'0'..=b'9' => b - b'0',
        b'a'..=b'f' => b - b'a' + 10,
        _ => 0,
    }
}

// The bytes written in hexadecimal, into `word`; answers how many.
pub(crate) fn unhex(text: &[u8], word: &mut [u8]) -> usize
    ensures { result ≤ length word.old }
{
    let (pairs, _) = text.as_chunks::<2>();
    for (byte, [high, low]) in word.iter_mut().zip(pairs) {
        *byte = hex_value(*high) * 16 + hex_value(*low);
    }
    word.len().min(pairs.len())
}

fn digest(bytes: &[u8]) -> u64 {
    let mut h = 1;
    for b in bytes {
        h = (h * 31 + u64::from(*b)) % 65521;
    }
    h
}

// The stream that answers are written to, by POSIX's number.
const STDOUT_FILENO: i32 = 1;

// Standard output, with no buffer: each text and each number of a format is a write of its own. One that fails is passed over,
// and those after it are still made.
#[derive(Drop)]
struct Stdout;

impl fmt::Write for Stdout {
    fn write_str(&mut self, s: &str) -> fmt::Result {
        io::write_all(STDOUT_FILENO, s.as_bytes());
        Ok(())
    }
}

// Prints what a call answers: its number, and the digests of the queue and of the output.
pub(crate) fn report(answer: Result<(), Refusal>, queue: &[u8], output: &[u8]) {
    let number = queue::number(answer);
    let queue = digest(queue);
    let output = digest(output);
    let _ = writeln!(Stdout, "{number} {queue} {output}");
}
