// The search for the byte 10 that ends a line.
ghost use Rattle.std.specs.Prelude.{◌≡◌, length};
ghost use Rattle.lines.specs.Ends.{first_end};

// The first byte 10 of a window of 128 bytes: one pass with no way out, which the compiler does sixteen bytes at a time. A
// line of the form, with its byte 10, lies within such a window.
fn in_window(window: &[u8]) -> Option<usize>
    requires { length window.now ≡ 128 }
    ensures { result ≡ first_end window.now }
{
    let mut first: u8 = 128;
    for (i, byte) in window.iter().enumerate() {
        let index = if *byte == b'\n' { i as u8 } else { 128 };
        first = first.min(index);
    }
    if first < 128 {
        Some(usize::from(first))
    } else {
        None
    }
}

// The first byte 10, byte by byte.
fn by_bytes(input: &[u8]) -> Option<usize>
    ensures { result ≡ first_end input.now }
{
    input.iter().position(|byte| *byte == b'\n')
}

// The index of the first byte 10.
pub(crate) fn line_end(input: &[u8]) -> Option<usize>
    ensures { result ≡ first_end input.now }
{
    let mut at = 0;
    while input.len() - at >= 128 {
        if let Some(i) = in_window(&input[at..at + 128]) {
            return Some(at + i);
        }
        at += 128;
    }
    let i = by_bytes(&input[at..])?;
    Some(at + i)
}
