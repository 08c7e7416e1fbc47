// The fields of a stored case.
ghost use Rattle.std.specs.Prelude.{◌≤◌, length};

// The value of a digit; 0 for any other byte.
fn digit_value(b: u8) -> usize
    ensures { result ≤ 9 }
{
    if b.is_ascii_digit() {
        usize::from(b - b'0')
    } else {
        0
    }
}

// Field k of a line, from 0; empty where there is none.
pub(crate) fn field(line: &[u8], k: usize) -> &[u8] {
    line.split(|b| *b == b' ').nth(k).unwrap_or(&[])
}

// A decimal number; the digits after the fourth are passed over.
pub(crate) fn parse_number(s: &[u8]) -> usize {
    s.iter().fold(0, |value, b| {
        if value < 1000 {
            value * 10 + digit_value(*b)
        } else {
            value
        }
    })
}

// What a byte stands for in a word: `?` is 02's mark, 255. A byte below `0` stands for nothing.
fn symbol_of(b: u8) -> Option<u8> {
    if b == b'?' {
        Some(255)
    } else {
        b.checked_sub(b'0')
    }
}

// The symbols of a word, as many as the buffer holds; `-` is none.
pub(crate) fn parse_symbols<'a>(s: &[u8], out: &'a mut [u8]) -> &'a [u8] {
    let mut n = 0;
    for (y, x) in out.iter_mut().zip(s.iter().filter_map(|b| symbol_of(*b))) {
        *y = x;
        n += 1;
    }
    &out[..n.min(out.len())]
}
