// The reading of a line: whether it has its form (01; 02 for question marks), its profile, and its symbols.
ghost use Rattle.std.specs.Prelude.{◌≡◌, ◌+◌, ◌≤◌, ◌&&◌, length, drop, nat_le};
ghost use Rattle.lines_theory.specs.Line.{is_short};
ghost use Rattle.answers.specs.Forms.{Valued, SymbolRead, SymbolValues, Parsed};

use profiles::ERASURE;

// Whether a line is long enough for a profile, a space and a symbol, and 01: "a line of at most 101 bytes".
fn has_length(line: &[u8]) -> bool
    ensures { result ≡ (is_short line.now && nat_le 3 (length line.now)) }
{
    line.len() <= 101 && line.len() >= 3
}

// The value of a digit. Of any other byte it is more than 9.
fn digit_value(byte: u8) -> u8
    ensures { Valued byte result }
{
    byte.wrapping_sub(b'0')
}

// The symbol that a byte stands for. Its height is past 9 where it stands for none.
#[derive(Clone, Copy)]
struct Symbol {
    value: u8,
    height: u8,
}

// A digit is as high as its value, and a question mark has no height.
fn symbol_of(byte: u8) -> Symbol
    ensures { SymbolRead byte result.value result.height }
{
    if byte == b'?' {
        return Symbol {
            value: ERASURE,
            height: 0,
        };
    }
    let digit = digit_value(byte);
    Symbol {
        value: digit,
        height: digit,
    }
}

// The symbols of a line's bytes, at the front of a word, and the highest of their heights: one pass with no way out, which the
// compiler does sixteen bytes at a time.
fn symbol_values(bytes: &[u8], word: &mut [u8]) -> u8
    requires { length bytes.now ≤ length word.old }
    ensures { SymbolValues bytes.now word.new result }
{
    let mut highest = 0u8;
    for (i, byte) in bytes.iter().enumerate() {
        let symbol = symbol_of(*byte);
        word[i] = symbol.value;
        highest = highest.max(symbol.height);
    }
    highest
}

// 01: "A line not of this form gives 9". Of a line of the form: its profile, and its symbols stand at the front of the word.
pub(crate) fn parse(line: &[u8], word: &mut [u8]) -> Option<usize>
    requires { length word.old ≡ 99 }
    ensures { Parsed line.now result word.new }
{
    if !has_length(line) {
        return None;
    }
    let profile = digit_value(line[0]);
    if profile > 9 || line[1] != b' ' || symbol_values(&line[2..], word) > 9 {
        return None;
    }
    Some(usize::from(profile))
}
