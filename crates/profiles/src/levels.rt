// Whether a word is one of levels below q, or of levels and erasures.
ghost use Rattle.std.specs.Prelude.{◌≡◌};
ghost use Rattle.code_theory.specs.Component.{symbols_below, levels_or_erasures};

// Whether every symbol is below q, by the highest of them: a loop without another way out is done many symbols at a time.
pub fn symbols_below(word: &[u8], q: u8) -> bool
    ensures { result ≡ symbols_below q word.now }
{
    let mut highest = 0;
    for x in word {
        highest = (*x).max(highest);
    }
    word.len() == 0 || highest < q
}

// Whether every symbol is below q or an erasure, likewise, by the highest of the numbers after them in a byte: that after an erasure is 0.
pub(crate) fn levels_or_erasures(word: &[u8], q: u8) -> bool
    ensures { result ≡ levels_or_erasures q word.now }
{
    let mut highest = 0;
    for x in word {
        highest = x.wrapping_add(1).max(highest);
    }
    highest <= q
}

// The same. Most words have no erasure, and then the shorter loop is enough.
pub fn is_received(word: &[u8], q: u8) -> bool
    ensures { result ≡ levels_or_erasures q word.now }
{
    symbols_below(word, q) || levels_or_erasures(word, q)
}
