// A word with 0 at its erased positions.
ghost use Rattle.std.specs.Prelude.{◌≡◌};
ghost use Rattle.fillings.specs.Cleared.{unless_erased, cleared_array};

use profiles::ERASURE;

// A symbol, and 0 for an erasure (02: the mark, 255).
fn unless_erased(x: u8) -> u8
    ensures { result ≡ unless_erased x }
{
    if x == ERASURE { 0 } else { x }
}

// A word with 0 at its erased positions, in an array that the longest word fits: its first 99 symbols, and zeros after them.
pub fn cleared(word: &[u8]) -> [u8; 99]
    ensures { result ≡ cleared_array word.now }
{
    let end = word.len().min(99);
    let mut array = [0; 99];
    array[..end].copy_from_slice(&word[..end]);
    for x in array.iter_mut() {
        *x = unless_erased(*x);
    }
    array
}
