// What is said of a corrected symbol.
ghost use Rattle.std.specs.Prelude.{◌≡◌, pos, ◌-ℤ◌};
ghost use Rattle.syndromes.specs.Correction.{correction_of};

// Its position, from 1, the symbol sent there, and the error, which is the symbol received minus the symbol sent, from -(q - 1) to q - 1.
#[derive(Clone, Copy, PartialEq, Eq, Debug)]
pub struct Correction {
    pub position: usize,
    pub symbol: u8,
    pub error: i16,
}

// The symbol at a position arrived as x and was sent as y.
pub fn corrected(position: usize, x: u8, y: u8) -> Correction
    ensures { correction_of result ≡ record { position = position; symbol = y; error = pos x -ℤ pos y } }
{
    Correction {
        position,
        symbol: y,
        error: i16::from(x) - i16::from(y),
    }
}
