// Whole slices: copied, tested for zero.
ghost use Rattle.std.specs.Prelude.{◌≡◌};
ghost use Rattle.queue_theory.specs.Lists.{all_zero};
ghost use Rattle.cells.specs.Bytes.{copied};

// Copies as many bytes as both slices have, one by one: where both are lent by C, `copy_from_slice` becomes a call of `memmove`, which C would
// have to bring.
pub fn copy(to: &mut [u8], from: &[u8])
    ensures { to.new ≡ copied to.old from.now }
{
    for i in 0..to.len().min(from.len()) {
        to[i] = from[i];
    }
}

// Whether every byte is 0, by the highest of them: a loop without another way out is done many bytes at a time.
pub fn all_zero(s: &[u8]) -> bool
    ensures { result ≡ all_zero s.now }
{
    let mut highest = 0;
    for x in s {
        highest = highest.max(*x);
    }
    highest == 0
}
