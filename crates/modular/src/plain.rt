// Subtraction that must stay among the levels (01: by plain subtraction that must stay within 0 to q-1).
ghost use Rattle.std.specs.Prelude.{◌≡◌, pos, ◌-ℤ◌};
ghost use Rattle.modular_theory.specs.Level.{level_of};

// z where it is one of the q levels, and q where it is none: nothing wraps.
fn level(q: u8, z: i64) -> u8
    ensures { result ≡ level_of q z }
{
    match u8::try_from(z) {
        Ok(y) => y.min(q),
        Err(_) => q,
    }
}

// x less e as a level. In 64 bits it fits for every e.
pub fn less(q: u8, x: u8, e: i32) -> u8
    ensures { result ≡ level_of q (pos x -ℤ e) }
{
    level(q, i64::from(x) - i64::from(e))
}
