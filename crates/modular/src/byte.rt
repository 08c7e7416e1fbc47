// Sums and differences mod q of two symbols, by a comparison and no division. They are taken in a byte, where they wrap for
// bytes that are no levels: so no test stands in the way of the compiler, which works on many symbols at a time.
ghost use Rattle.std.specs.Prelude.{◌≡◌};
ghost use Rattle.modular.specs.Byte.{byte_sum, byte_difference};

// a + x mod q, where a is below q and x at most q.
pub fn add(q: u8, a: u8, x: u8) -> u8
    ensures { result ≡ byte_sum q a x }
{
    let sum = a.wrapping_add(x);
    if sum < q { sum } else { sum - q }
}

// a - x mod q, likewise.
pub fn sub(q: u8, a: u8, x: u8) -> u8
    ensures { result ≡ byte_difference q a x }
{
    if a < x {
        a.wrapping_sub(x).wrapping_add(q)
    } else {
        a - x
    }
}
