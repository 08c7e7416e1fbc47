// The multiples of a symbol mod q, in a table.
ghost use Rattle.std.specs.Prelude.{◌≡◌, ◌≤◌, ◌<◌, get_or};
ghost use Rattle.decoder.specs.Multiples.{Multiples};

use modular::add;

// The multiples of a symbol f, that of each level at its index.
pub(crate) fn multiples(q: u8, f: u8) -> [u8; 16]
    requires { (f < q) × (2 ≤ q) × (q ≤ 15) }
    ensures { Multiples q result × (get_or result 1 0 ≡ f) }
{
    let mut table = [0u8; 16];
    for i in 1..usize::from(q) {
        table[i] = add(q, table[i - 1], f);
    }
    table
}

// That of the level d.
pub(crate) fn multiple(table: &[u8; 16], d: u8) -> u8
    requires { d ≤ 15 }
    ensures { result ≡ get_or table.now d 0 }
{
    table[usize::from(d)]
}
