// The weight of a word (01: the plain sum of its symbols) less the balancing value, and the weights of its odd and of its even positions.
ghost use Rattle.std.specs.Prelude.{◌≡◌, min, ◌*◌, ◌%◌, ◌≤◌, take};
ghost use Rattle.symbols.specs.Weight.{weights_of};

// 01: an array of 97 holds w; x is as long.
pub type Body = [u8; 97];

// The sums over the odd positions, 1, 3, .., and over the even ones, and the weight less the balancing value (01: middle).
#[derive(Clone, Copy, PartialEq, Eq, Debug)]
pub struct Weight {
    pub odd: u16,
    pub even: u16,
    pub excess: i32,
}

// A symbol where its index is odd, and 0 where it is even: by a product, which is done many at a time.
fn if_odd(index: usize, x: u16) -> u16
    requires { x ≤ 255 }
    ensures { (result ≡ x * (index % 2)) × (result ≤ x) }
{
    x * (index % 2) as u16
}

// How many of the first m symbols there are in a word that has `len`, of which an array holds 97.
pub fn available(m: usize, len: usize) -> usize
    ensures { result ≡ min (min m 97) len }
{
    m.min(97).min(len)
}

// The first m symbols weighed, 97 at most, against a balancing value: every weight that is compared with one is taken here.
pub fn weigh(word: &[u8], m: usize, target: u16) -> Weight
    ensures { result ≡ weights_of target (take (min m 97) word.now) }
{
    let mut all = 0;
    let mut even = 0;
    for (index, x) in word[..available(m, word.len())].iter().enumerate() {
        let symbol = u16::from(*x);
        all += symbol;
        even += if_odd(index, symbol);
    }
    let odd = all - even;
    let excess = i32::from(all) - i32::from(target);
    Weight { odd, even, excess }
}
