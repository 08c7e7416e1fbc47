// Numbers of sixteen bits, eight side by side: the compiler works on all of them at once, by comparisons and with no branch.
ghost use Rattle.std.specs.Prelude.{◌≡◌, ◌+◌, ◌%◌, ◌≤◌, ◌<◌};

// A number for each of the shifts 0 to 7.
pub type Lanes = [u16; 8];

// What stands for a running digital sum of 0, so that no lane is signed: 97 symbols below 8 move it by 679 at most.
pub(crate) const ZERO_SUM: u16 = 2048;

// y + t mod q.
pub(crate) fn raised(q: u16, y: u16, t: u16) -> u16
    requires { (q ≤ 8) × (y ≤ q) × (t < q) }
    ensures { (result ≡ (y + t) % q) × (result < q) }
{
    let x = y + t;
    if x < q { x } else { x - q }
}
