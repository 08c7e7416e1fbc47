// The parities of the positions of w.
ghost use Rattle.std.specs.Prelude.{◌≡◌, ◌%◌, ◌≤◌, eqb, false};
ghost use Rattle.decoding_theory.specs.Syndromes.{index, column_of};
ghost use Rattle.decoder.specs.Parity.{is_odd};

#[derive(Clone, Copy, PartialEq, Eq, Debug)]
pub(crate) enum Parity {
    Odd,
    Even,
}

impl Parity {
    // That of the position of an index of w: the first position is 1.
    pub(crate) fn of(i: usize) -> Parity
        ensures { is_odd result ≡ eqb (i % 2) 0 }
    {
        if i % 2 == 0 {
            Parity::Odd
        } else {
            Parity::Even
        }
    }

    pub(crate) fn is_odd(self) -> bool
        ensures { result ≡ is_odd self }
    {
        self == Parity::Odd
    }

    // The index in w of index k among the positions of the parity.
    pub(crate) fn index(self, k: usize) -> usize
        requires { k ≤ 48 }
        ensures { result ≡ index (is_odd self) k }
    {
        match self {
            Parity::Odd => 2 * k,
            Parity::Even => 2 * k + 1,
        }
    }

    // The column that the symbol there meets in the second component. In the first it meets column k + 1.
    pub(crate) fn second_column(self, k: usize) -> usize
        requires { k ≤ 48 }
        ensures { result ≡ column_of false (is_odd self) k }
    {
        match self {
            Parity::Odd => k,
            Parity::Even => k + 1,
        }
    }
}
