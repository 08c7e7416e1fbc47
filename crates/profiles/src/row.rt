// The four profiles (01: The four profiles): a constant table of rows, with the numbers that follow from q, r and n, looked up by number.
ghost use Rattle.std.specs.Prelude.{◌≡◌};
ghost use Rattle.code_theory.specs.Parameters.{edition13};
ghost use Rattle.profiles.specs.Edition.{edition_is};
ghost use Rattle.profiles.specs.Row.{numbers, entries, Widened, looked_up, table_at};

use crate::edition::Edition;

#[derive(Clone, Copy, PartialEq, Eq, Debug)]
pub struct Row {
    pub q: u8,
    pub r: usize,
    pub n: usize,
    // 01: k
    pub message: usize,
    // 01: m
    pub balanced: usize,
    // 01: N
    pub codeword: usize,
    // 01: middle
    pub target: u16,
    // 01: δ
    pub delta: u8,
    // 02, T-03
    pub edition: Edition,
}

// A row as the table has it. The table is put on the stack at each lookup, so its numbers are as small as they can be.
#[derive(Clone, Copy)]
pub(crate) struct Entry {
    pub(crate) q: u8,
    pub(crate) r: u8,
    pub(crate) n: u8,
    pub(crate) message: u8,
    pub(crate) balanced: u8,
    pub(crate) codeword: u8,
    pub(crate) target: u16,
    pub(crate) delta: u8,
}

// 01's table.
const ROWS: [Entry; 4] = [
    Entry {
        q: 3,
        r: 3,
        n: 8,
        message: 5,
        balanced: 17,
        codeword: 19,
        target: 17,
        delta: 0,
    },
    Entry {
        q: 3,
        r: 4,
        n: 26,
        message: 22,
        balanced: 53,
        codeword: 55,
        target: 53,
        delta: 0,
    },
    Entry {
        q: 5,
        r: 3,
        n: 24,
        message: 21,
        balanced: 49,
        codeword: 51,
        target: 98,
        delta: 1,
    },
    Entry {
        q: 7,
        r: 3,
        n: 48,
        message: 45,
        balanced: 97,
        codeword: 99,
        target: 291,
        delta: 2,
    },
];

// The row in an edition, in the numbers that lengths are compared with.
fn widened(edition: Edition, e: Entry) -> Row
    ensures { Widened edition e result }
{
    Row {
        q: e.q,
        r: usize::from(e.r),
        n: usize::from(e.n),
        message: usize::from(e.message),
        balanced: usize::from(e.balanced),
        codeword: usize::from(e.codeword),
        target: e.target,
        delta: e.delta,
        edition,
    }
}

// The row of a profile in an edition, by the profile's number; none, 01's number 1, where the number is no profile's.
pub fn row_in(edition: Edition, profile: usize) -> Option<Row>
    ensures { looked_up profile result ≡ table_at (edition_is edition) profile }
{
    let rows = ROWS;
    if !((1 <= profile) & (profile <= rows.len())) {
        return None;
    }
    let i = profile - 1;
    Some(widened(edition, rows[i]))
}

// The same in edition 13, for those who ask for numbers that both editions have.
pub fn row_of(profile: usize) -> Option<Row>
    ensures { looked_up profile result ≡ table_at edition13 profile }
{
    row_in(Edition::Of2013, profile)
}
