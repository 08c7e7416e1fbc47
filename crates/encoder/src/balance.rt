// Balancing (01: How a word is made, 4 and 5): w of the first choice that balances x; 02, T-06: under line rule 2 of one with the least
// peak. A choice s, v adds s to every symbol of the integrated x, and 1 more from position v on, so x is integrated once. In edition 18 (02,
// T-03) w is the complement of that for another s: the components' symbols sum to 0 mod q, so the sums from the end are the negatives of
// those from the front.
ghost use Rattle.std.specs.Prelude.{◌≡◌, ◌≤◌, ◌<◌, take, drop};
ghost use Rattle.code_theory.specs.Balance.{integrate, with_zero};
ghost use Rattle.code_theory.specs.Walk.{shift_of, complement, unwalked};
ghost use Rattle.code_theory.specs.LineRule.{rule1, line_rule_of, balanced_by};
ghost use Rattle.profiles.specs.Row.{parameters, Valid};
ghost use Rattle.encoder.specs.Symbols.{SymbolArray, PrefixSums, ZeroFirst, Walked, Chosen, Raised, rise_at};

use modular::{SumArray, add, remainders, sub};
use profiles::{Edition, Row};
use symbols::weigh;

// The sums of the first symbols, up to each of the first m.
fn summed(m: usize, x: &[u8; 97]) -> SumArray
    requires { m ≤ 97 }
    ensures { PrefixSums m x.now result }
{
    let mut sums = [0u16; 97];
    let mut sum = 0;
    for i in 0..m {
        sum += u16::from(x[i]);
        sums[i] = sum;
    }
    sums
}

// The running sums mod q of the first m symbols.
fn integrated(q: u8, m: usize, x: &[u8; 97]) -> [u8; 97]
    requires { SymbolArray q m x.now }
    ensures { (take m result ≡ integrate q 0 (take m x.now)) × SymbolArray q 97 result }
{
    let sums = summed(m, x);
    remainders(q, &sums)
}

// s, and 1 more from an index on.
fn rise(i: u8, from: u8, s: u8) -> u8
    requires { s < 255 }
    ensures { result ≡ rise_at from s i }
{
    if i < from { s } else { s + 1 }
}

// What the choices shift (01: the integrated x), by the row of its profile.
#[derive(Drop)]
pub(crate) struct Integral {
    pub(crate) row: Row,
    pub(crate) symbols: [u8; 97],
    ghost valid: { Valid row },
    ghost few: { row.q ≤ 8 },
    ghost levels: { SymbolArray row.q 97 symbols },
}

// A choice by what it makes of the integral: `shift` is added to every symbol, and 1 more from position v on.
#[derive(Clone, Copy)]
pub(crate) struct Choice {
    pub(crate) shift: u8,
    pub(crate) v: usize,
}

// The shift of a choice's s: s, or in edition 18 -2 - s mod q.
pub(crate) fn shift_of(row: Row, s: u8) -> u8
    requires { Valid row × (s < row.q) }
    ensures { result ≡ shift_of (parameters row) s }
{
    match row.edition {
        Edition::Of2013 => s,
        Edition::Of2018 => sub(row.q, row.q - 1, s + 1),
    }
}

impl Integral {
    // s added mod q to every symbol of the array, and 1 more from an index on. The index is compared as a byte: many are at once.
    fn raised(&self, s: u8, from: u8) -> [u8; 97]
        requires { s < self.now.row.q }
        ensures { Raised self.now.row.q self.now.symbols s from result }
    {
        let q = self.row.q;
        let mut w = self.symbols;
        for (i, y) in w.iter_mut().enumerate() {
            *y = add(q, *y, rise(i as u8, from, s));
        }
        w
    }

    // 01: the choice used, the first whose w has weight middle, s before v. One exists, so the loop never ends by itself. For each s the
    // word of v = 1 is weighed. From v to v + 1 the symbol at v loses 1 mod q, and the excess with it: it gains q first where that symbol
    // is 0. In edition 18 v counts one more than 02's, which starts from 0; a complement is balanced where the word is.
    fn earliest(&self) -> Choice
        requires { Walked (parameters self.now.row) (take self.now.row.balanced self.now.symbols) }
        ensures { Chosen rule1 (parameters self.now.row) (take self.now.row.balanced self.now.symbols) result.shift result.v }
    {
        let row = self.row;
        for s in 0..row.q {
            let shift = shift_of(row, s);
            let mut gain = [0u8; 16];
            gain[usize::from(row.q - 1 - shift)] = row.q;
            let w = self.raised(shift, 0);
            let mut excess = weigh(&w, row.balanced, row.target).excess;
            for v in 1..row.balanced + 1 {
                if excess == 0 {
                    return Choice { shift, v };
                }
                excess = excess + i32::from(gain[usize::from(self.symbols[v - 1])]) - 1;
            }
        }
        unreachable!()
    }

    // The choice that a line rule takes, 2 or else 1.
    fn choose(&self, rule: usize) -> Choice
        requires { Walked (parameters self.now.row) (take self.now.row.balanced self.now.symbols) }
        ensures { Chosen (line_rule_of rule) (parameters self.now.row) (take self.now.row.balanced self.now.symbols) result.shift result.v }
    {
        if rule == 2 {
            self.least_peak()
        } else {
            self.earliest()
        }
    }
}

// Each symbol y of an array made q - 1 - y.
fn complemented(q: u8, mut w: [u8; 97]) -> [u8; 97]
    requires { SymbolArray q 97 w }
    ensures { result ≡ complement q w }
{
    for y in &mut w {
        *y = q - 1 - *y;
    }
    w
}

// w of a choice, from the shifted integral: it, or in edition 18 its complement.
fn word_of_shift(row: Row, w: [u8; 97]) -> [u8; 97]
    requires { SymbolArray row.q 97 w }
    ensures { result ≡ unwalked (parameters row) w }
{
    match row.edition {
        Edition::Of2013 => w,
        Edition::Of2018 => complemented(row.q, w),
    }
}

// 01: w of the choice used, of the components in x after a zero.
pub(crate) fn balanced(row: Row, rule: usize, x: &[u8; 97]) -> [u8; 97]
    requires { Valid row × (row.q ≤ 8) × SymbolArray row.q row.balanced x.now
        × ZeroFirst row.q (take row.balanced x.now) }
    ensures { take row.balanced result
        ≡ balanced_by (line_rule_of rule) (parameters row)
        (with_zero (parameters row) (drop 1 (take row.balanced x.now))) }
{
    let symbols = integrated(row.q, row.balanced, x);
    let integral = Integral { row, symbols };
    let choice = integral.choose(rule);
    let w = integral.raised(choice.shift, (choice.v - 1) as u8);
    word_of_shift(row, w)
}
