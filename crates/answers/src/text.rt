// Writing an answer line into its buffer, field by field.
ghost use Rattle.std.specs.Prelude.{◌≡◌, ◌+◌, ◌<◌, ◌≤◌, [], ◌∷◌, ◌++◌, map, length, unsigned_abs};
ghost use Rattle.code_theory.specs.Component.{Below};
ghost use Rattle.refusals.specs.Number.{number_of};
ghost use Rattle.decoder.specs.Decode.{change_of, changes_in};
ghost use Rattle.lines_theory.specs.Line.{digit_byte, decimal, signed_decimal, refusal_line, changes_before, reading_line};
ghost use Rattle.lines_theory.specs.Sizes.{ChangesWithin};
ghost use Rattle.answers.specs.Writing.{Wrote, heading_of};

use decoder::{Change, Changes};
use refusals::Refusal;

// A buffer, and where the next byte goes.
#[derive(Drop)]
pub(crate) struct Writer<'a> {
    pub(crate) out: &'a mut [u8],
    pub(crate) at: usize,
}

impl Writer<'_> {
    // One byte.
    fn byte(&mut self, byte: u8)
        requires { self.old.at < length self.old.out.now }
        ensures { Wrote self.old self.new (byte ∷ []) }
    {
        self.out[self.at] = byte;
        self.at += 1;
    }

    // Two bytes.
    fn pair(&mut self, a: u8, b: u8)
        requires { self.old.at + 1 < length self.old.out.now }
        ensures { Wrote self.old self.new (a ∷ b ∷ []) }
    {
        self.byte(a);
        self.byte(b);
    }

    // A number of at most two digits, and one more byte.
    fn decimal(&mut self, n: usize, last: u8)
        requires { (self.old.at + 2 < length self.old.out.now) × (n ≤ 99) }
        ensures text { Wrote self.old self.new (decimal n (last ∷ [])) }
        ensures short { self.new.at ≤ self.old.at + 3 }
    {
        if n < 10 {
            self.pair(b'0' + n as u8, last);
            return;
        }
        self.byte(b'0' + (n / 10) as u8);
        self.pair(b'0' + (n % 10) as u8, last);
    }

    // A number of at most two digits "with its sign", and 0 "plain" (02), and a space.
    fn signed_decimal(&mut self, z: i16)
        requires { (self.old.at + 3 < length self.old.out.now) × (unsigned_abs z ≤ 99) }
        ensures text { Wrote self.old self.new (signed_decimal z (32 ∷ [])) }
        ensures short { self.new.at ≤ self.old.at + 4 }
    {
        let size = usize::from(z.unsigned_abs());
        if z == 0 {
            self.decimal(size, b' ');
            return;
        }
        self.byte(if z < 0 { b'-' } else { b'+' });
        self.decimal(size, b' ');
    }

    // The digits of a word run together, and one more byte.
    fn word(&mut self, symbols: &[u8], last: u8)
        requires { (self.old.at + length symbols.now < length self.old.out.now) × Below 10 symbols.now }
        ensures { Wrote self.old self.new (map digit_byte symbols.now ++ last ∷ []) }
    {
        for (i, symbol) in symbols.iter().enumerate() {
            self.out[self.at + i] = b'0' + *symbol;
        }
        self.at += symbols.len();
        self.byte(last);
    }

    // 01: "For a refused one: R, a space and the number."
    pub(crate) fn refusal_line(&mut self, refusal: Refusal)
        requires { self.old.at + 4 < length self.old.out.now }
        ensures { Wrote self.old self.new (refusal_line (number_of refusal)) }
    {
        self.pair(b'R', b' ');
        self.decimal(usize::from(u8::from(refusal)), b'\n');
    }

    // The place of a change and the symbol sent there, each with a space.
    fn one_change(&mut self, c: Change)
        requires { (self.old.at + 4 < length self.old.out.now) × ChangesWithin 99 9 (change_of c ∷ []) }
        ensures text { Wrote self.old self.new (changes_before (change_of c ∷ []) []) }
        ensures short { self.new.at ≤ self.old.at + 5 }
    {
        self.decimal(c.position, b' ');
        self.pair(b'0' + c.symbol, b' ');
    }

    // The same of one change or of two.
    fn all_changes(&mut self, changes: Changes)
        requires { (self.old.at + 9 < length self.old.out.now) × ChangesWithin 99 9 (changes_in changes) }
        ensures text { Wrote self.old self.new (changes_before (changes_in changes) []) }
        ensures short { self.new.at ≤ self.old.at + 10 }
    {
        match changes {
            Changes::One(c) => self.one_change(c),
            Changes::Two(c, d) => {
                self.one_change(c);
                self.one_change(d);
            }
        }
    }

    // The fields before the error: profile and kind, each with a space, and the changes.
    fn heading(&mut self, profile: usize, kind: u8, changes: Changes)
        requires small { (profile ≤ 9) × ChangesWithin 99 9 (changes_in changes) }
        requires room { self.old.at + 13 < length self.old.out.now }
        ensures text { Wrote self.old self.new (heading_of profile kind (changes_in changes)) }
        ensures short { self.new.at ≤ self.old.at + 14 }
    {
        self.pair(b'0' + profile as u8, b' ');
        self.pair(kind, b' ');
        self.all_changes(changes);
    }

    // 01: "profile, kind C or M, place, sent symbol, first word, second word"; 02: F, with one place and symbol or two, and the
    // error after the last symbol.
    pub(crate) fn reading_line(
        &mut self,
        profile: usize,
        kind: u8,
        changes: Changes,
        error: i16,
        first: &[u8],
        second: &[u8],
    )
        requires small { (profile ≤ 9) × ChangesWithin 99 9 (changes_in changes) × (unsigned_abs error ≤ 9) }
        requires words { (length first.now ≤ 45) × (length second.now ≤ 45) × Below 10 first.now × Below 10 second.now }
        requires room { self.old.at + 110 ≤ length self.old.out.now }
        ensures { Wrote self.old self.new (reading_line profile kind (changes_in changes) error first.now second.now) }
    {
        self.heading(profile, kind, changes);
        self.signed_decimal(error);
        self.word(first, b' ');
        self.word(second, b'\n');
    }
}
