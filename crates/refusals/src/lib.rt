// Why a call is refused (01: Operations and their numbers; 02), by what is wrong, and the number that says so.
#![tactic(auto)]

ghost use Rattle.std.specs.Prelude.{◌≡◌};
ghost use Rattle.refusals.specs.Number.{number_of, answer_number};

// 01's and 02's refusals, in the order of their numbers.
#[derive(Clone, Copy, PartialEq, Eq, Debug)]
pub enum Refusal {
    // 1: no profile has that number
    Profile,
    // 2: a word, a message or an output has the wrong length
    Length,
    // 3: a symbol is neither one of the profile's levels nor, where it may be, an erasure
    Symbol,
    // 4: no codeword is near enough
    Unreadable,
    // 5: the bytes are not 104 times a number from 2 to 256
    SheetLength,
    // 6: the sheet is not sound
    Unsound,
    // 7: the box number is not 1 to 40
    BoxNumber,
    // 8: no cell is free
    Full,
    // 9: the line has not its form
    Form,
    // 10: there is no such record
    NoRecord,
    // 11: more than two symbols are erased
    Erasures,
    // 12: the edition is neither 13 nor 18
    Edition,
    // 13: the word is read, but not as clean
    NotClean,
    // 14: the line rule is neither 1 nor 2
    LineRule,
}

// The number of a refusal.
impl From<Refusal> for u8 {
    ghost from_gives = { λ r n. n ≡ number_of r };

    fn from(refusal: Refusal) -> u8 {
        match refusal {
            Refusal::Profile => 1,
            Refusal::Length => 2,
            Refusal::Symbol => 3,
            Refusal::Unreadable => 4,
            Refusal::SheetLength => 5,
            Refusal::Unsound => 6,
            Refusal::BoxNumber => 7,
            Refusal::Full => 8,
            Refusal::Form => 9,
            Refusal::NoRecord => 10,
            Refusal::Erasures => 11,
            Refusal::Edition => 12,
            Refusal::NotClean => 13,
            Refusal::LineRule => 14,
        }
    }
}

// The number of an answer that is done or refused; 0 where it is done.
pub fn number(answer: Result<(), Refusal>) -> u64
    ensures { result ≡ answer_number answer }
{
    match answer {
        Ok(()) => 0,
        Err(refusal) => u64::from(u8::from(refusal)),
    }
}
