// What is told of an error.
ghost use Rattle.std.specs.Prelude.{◌≡◌};
ghost use Rattle.locating_theory.specs.ErrorPosition.{is_error};
ghost use Rattle.locator.specs.Steps.{Gain};

use crate::clues::Clues;
use modular::negative;
use profiles::Edition;

// Whether e is an error (02, T-02): from -(q - 1) to q - 1, and never 0.
#[tactic(auto, unfolding(locating_theory::specs::ErrorPosition::is_error))]
pub(crate) fn is_error(q: u8, e: i32) -> bool
    ensures { result ≡ is_error q e }
{
    e != 0 && e.unsigned_abs() < u32::from(q)
}

impl Clues {
    // What the components gain where the error e is taken out of a symbol: in the edition of 2018 they lose it (02, T-03).
    #[tactic(auto, using(crate::proofs::Erring::lack_upto, crate::proofs::Erring::gain_13, crate::proofs::Erring::gain_18))]
    pub(crate) fn gain_without(self, e: i32) -> u8
        ensures { Gain self.row e result }
    {
        let lack = negative(self.row.q, e);
        match self.row.edition {
            Edition::Of2013 => lack,
            Edition::Of2018 => self.row.q - lack,
        }
    }
}
