// The edition that a box follows (02, T-03), by its number.
ghost use Rattle.std.specs.Prelude.{◌≡◌};
ghost use Rattle.profiles.specs.Edition.{looked_up_edition, edition_at};

#[derive(Clone, Copy, PartialEq, Eq, Debug)]
pub enum Edition {
    Of2013,
    Of2018,
}

// The edition of a number, 13 or 18; none, 02's number 12, for any other.
pub fn edition_of(number: usize) -> Option<Edition>
    ensures { looked_up_edition result ≡ edition_at number }
{
    match number {
        13 => Some(Edition::Of2013),
        18 => Some(Edition::Of2018),
        _ => None,
    }
}
