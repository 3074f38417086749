// Why a summary says no.
ghost use Rattle.std.specs.Prelude.{◌≡◌};
ghost use Rattle.calls.specs.Refusals.{number_of};

// Each refusal's value is its number.
#[derive(Clone, Copy, Debug, PartialEq, Eq, Hash)]
pub enum Refusal {
    // No places were supplied, or more than 512.
    Size = 1,
    // The finder has less room than there are places.
    Capacity = 2,
    // The finder holds something already.
    Occupied = 3,
    // As many hits were accepted as can be counted.
    Limit = 4,
    // The number of positions asked for is 0, or above the number of places.
    Rank = 5,
    // The support p/q has p = 0, p above q, or q above 1,000,000.
    Support = 6,
    // The list is longer than the lines supplied.
    Lines = 7,
    // Foreign: the finder does not belong to the summary.
    Foreign = 8,
}

impl From<Refusal> for u8 {
    ghost from_gives = { λ refusal number. number ≡ number_of refusal };

    fn from(refusal: Refusal) -> u8 {
        refusal as u8
    }
}
