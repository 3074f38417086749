// Why a move of the counters is not made.

#[derive(Clone, Copy, Debug, PartialEq, Eq, Hash)]
pub enum Unmoved {
    // There is no counter for it: none in use at the place, none unused, or none in use at all.
    NoCounter,
    // As many hits were counted as can be.
    AtLimit,
}
