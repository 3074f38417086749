// Where an item's counter stands: what every finder means, and the straight finder.
// Uses `items` for the kinds that it finds.
#![tactic(auto)]

pub mod finder;
pub mod refusal;
pub mod straight;
