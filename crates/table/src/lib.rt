// The table that a summary counts in: m places, each with room for one counter and one bucket. Counters of one count
// are in one bucket; the buckets in use are linked in rising order of their counts, and the others are linked as free.
// This crate moves counters and buckets within the lent places, each move by a constant number of accesses. It knows
// lists, places and counts, and nothing of items or of who asks.
// The places are lent and there is no heap, so a link is the number of a place.
#![tactic(auto)]

use crate::lists::Lists;
use crate::place::Place;

mod fields;
pub mod lists;
pub mod moves;
pub mod place;
pub mod reads;

/// The lent places with the ends of their lists of buckets. It owes nothing, so that a counter may be out of it for a while.
#[derive(Drop)]
pub struct Table<'a, T> {
    pub places: &'a mut [Place<T>],
    pub lists: Lists,
}
