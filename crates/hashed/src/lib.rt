// The hashed finder: an item is looked for in one chain of slots, chosen by its mark.
// Uses `items` for the kinds that it finds, and `finders` for what a finder means.
#![tactic(auto)]

pub mod finder;
pub mod slot;
mod table;
