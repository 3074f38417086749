// The two lists that are read off the counters: the frequent list of a support and the top list of k. Each is found by
// walking the row from the high end, no further than the answer needs, and is written only once nothing refuses it.
#![tactic(auto)]

pub mod checks;
pub mod figures;
pub mod frequent;
mod lines;
pub mod support;
pub mod top;
pub mod walk;
