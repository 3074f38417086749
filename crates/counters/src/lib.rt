// The counters of a summary in the memory that is lent: the table with its structure in the type, how many counters are
// in use, and how many hits they stand for. The meaning is the placed row; the moves are one hit each.
#![tactic(auto)]

pub mod counters;
