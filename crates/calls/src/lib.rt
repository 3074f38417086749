// What the calls of a summary answer, and what is promised of every history of calls.
// Uses `items` for the kinds that are counted, `finders` for where counters are found, `rows` for what
// counting means, and `table` for the row with the places of its counters.
#![tactic(auto)]

pub mod answers;
pub mod promises;
pub mod refusal;
