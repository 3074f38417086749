// The summary: hits on a bounded number of counters in lent memory, and what they answer.
// Uses `counters` for the table, `finders` to find an item's counter, `calls` for what each call answers, and `lists` for the lists.
#![tactic(auto)]

mod admission;
mod counting;
mod figures;
pub mod impls;
mod leaders;
pub mod opening;
pub mod promises;
pub mod summary;
