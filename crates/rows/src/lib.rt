// The row of counters that every answer is read off, and the theorems that make the answers true.
// Uses `items` for the kinds of item that are counted.
#![tactic(auto)]

pub mod entry;
pub mod promises;
