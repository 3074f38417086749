// Tests that span crates: every finder is put through the same calls, and counts the same.
// Uses `items`, `finders`, `hashed`, `table`, `counters`, `calls` and `summary`.
#![tactic(auto)]

#[cfg(test)]
mod counted_alike;
#[cfg(test)]
mod finders_alike;
