// What is counted: the laws that every kind of item keeps, and two kinds, labels and articles.
// Uses nothing but `std`, and `thiserror` for the texts of the faults.
#![tactic(auto)]

pub mod article;
pub mod fault;
pub mod kind;
pub mod label;
#[cfg(test)]
mod tests;
