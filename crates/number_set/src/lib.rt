//! Sets of numbers below a bound, as a tree of 64 children a node. How many of its words a search reads is counted.
#![tactic(auto)]

mod bits;
mod levels;
mod set;
#[cfg(test)]
mod tests;

pub use set::NumberSet;
