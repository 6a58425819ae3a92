//! Magazines of buffers, and a worker's pair of them.
#![tactic(auto)]

mod pair;
mod rounds;
#[cfg(test)]
mod tests;

pub use pair::{Cpu, Pair};
pub use rounds::{Magazine, ROUNDS, Rounds};
