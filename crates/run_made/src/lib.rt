//! `gen`: a script is made from a seed and run on threads, and what came of it is summed up.
#![tactic(auto)]

mod making;

pub use making::made;

#[cfg(test)]
mod tests;
