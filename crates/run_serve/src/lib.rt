//! `run`: a script is read, and run on threads.
#![tactic(auto)]

mod serving;

pub use serving::serve;

#[cfg(test)]
mod tests;
