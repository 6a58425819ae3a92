//! The summary of a run: how many commands it had, how often each kind of reply came, and how many records live.
#![tactic(auto)]

mod counts;
mod laws;
mod lines;
mod summary;

pub use laws::law_summary;
pub use summary::write_summary;

#[cfg(test)]
mod tests;
