//! A lock whose value stands for a history: each turn's result is the object's at one place of one history.
#![tactic(auto)]

mod awaiting;
mod deal;
mod gather;
mod hold;
mod lock;
mod pass;
mod rule;
mod steps;
mod told;

pub use lock::HistLock;
pub use pass::Pass;
pub use told::{Told, Turn};

#[cfg(test)]
mod tests;
