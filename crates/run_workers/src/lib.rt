//! The workers of a run: each carries out its commands, in a thread of its own.
#![tactic(auto)]

mod crew;
mod laws;
mod worker;

pub use crew::run_workers;
pub use laws::law_shared;
pub use worker::Worker;
