//! The movers of a run: each makes its scans and carries jobs, in a thread of its own.
#![tactic(auto)]

mod laws;
mod mover;
mod pair;
mod shares;

pub use laws::law_movers;
pub use mover::MoverTask;
pub use pair::run_movers;
pub use shares::Shares;
