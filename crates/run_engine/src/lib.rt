//! A run on threads: everything opened, the workers and the movers joined, everything closed, settled and printed.
#![tactic(auto)]

mod closing;
mod crew;
mod going;
mod open_run;
mod opening;
mod over_run;
mod parts;
mod plan;
mod quotas;
mod ran;
mod running;
mod shared;

pub use open_run::OpenRun;
pub use over_run::OverRun;
pub use plan::RunPlan;
pub use ran::Ran;

#[cfg(test)]
mod tests;
