//! The report on a run: its lines, written from a cache and from counts.
#![tactic(auto)]

mod lines;
mod report;

pub use report::{write_part, write_report};

#[cfg(test)]
mod tests;
