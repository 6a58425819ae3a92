//! The outside of a run: sources and sinks that count their faults, in memory and over std's streams, and the gate
//! that a run calls before each command.
#![tactic(auto)]

mod gate;
mod memory;
mod standard;
mod streams;
mod whole;

pub use gate::Gate;
pub use memory::{MemSink, MemSource};
pub use standard::{StdSink, StdSource};
pub use streams::{Failed, Sink, Source};
pub use whole::{ReadAllError, read_all, write_all};

#[cfg(test)]
mod tests;
