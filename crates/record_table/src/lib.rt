//! Records that threads share: a lock over the heap of records and the pen of the known words, and one history of the commands.
#![tactic(auto)]

mod asker;
mod closing;
mod laws;
mod log;
mod mover;
mod opening;
mod records;
mod session;
mod shares;
mod table;
mod turns;

pub use asker::{Asker, AskerSign};
pub use laws::{law_held, law_tags};
pub use log::RecordLog;
pub use mover::Mover;
pub use session::Session;
pub use table::RecordTable;

#[cfg(test)]
mod tests;
