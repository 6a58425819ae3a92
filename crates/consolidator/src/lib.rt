//! Consolidation: settling a cache, whose objects are moved onto as few slabs as they need, and the work of a mover beside threads.
#![tactic(auto)]

mod carrying;
mod driving;
mod laws;
mod pace;
mod records;
mod scanning;
mod scans;
mod tally;

pub use carrying::carry;
pub use driving::{MoverPlan, drive};
pub use laws::{law_notes, law_tally};
pub use pace::Pace;
pub use records::settle_records;
pub use scanning::scan;
pub use scans::settle;
pub use tally::{add, no_moves};

#[cfg(test)]
mod tests;
