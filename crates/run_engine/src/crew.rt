//! Who works in a run.

use run_movers::MoverTask;
use run_workers::Worker;

/// The workers, and the two movers.
#[derive(Drop)]
pub struct Crew {
    pub workers: Vec<Worker>,
    pub first: MoverTask,
    pub second: MoverTask,
}
