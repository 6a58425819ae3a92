//! The gate: where a test can hold a worker or a mover before its next step.

/// Called before each command of a worker and each scan of a mover. The program's own gate does nothing. A mover comes to a scan
/// only once its share of the commands is carried out, so a gate that holds a worker until a scan whose share that worker hasn't
/// brought about can hang a run.
pub trait Gate: Sync {
    /// `worker` is counted from 1, and a mover's number stands above the workers'. `command` is the number of the
    /// worker's command or of the scan, from 1.
    fn before(&self, worker: u32, command: u32);
}
