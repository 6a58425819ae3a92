//! The entries of a record history.
#![tactic(auto)]

use kmem_text::{Command, Reply};

/// One entry of a record history: a command of a worker, its number among that worker's commands, counted from 1, and its reply. Which
/// worker it is stands beside the entry, as the number of its pass: worker w has pass w - 1.
#[derive(Clone, Copy)]
pub struct RecordEntry {
    pub number: u32,
    pub command: Command,
    pub reply: Reply,
}
