//! What the words after the program's name ask for, `run` and `gen` included.

use kmem_model::Plan;

/// A program of the words.
#[derive(Clone, Copy, Debug, PartialEq, Eq)]
pub enum Program {
    /// `one` and `check`: a script is read, and the plan says how.
    Plain(Plan),
    /// `run S C W SCANS` and `run S C W SCANS desperate`: the lines on W workers, over S slabs of C buffers, with so many scans, which are
    /// desperate where that word is there.
    Run {
        slabs: u32,
        chunks: u32,
        workers: u32,
        scans: u32,
        desperate: bool,
    },
    /// `gen SEED W N`: a script of N commands for W workers, which is made from the seed.
    Gen {
        seed: u32,
        workers: u32,
        commands: u32,
    },
}
