//! Counts of moves by how they ended.

/// How many moves were begun, and how many ended by each answer or unasked.
#[derive(Clone, Copy, Debug, PartialEq, Eq, Default)]
pub struct Tally {
    pub begun: u64,
    pub yes: u64,
    pub no: u64,
    pub later: u64,
    pub dont_need: u64,
    pub dont_know: u64,
    pub gone: u64,
}
