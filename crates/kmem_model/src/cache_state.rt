//! The parts of a cache's state that bodies hold as values too.
#![tactic(auto)]

/// Where a slab stands.
#[derive(Clone, Copy, Debug, PartialEq, Eq)]
pub enum Standing {
    /// It is in the source.
    Source,
    /// The cache lists it.
    Listed,
    /// It has no buffer out, and the cache keeps it until no move is pending.
    Dead,
}

/// The kind of the scan that was started last.
#[derive(Clone, Copy, Debug, PartialEq, Eq)]
pub enum Mode {
    /// No buffer may be asked about.
    Off,
    /// Buffers of sparse slabs may be asked about.
    Mild,
    /// Buffers of every partial slab may be asked about.
    Desperate,
}

/// A move that has begun and not ended: the object at `from` is to be moved to `to`.
#[derive(Clone, Copy, Debug, PartialEq, Eq)]
pub struct PendingMove {
    /// The old buffer.
    pub from: u32,
    /// The new buffer.
    pub to: u32,
}
