//! What the words after the program's name ask for.

/// A plan of the words.
#[derive(Clone, Copy, Debug, PartialEq, Eq)]
pub enum Plan {
    /// `one S C` and `one S C EVERY`: all lines on one thread, over S slabs of C buffers, with a settle after so many commands, and after
    /// none but the last where that is 0.
    One(u32, u32, Option<u32>),
    /// `check W`: a script for W workers, and a printed run of it, which is checked.
    Check(u32),
}
