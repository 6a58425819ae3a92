//! The entries of a cache's history.
#![tactic(auto)]

/// What a client answers when it is asked to move an object (the five answers of the theory statement of kmem.c).
#[derive(Clone, Copy, Debug, PartialEq, Eq)]
pub enum Said {
    /// The object was moved.
    Yes,
    /// The object can never be moved.
    No,
    /// The object is in use now.
    Later,
    /// The object is known and no longer needed.
    DontNeed,
    /// The client does not know the object.
    DontKnow,
}

/// One entry of a cache's history. A buffer is a number, and so is a pending move.
#[derive(Clone, Copy, Debug, PartialEq, Eq)]
pub enum CacheEntry {
    /// This buffer was allocated.
    Alloc(u32),
    /// An allocation was refused, since every buffer is out.
    Full,
    /// This buffer was freed.
    Free(u32),
    /// A scan was started, a desperate one or a mild one.
    Scan(bool),
    /// The move with this number was begun, from this buffer to that one.
    Begin(u64, u32, u32),
    /// There was no move to begin.
    Idle,
    /// The move with this number was ended unasked, since its old buffer was free.
    Gone(u64),
    /// The move with this number was ended by this answer.
    End(u64, Said),
    /// Every count and mark was cleared.
    Forget,
}
