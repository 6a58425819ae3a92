//! Moves: what a client answers.
ghost use Rattle.std.specs.Prelude.{◌≡◌, ℕ, ◌+◌, ◌%◌, ◌^◌, ◌<◌, Option, length};
ghost use Rattle.kmem_buf.specs.Homes.{Homes, IsBufferOf};
ghost use Rattle.kmem_buf.specs.Answers.{Flags, verdict_of, flagged, IsAnswerTo, brought_by, fetched_by};
ghost use Rattle.kmem_buf.specs.declared.client.Verdict.{Verdict};

use crate::buf::Buf;
use crate::kind::Kind;
use std::sync::Wait;

/// A client's answer to the question whether the object of one buffer could move to another, with the buffers that it hands back.
#[derive(Drop)]
pub enum Answer<K: Kind> {
    /// The object has moved. The old buffer comes back.
    Yes(Buf<K>),
    /// The object can never move. The new buffer comes back.
    No(Buf<K>),
    /// The object is in use now. The new buffer comes back.
    Later(Buf<K>),
    /// The object is known and no longer needed. The old buffer comes back, and the new one.
    DontNeed(Buf<K>, Buf<K>),
    /// The client doesn't know the object. The new buffer comes back.
    DontKnow(Buf<K>),
}

/// Which of the five an answer is.
#[derive(Clone, Copy, PartialEq, Eq, Debug)]
pub enum Verdict {
    Yes,
    No,
    Later,
    DontNeed,
    DontKnow,
}

/// A client that can be asked to move an object.
pub trait MoveClient<K: Kind> {
    // No value of it is made.
    type Sign;

    // The homes of the cells that it takes part in, and of the stubs of their moves.
    ghost home: { Self → Homes };
    // What a client shows of itself, and no answer changes.
    ghost sign: { Self → Self.Sign };
    // Which answers it has given.
    ghost flags: { Self → Flags };
    // The last answer.
    ghost last: { Self → Option Verdict };
    // The number of its answers, modulo 2^64.
    ghost answered: { Self → ℕ };
    // The buffers that it has put among its objects.
    ghost brought: { Self → ℕ };
    // The buffers that it has taken from among them.
    ghost fetched: { Self → ℕ };

    /// Asks whether the object in the buffer `from` could move to the buffer `to`.
    fn ask<R: Wait>(&mut self, rt: &R, from: u32, to: Buf<K>) -> Answer<K>
        requires from { from < length (home self.old).cells }
        requires to { IsBufferOf (home self.old).cells to × K.constructed to.object }
        requires counts { (brought self.old < 2 ^ 62) × (fetched self.old < 2 ^ 62) }
        ensures buffers { IsAnswerTo K.constructed (home self.old).cells from to.number result }
        ensures stays { (home self.new ≡ home self.old) × (sign self.new ≡ sign self.old) }
        ensures flags { flags self.new ≡ flagged (verdict_of result) (flags self.old) }
        ensures last { last self.new ≡ Some (verdict_of result) }
        ensures answered { answered self.new ≡ (answered self.old + 1) % 2 ^ 64 }
        ensures counts { (brought self.new ≡ brought self.old + brought_by (verdict_of result)) ×
            (fetched self.new ≡ fetched self.old + fetched_by (verdict_of result)) };
}

impl<K: Kind> Answer<K> {
    /// Which of the five it is.
    pub fn verdict(&self) -> Verdict
        ensures { result ≡ verdict_of self.now }
    {
        match self {
            Answer::Yes(_) => Verdict::Yes,
            Answer::No(_) => Verdict::No,
            Answer::Later(_) => Verdict::Later,
            Answer::DontNeed(_, _) => Verdict::DontNeed,
            Answer::DontKnow(_) => Verdict::DontKnow,
        }
    }
}
