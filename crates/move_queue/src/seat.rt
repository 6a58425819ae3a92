//! A seat of a queue, and a note of its two numbers.
ghost use Rattle.std.specs.Prelude.{◌≡◌, [], length};
ghost use Rattle.move_queue.specs.Seats.{seat_state, known_by, IsSeated};

use crate::rule::{Mark, Place};
use kmem_buf::Kind;
use std::marker::Model;

/// The right to use a queue, for one thread. Where one was dropped, the queue can't be closed.
#[derive(Drop)]
pub struct QueueSeat<K: Kind> {
    pub(crate) pass: Place<K>,
    pub(crate) mark: Mark,
    pub(crate) left: u32,
    pub(crate) pushed: u64,
    pub(crate) refused: u64,
}

impl<K: Kind> Model for QueueSeat<K> {
    ghost use Rattle.std.specs.Prelude.{◌≡◌, [], length};
    ghost use Rattle.move_queue.specs.Queue.{QueueSeatState};
    ghost use Rattle.move_queue.specs.Seats.{seat_state, known_by, IsSeated};

    ghost Value = { QueueSeatState K.Object };

    ghost view = { λ s. seat_state s.pass.table_id s.mark.table_id (known_by s.pass) s.mark.me.0 s.refused };

    ghost invariant = { λ s. IsSeated (known_by s.pass) s.mark.me.0 × (s.pass.me.1 ≡ []) × (s.mark.me.1 ≡ [])
        × (s.left ≡ (known_by s.pass).left) × (s.pushed ≡ length (known_by s.pass).pushed) };
}

impl<K: Kind> QueueSeat<K> {
    // What it knows of the ring, and of the count.
    pub(crate) fn part(self) -> (Place<K>, Mark)
        ensures seat { self ≡ seat_state result.0.table_id result.1.table_id (known_by result.0) result.1.me.0 self.refused }
        ensures agree { IsSeated (known_by result.0) result.1.me.0 }
        ensures free { (result.0.me.1 ≡ []) × (result.1.me.1 ≡ []) }
    {
        let QueueSeat {
            pass,
            mark,
            left: _,
            pushed: _,
            refused: _,
        } = self;
        (pass, mark)
    }

    /// How many pushes it may make yet.
    pub fn left(&self) -> u32
        ensures { result ≡ self.now.left }
    {
        self.left
    }

    /// How many jobs it pushed.
    pub fn pushed(&self) -> u64
        ensures { result ≡ length self.now.pushed }
    {
        self.pushed
    }

    /// How many jobs came back to it.
    pub fn refused(&self) -> u64
        ensures { result ≡ self.now.refused }
    {
        self.refused
    }

    /// Its two numbers, as they are now.
    pub fn log(&self) -> QueueLog
        ensures { result ≡ record { pushed = length self.now.pushed; refused = self.now.refused } }
    {
        QueueLog {
            pushed: self.pushed,
            refused: self.refused,
        }
    }
}

/// The two numbers of a seat, as they were when they were noted.
#[derive(Drop)]
pub struct QueueLog {
    pushed: u64,
    refused: u64,
}

impl Model for QueueLog {
    ghost use Rattle.move_queue.specs.Queue.{QueueLogState};

    ghost Value = { QueueLogState };

    ghost view = { λ l. record { pushed = l.pushed; refused = l.refused } };
}

impl QueueLog {
    pub fn pushed(&self) -> u64
        ensures { result ≡ self.now.pushed }
    {
        self.pushed
    }

    pub fn refused(&self) -> u64
        ensures { result ≡ self.now.refused }
    {
        self.refused
    }
}
