//! Gates of tests.

use kmem_io::Gate;
use std::sync::atomic::{AtomicBool, Ordering};
use std::thread::yield_now;

/// The most turns that a thread is held.
const TURNS: u32 = 10_000_000;

/// The gate that holds nobody.
pub struct Open;

impl Gate for Open {
    fn before(&self, _worker: u32, _command: u32) {}
}

/// A worker or a mover, and the number of its step.
pub type Step = (u32, u32);

/// Holds who comes to a step until another step was called.
#[derive(Drop)]
pub struct Hold {
    at: Step,
    until: Step,
    called: AtomicBool,
    released: AtomicBool,
}

impl Hold {
    pub fn new(at: Step, until: Step) -> Hold {
        Hold {
            at,
            until,
            called: AtomicBool::new(false),
            released: AtomicBool::new(false),
        }
    }

    fn note(&self, step: Step) {
        if step == self.until {
            self.called.store(true, Ordering::SeqCst);
        }
    }

    fn wait(&self, step: Step) {
        if step != self.at {
            return;
        }
        for _ in 0..TURNS {
            if self.called.load(Ordering::SeqCst) {
                self.released.store(true, Ordering::SeqCst);
                return;
            }
            yield_now();
        }
    }
}

/// Two such holds.
#[derive(Drop)]
pub struct Meeting {
    pub one: Hold,
    pub other: Hold,
}

impl Meeting {
    /// Whether both were released before they ran out of turns.
    pub fn is_met(&self) -> bool {
        self.one.released.load(Ordering::SeqCst) && self.other.released.load(Ordering::SeqCst)
    }
}

impl Gate for Meeting {
    fn before(&self, worker: u32, command: u32) {
        let step = (worker, command);
        self.one.note(step);
        self.other.note(step);
        self.one.wait(step);
        self.other.wait(step);
    }
}
