//! The queue of moves: jobs that wait to be carried out. Threads push and pop them, each by a seat of its own, with no lock.
#![tactic(auto)]

mod close;
mod count;
mod deal;
mod move_queue;
mod ring;
mod room;
mod rule;
mod seat;
#[cfg(test)]
mod tests;

pub use move_queue::MoveQueue;
pub use seat::{QueueLog, QueueSeat};
