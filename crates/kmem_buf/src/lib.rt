//! What ties an object behind a lock to its holder outside: stubs and slips, and the buffers of a cache with their cells.
#![tactic(auto)]

mod board;
mod buf;
mod client;
mod home;
mod kind;
mod owner;
mod shown;
mod stub;
#[cfg(test)]
mod tests;
mod twice;

pub use buf::{Buf, Buffer, Cell, Cells};
pub use client::{Answer, MoveClient, Verdict};
pub use home::{FullNote, Home};
pub use kind::Kind;
pub use owner::{Owner, Stand};
pub use stub::{Slip, Stub};
