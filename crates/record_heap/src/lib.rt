//! Where the records are kept: objects in buffers of a cache, found by address.
#![tactic(auto)]

mod addresses;
mod cell;
mod heap;
mod hold;
mod parts;
mod rack;
mod shelf;

pub use cell::{RecordCell, RecordKind};
pub use heap::{Offer, PutEnd, RecordHeap, RecordMeaning, RecordTenant};
pub use hold::Hold;

#[cfg(test)]
mod tests;
