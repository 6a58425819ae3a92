//! The object cache: objects of a kind in buffers on slabs. Each call is one entry of the entry rules of `kmem_model`.
#![tactic(auto)]

mod asked;
mod cache;
mod counts;
mod moves;
mod scan;
mod stock;
mod tally;
#[cfg(test)]
mod tests;

pub use cache::{AllocRefused, BeginRefused, ObjectCache, SlabLine};
pub use moves::{Begun, Job, Pending};
pub use tally::Tally;
