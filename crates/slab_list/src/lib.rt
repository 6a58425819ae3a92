//! The slabs of one cache: which are listed, which of their buffers are out, counts and marks, and the order in which they serve.
#![tactic(auto)]

mod index;
mod line;
mod list;
mod order;
mod table;
#[cfg(test)]
mod tests;

pub use list::SlabList;
