//! `one`: the commands of a script in the order of the file, on one thread.
#![tactic(auto)]

mod bench;
mod one;
mod opened;

pub use one::serve_one;
pub use opened::OpenOne;

#[cfg(test)]
mod tests;
