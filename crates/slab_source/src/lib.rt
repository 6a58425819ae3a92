//! A bounded source of slabs, which are numbers.
#![tactic(auto)]

mod supply;
#[cfg(test)]
mod tests;

pub use supply::Supply;
