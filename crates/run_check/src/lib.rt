//! Checking a printed run against its script: whether each reply is one that the records give along the history.
#![tactic(auto)]

mod checking;
mod fault;
mod history;
mod judging;
mod lines;
mod parts;
mod places;
mod plain_map;
mod replies;
mod share;
mod stepping;
mod taking;
mod told;
mod walking;

pub use checking::{check, read_input};
pub use fault::Fault;
pub use judging::script_in;

#[cfg(test)]
mod tests;
