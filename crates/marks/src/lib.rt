//! One word for each buffer, that says whether its client knows the object there. Only the client's pen writes the words,
//! and any thread with a seat reads one by a single load.
#![tactic(auto)]

mod marks_table;
mod rule;
mod steps;
#[cfg(test)]
mod tests;

pub use marks_table::{MarkPen, MarkSeat, Marks};
