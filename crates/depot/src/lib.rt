//! The depot: full and empty magazines that the workers of a cache share. No call of it waits.
#![tactic(auto)]

mod drain;
mod gather;
mod places;
mod room;
mod rule;
mod seat;
mod shared_depot;
mod steps;
#[cfg(test)]
mod tests;

pub use seat::DepotSeat;
pub use shared_depot::Depot;
