//! What follows a run: its leftovers are freed, and the cache is settled once.
#![tactic(auto)]

mod leftovers;
mod meeting;
mod winding;

pub use leftovers::free_leftovers;
pub use winding::wind_up;
