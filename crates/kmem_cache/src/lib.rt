//! The shared cache: many threads allocate and free, and one history tells what they did.
#![tactic(auto)]

mod closing;
mod count;
mod flush;
mod locked;
mod log;
mod moving;
mod opening;
mod reap;
mod room;
mod rounds;
mod seat;
mod shared_cache;
mod turns;

pub use locked::CacheRefused;
pub use log::CacheLog;
pub use room::Room;
pub use seat::CacheSeat;
pub use shared_cache::Cache;

#[cfg(test)]
mod tests;
