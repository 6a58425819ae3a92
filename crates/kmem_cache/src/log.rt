//! The history of a closed cache.
use kmem_buf::Home;
use kmem_model::CacheEntry;
use std::marker::Model;

/// The history of a cache that was closed, which alone makes one. No copy can be made.
#[derive(Drop)]
pub struct CacheLog {
    pub(crate) entries: Vec<(u32, CacheEntry)>,
    pub(crate) home: Home,
}

impl Model for CacheLog {
    ghost use Rattle.kmem_cache.specs.Closing.{CacheLogState};

    ghost Value = { CacheLogState };

    ghost view = { λ l. record { entries = l.entries.items; home = l.home } };
}

impl CacheLog {
    ghost use Rattle.std.specs.Prelude.{◌≡◌};

    /// Its entries, each with the number of the pass that made it.
    pub fn entries(&self) -> &[(u32, CacheEntry)]
        ensures { result.now ≡ self.now.entries }
    {
        &self.entries
    }
}
