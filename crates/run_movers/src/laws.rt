//! The law of what both movers made. It is the contract of a function with an empty body.

ghost use Rattle.std.specs.Prelude.{◌≡◌, ◌+◌, ◌<◌, false, ℕ, List, All};
ghost use Rattle.kmem_model.specs.CacheState.{CacheSizes, CacheState, has_pending};
ghost use Rattle.kmem_model.specs.CacheHistory.{Reaches};
ghost use Rattle.kmem_model.specs.CacheCounts.{total, entries_in, entries_by, moves_begun, moves_ended};
ghost use Rattle.kmem_model.specs.declared.cache_entry.CacheEntry.{CacheEntry};
ghost use Rattle.run_movers.specs.Histories.{AreWorkersBefore, IsOfMoversAlone};

use kmem_model::law_counts;

/// What weighs in movers' entries alone weighs in a history of workers and two movers as much as in both movers' entries. So do the moves that are begun
/// and those that are ended; and where both movers together have ended as many moves as they began, none is pending.
pub fn law_movers()
    ensures sums { (weight : CacheEntry → ℕ) (workers : ℕ) (history : List (ℕ × CacheEntry)) → IsOfMoversAlone weight →
        All (λ e. e.0 < workers + 2) history → AreWorkersBefore workers history →
        total weight (entries_in history) ≡ total weight (entries_by workers history) + total weight (entries_by (workers + 1) history) }
    ensures begun { IsOfMoversAlone moves_begun }
    ensures ended { IsOfMoversAlone moves_ended }
    ensures calm { (sizes : CacheSizes) (workers : ℕ) (history : List (ℕ × CacheEntry)) (s : CacheState) → Reaches sizes history s →
        All (λ e. e.0 < workers + 2) history → AreWorkersBefore workers history →
        total moves_begun (entries_by workers history) + total moves_begun (entries_by (workers + 1) history) ≡
        total moves_ended (entries_by workers history) + total moves_ended (entries_by (workers + 1) history) → has_pending s ≡ false }
{
    law_counts();
}

#[cfg(test)]
mod tests {
    use super::law_movers;

    #[test]
    fn the_law_can_be_called() {
        law_movers();
    }
}
