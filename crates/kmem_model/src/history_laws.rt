//! Laws of histories. Each is the contract of a function with an empty body.
#![tactic(auto)]

ghost use Rattle.std.specs.Prelude.{◌≡◌, ◌↔◌, ◌+◌, ◌<◌, ◌++◌, All, true, false, ℕ, List, is_some};
ghost use Rattle.kmem_model.specs.declared.record_entry.RecordEntry.{RecordEntry};
ghost use Rattle.kmem_model.specs.declared.cache_entry.CacheEntry.{CacheEntry};
ghost use Rattle.kmem_model.specs.Records.{RecordMap, no_records, held_at, tag_place};
ghost use Rattle.kmem_model.specs.History.{worker_of, map_after, IsLegalHistory, IsEntryWithin, in_use, own_entries, IsTaken, has_held, has_fixed};
ghost use Rattle.kmem_model.specs.OneRun.{is_fixed};
ghost use Rattle.kmem_model.specs.CacheState.{CacheSizes, CacheState, out_count, pending_count};
ghost use Rattle.kmem_model.specs.CacheHistory.{Reaches, Follows, state_after, entered_all};
ghost use Rattle.kmem_model.specs.CacheCounts.{made_out, made_free, moves_begun, moves_ended, total, total_before, entries_in};
ghost use Rattle.kmem_model.specs.SettleWhole.{IsWhole};

/// A history followed by another is legal exactly where both are, the second from the map after the first.
pub fn law_history()
    ensures legal { (map : RecordMap) (front rest : List (ℕ × RecordEntry)) →
        IsLegalHistory map (front ++ rest) ↔ (IsLegalHistory map front × IsLegalHistory (map_after map front) rest) }
    ensures after { (map : RecordMap) (front rest : List (ℕ × RecordEntry)) →
        map_after map (front ++ rest) ≡ map_after (map_after map front) rest }
{}

/// Which tags are in use in the map after a legal history, and what is fixed there. A worker's tag is in use exactly where the worker's own
/// entries leave it so: one of them took it, by a `hold` with `ok`, and none since gave it up, by a `drop` with `ok`.
pub fn law_taken()
    ensures in_use { (names workers pass tag : ℕ) (h : List (ℕ × RecordEntry)) → tag < 8 → pass < workers →
        IsLegalHistory (no_records names workers) h → All (IsEntryWithin names workers) h →
        is_some (held_at (map_after (no_records names workers) h) (tag_place (worker_of pass) tag)) ≡
        in_use tag false (own_entries pass h) }
    ensures taken { (tag : ℕ) (entries : List RecordEntry) → in_use tag false entries ≡ true → IsTaken tag entries }
    // a tag is in use only after some `hold`, and a record is fixed only after some `fix`, with `ok`
    ensures held { (names workers place : ℕ) (h : List (ℕ × RecordEntry)) → IsLegalHistory (no_records names workers) h →
        is_some (held_at (map_after (no_records names workers) h) place) ≡ true → has_held h ≡ true }
    ensures fixed { (names workers id : ℕ) (h : List (ℕ × RecordEntry)) → IsLegalHistory (no_records names workers) h →
        is_fixed (map_after (no_records names workers) h) id ≡ true → has_fixed h ≡ true }
{}

/// What the entries of a history make out and free adds up to the buffers that are out, and what they begin and end to the moves that are
/// pending, at the end of a legal history and along any entries that lead from a whole cache.
pub fn law_counts()
    ensures out { (sizes : CacheSizes) (history : List (ℕ × CacheEntry)) (s : CacheState) → 0 < sizes.chunks → Reaches sizes history s →
        out_count s + total made_free (entries_in history) ≡ total made_out (entries_in history) }
    ensures pending { (sizes : CacheSizes) (history : List (ℕ × CacheEntry)) (s : CacheState) → Reaches sizes history s →
        pending_count s + total moves_ended (entries_in history) ≡ total moves_begun (entries_in history) }
    ensures out_along { (s t : CacheState) (entries : List CacheEntry) → IsWhole s → Follows s entries t →
        out_count t + total made_free entries ≡ out_count s + total made_out entries }
    ensures pending_along { (s t : CacheState) (entries : List CacheEntry) → Follows s entries t →
        pending_count t + total moves_ended entries ≡ pending_count s + total moves_begun entries }
    // a sum over a history is the sum over its passes' own entries, and that over two lists of entries is the sum of both
    ensures passes { (passes : ℕ) (weight : CacheEntry → ℕ) (history : List (ℕ × CacheEntry)) →
        All (λ (e : ℕ × CacheEntry). e.0 < passes) history →
        total_before passes weight history ≡ total weight (entries_in history) }
    ensures lists { (weight : CacheEntry → ℕ) (front rest : List CacheEntry) →
        total weight (front ++ rest) ≡ total weight front + total weight rest }
{}

/// Entries that lead from one state to another, and further ones, lead on; the entries of a history lead where the history does.
pub fn law_follows()
    ensures chain { (front rest : List CacheEntry) (s t u : CacheState) → Follows s front t → Follows t rest u →
        Follows s (front ++ rest) u }
    ensures history { (history : List (ℕ × CacheEntry)) (s : CacheState) → state_after s history ≡ entered_all s (entries_in history) }
    ensures whole { (s t : CacheState) (entries : List CacheEntry) → IsWhole s → Follows s entries t → IsWhole t }
{}

#[cfg(test)]
mod tests {
    use super::{law_counts, law_follows, law_history, law_taken};

    #[test]
    fn laws_can_be_called() {
        law_history();
        law_taken();
        law_counts();
        law_follows();
    }
}
