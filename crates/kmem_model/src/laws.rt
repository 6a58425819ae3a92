//! Laws of the definitions. Each is a function that does nothing: its contract is the law.
#![tactic(auto)]

ghost use Rattle.std.specs.Prelude.{◌≡◌, ◌↔◌, ℕ, ◌*◌, ◌<◌, Bool, false, true, Some, None, List, option_map};
ghost use Rattle.kmem_model.specs.declared.cache_entry.CacheEntry.{CacheEntry};
ghost use Rattle.kmem_model.specs.CacheState.{CacheSizes, SlabState, CacheState};
ghost use Rattle.kmem_model.specs.CacheOrder.{least_below, foremost, comes_before, IsLeastBelow, IsForemost, IsOrder};
ghost use Rattle.kmem_model.specs.CacheHistory.{Reaches, MayEnter, MayAlloc, MayBegin, AtMostOneBegin, ExactlyOne};
ghost use Rattle.kmem_model.specs.Places.{Holder};
ghost use Rattle.kmem_model.specs.PlacesEvent.{Event};
ghost use Rattle.kmem_model.specs.PlacesLaw.{AlwaysSound, world_start};
ghost use Rattle.kmem_model.specs.PlacesRows.{after_every_event, last_placing};
ghost use Rattle.kmem_model.specs.declared.cache_entry.CacheEntry.TheVariants.{Alloc, Full, Begin, Idle, Gone};
ghost use Rattle.kmem_model.specs.CacheScans.{has_rounds, scan_entries};
ghost use Rattle.kmem_model.specs.CacheRows.{by_one_pass, after, counts_after, is_legal_row, with_entry, by_hand, by_hand_back, by_hand_state, put_off_thrice, marked, marked_slabs, marked_state, dying, dying_gone, dead_slab, dead_slab_state, dead_among_four, mild_scans, mild_scans_state, busy, busy_state, two_dead, taken_back, taken_back_state};

/// Each buffer has exactly one place, whatever happens to the buffers.
///
/// The events are any list, of any length; those after the first that can't happen count for nothing.
/// Any limit of pending moves will do, and anybody may hold any number of magazines at first.
pub fn law_places()
    ensures always { (sizes : CacheSizes) (holders : List Holder) (events : List Event) → 0 < sizes.chunks →
        AlwaysSound (sizes.slabs * sizes.chunks) events (world_start sizes holders) }
    // Each kind of event can happen.
    ensures possible { after_every_event ≡ Some last_placing }
{}

/// In every state that a legal history reaches some buffer can be allocated, or the cache is full,
/// and never both.
pub fn law_alloc_or_full()
    ensures { (sizes : CacheSizes) (history : List (ℕ × CacheEntry)) (s : CacheState) → 0 < sizes.chunks →
        Reaches sizes history s → ExactlyOne (MayAlloc s) (MayEnter s Full) }
{}

/// In every state that a legal history reaches exactly one move can begin, or there is none to begin,
/// and never both.
pub fn law_begin_or_idle()
    ensures one { (sizes : CacheSizes) (history : List (ℕ × CacheEntry)) (s : CacheState) →
        Reaches sizes history s → ExactlyOne (MayBegin s) (MayEnter s Idle) }
    ensures at_most_one { (sizes : CacheSizes) (history : List (ℕ × CacheEntry)) (s : CacheState) →
        Reaches sizes history s → AtMostOneBegin s }
{}

/// What the searches of the definitions find, in the form in which ordered lists and bins are shown to
/// find the same.
pub fn law_order()
    ensures least { (n k : ℕ) (test : ℕ → Bool) → (least_below n test ≡ Some k) ↔ IsLeastBelow n test k }
    ensures no_least { (n : ℕ) (test : ℕ → Bool) →
        (least_below n test ≡ None) ↔ ((k : ℕ) → k < n → test k ≡ false) }
    ensures foremost { (n i : ℕ) (test : ℕ → Bool) (before : ℕ → ℕ → Bool) → IsOrder before →
        ((foremost n test before ≡ Some i) ↔ IsForemost n test before i) }
    ensures no_foremost { (n : ℕ) (test : ℕ → Bool) (before : ℕ → ℕ → Bool) → IsOrder before →
        ((foremost n test before ≡ None) ↔ ((k : ℕ) → k < n → test k ≡ false)) }
    ensures order { (slabs : List SlabState) → IsOrder (comes_before slabs) }
    ensures reversed { (slabs : List SlabState) → IsOrder (λ i j. comes_before slabs j i) }
{}

/// Worked histories leave the states that were worked out by hand, and with one wrong entry they are
/// not legal.
pub fn law_rows()
    ensures by_hand { (counts_after 2 4 by_hand_back
        ≡ Some (record { slabs = 1; free = 1; out = 3; pending = 0; dead = 0 }))
        × (after 2 4 by_hand ≡ Some by_hand_state) }
    // the less full slab; and a refusal where a buffer is free
    ensures by_hand_wrong { (is_legal_row 2 4 (with_entry by_hand 12 (Alloc 1)) ≡ false)
        × (is_legal_row 2 4 (with_entry by_hand 12 Full) ≡ false) }
    ensures marked { (option_map (λ s. s.slabs) (after 2 4 put_off_thrice) ≡ Some marked_slabs)
        × (after 2 4 marked ≡ Some marked_state) }
    // no move where there is a choice; and the fuller slab before the marked one
    ensures marked_wrong { (is_legal_row 2 4 (with_entry marked 14 Idle) ≡ false)
        × (is_legal_row 2 4 (with_entry marked 24 (Alloc 6)) ≡ false) }
    ensures dead_slab { (counts_after 3 3 dying
        ≡ Some (record { slabs = 2; free = 2; out = 4; pending = 2; dead = 1 }))
        × (counts_after 3 3 dying_gone
        ≡ Some (record { slabs = 2; free = 3; out = 3; pending = 1; dead = 1 }))
        × (counts_after 3 3 dead_slab
        ≡ Some (record { slabs = 1; free = 1; out = 2; pending = 0; dead = 0 }))
        × (after 3 3 dead_slab ≡ Some dead_slab_state)
        × (is_legal_row 4 3 dead_among_four ≡ true) }
    // a move whose old buffer is out ends unasked; and a slab was given back while a move is pending,
    // so that it is the next of the source
    ensures dead_slab_wrong { (is_legal_row 3 3 (with_entry dead_slab 19 (Gone 1)) ≡ false)
        × (is_legal_row 4 3 (with_entry dead_among_four 21 (Alloc 6)) ≡ false) }
    ensures mild_scans { after 3 8 mild_scans ≡ Some mild_scans_state }
    // a slab that is not below two eighths; and no move where there is a choice
    ensures mild_scans_wrong { (is_legal_row 3 8 (with_entry mild_scans 41 (Begin 0 16 6)) ≡ false)
        × (is_legal_row 3 8 (with_entry mild_scans 43 Idle) ≡ false) }
    ensures busy { (after 3 3 busy ≡ Some busy_state)
        × (has_rounds (scan_entries 0 (by_one_pass busy)) ≡ true) }
    // a new buffer on a slab behind the marked one; a move where each buffer was asked about; and a
    // scan that stops early
    ensures busy_wrong { (is_legal_row 3 3 (with_entry busy 31 (Begin 0 3 1)) ≡ false)
        × (is_legal_row 3 3 (with_entry busy 49 (Begin 0 6 1)) ≡ false)
        × (has_rounds (scan_entries 0 (by_one_pass put_off_thrice)) ≡ false) }
    ensures taken_back { (counts_after 3 2 two_dead
        ≡ Some (record { slabs = 1; free = 1; out = 1; pending = 1; dead = 2 }))
        × (counts_after 3 2 taken_back
        ≡ Some (record { slabs = 3; free = 1; out = 5; pending = 0; dead = 0 }))
        × (after 3 2 taken_back ≡ Some taken_back_state) }
    // a refusal while a slab is dead; and a move whose old buffer is out again ends unasked
    ensures taken_back_wrong { (is_legal_row 3 2 (with_entry taken_back 18 Full) ≡ false)
        × (is_legal_row 3 2 (with_entry taken_back 21 (Gone 0)) ≡ false) }
{}

#[cfg(test)]
mod tests {
    use super::{law_alloc_or_full, law_begin_or_idle, law_order, law_places, law_rows};

    #[test]
    fn laws_can_be_called() {
        law_places();
        law_alloc_or_full();
        law_begin_or_idle();
        law_order();
        law_rows();
    }
}
