//! Laws of holds.
ghost use Rattle.std.specs.Prelude.{◌≡◌, ◌≢◌, Some, ℕ, ◌<◌, List, [], ◌++◌, All, true, false, is_some};
ghost use Rattle.kmem_buf.specs.Buffers.{BufState};
ghost use Rattle.kmem_model.specs.Records.{RecordMap, no_records, held_at, tag_place, id_of};
ghost use Rattle.kmem_model.specs.RecordStep.{del_step};
ghost use Rattle.kmem_model.specs.Heap.{Object, HeapState, StandsFor, hold_at, least_left_in};
ghost use Rattle.kmem_model.specs.Says.{says};
ghost use Rattle.kmem_model.specs.declared.cache_entry.Said.TheVariants.{Yes, DontNeed};
ghost use Rattle.record_heap.specs.View.{HeapView, IsStepBy, IsHandedOut};
ghost use Rattle.kmem_model.specs.History.{worker_of, map_after, IsLegalHistory, IsEntryWithin, in_use, own_entries};
ghost use Rattle.kmem_model.specs.declared.record_entry.RecordEntry.{RecordEntry};

/// The tags that a worker has in use after a legal history are those that its own entries leave so. Where the history goes on by no entry
/// of that worker, each of its tags holds the same record as before. It does nothing: its contract is the law.
pub fn law_tags()
    ensures own { (names workers pass tag : ℕ) (h : List (ℕ × RecordEntry)) → tag < 8 → pass < workers →
        IsLegalHistory (no_records names workers) h → All (IsEntryWithin names workers) h →
        is_some (held_at (map_after (no_records names workers) h) (tag_place (worker_of pass) tag)) ≡
        in_use tag false (own_entries pass h) }
    ensures kept { (names workers pass tag : ℕ) (h rest : List (ℕ × RecordEntry)) → tag < 8 → pass < workers →
        All (IsEntryWithin names workers) (h ++ rest) → IsLegalHistory (no_records names workers) (h ++ rest) → own_entries pass rest ≡ [] →
        held_at (map_after (no_records names workers) (h ++ rest)) (tag_place (worker_of pass) tag) ≡
        held_at (map_after (no_records names workers) h) (tag_place (worker_of pass) tag) }
{}

/// While a heap has a tag at an address, no right answer about that address is yes or not needed, the least leftover, which alone is ever
/// taken, isn't there, and no deletion hands its buffer out. It does nothing: its contract is the law.
pub fn law_held()
    ensures answers { (m : RecordMap) (addresses : List ℕ) (h : HeapState) (place b : ℕ) → StandsFor m addresses h → hold_at h place ≡ Some b →
        (says h true b ≢ Yes) × (says h true b ≢ DontNeed) }
    ensures leftover { (m : RecordMap) (addresses : List ℕ) (h : HeapState) (place b : ℕ) → StandsFor m addresses h → hold_at h place ≡ Some b →
        least_left_in h ≢ Some b }
    ensures del { (m : RecordMap) (addresses : List ℕ) (old new : HeapView) (name place b : ℕ) (buf : BufState Object) → StandsFor m addresses old.heap →
        IsStepBy old.heap new.heap (λ n. (del_step n name (id_of n name)).map) → IsHandedOut old name buf new →
        hold_at old.heap place ≡ Some b → buf.number ≢ b }
{}
