//! Laws of heaps in the buffers of a cache. Each is the contract of a function with an empty body.

ghost use Rattle.std.specs.Prelude.{◌≡◌, ◌<◌, ℕ, false, true, List, length, map, None, Some, slice_set};
ghost use Rattle.kmem_model.specs.CacheState.{CacheState, has_pending};
ghost use Rattle.kmem_model.specs.CacheEnter.{enter};
ghost use Rattle.kmem_model.specs.declared.cache_entry.CacheEntry.TheVariants.{Free};
ghost use Rattle.kmem_model.specs.declared.cache_entry.Said.{Said};
ghost use Rattle.kmem_model.specs.declared.cache_entry.Said.TheVariants.{Yes, DontNeed};
ghost use Rattle.kmem_model.specs.Records.{RecordMap};
ghost use Rattle.kmem_model.specs.Heap.{least_left_in, HeapState, StandsFor, object_at, places_of};
ghost use Rattle.kmem_model.specs.Says.{answer_about, says, heap_after, moved_address, relocated, stage_in, without_object, AreInBuffers};
ghost use Rattle.kmem_model.specs.Settle.{Course, said_at, says_after};
ghost use Rattle.kmem_model.specs.SettleWhole.{IsWhole, IsWholeStage, is_known};
ghost use Rattle.kmem_model.specs.SettleMeasure.{settled};
ghost use Rattle.kmem_model.specs.One.{OneState, least_leftover, entered_by};
ghost use Rattle.kmem_model.specs.OneStands.{OneStands};
ghost use Rattle.kmem_model.specs.OneRun.{OneRun, answer_at, stage_of, addresses_moved, run_after, settled_run, without_leftover};

/// What a settle works on, by a heap whose objects lie in the buffers of a cache.
pub fn law_stage()
    ensures whole { (cache : CacheState) (h : HeapState) → IsWhole cache → has_pending cache ≡ false → AreInBuffers cache h.objects →
        IsWholeStage (stage_in cache h.objects) }
    ensures within { (cache : CacheState) (h : HeapState) → IsWholeStage (stage_in cache h.objects) → AreInBuffers cache h.objects }
    ensures known { (cache : CacheState) (h : HeapState) (b : ℕ) → is_known (said_at (stage_in cache h.objects) b) ≡ true →
        b < length h.objects }
    ensures said { (cache : CacheState) (h : HeapState) (b : ℕ) → said_at (stage_in cache h.objects) b ≡ says h true b }
    ensures moved { (h : HeapState) (from to : ℕ) (said : Said) →
        map answer_about (heap_after h from to said).objects ≡ says_after said from to (map answer_about h.objects) }
{}

/// The right answers by the record map: a fixed record can't be moved; else one with a tag is in use; else a record can be moved; an object
/// of no record isn't needed; and no other buffer is known.
pub fn law_answers()
    ensures { (s : OneState) (h : HeapState) (b : ℕ) → OneStands s h → says h true b ≡ answer_at s b }
{}

/// A settle of the heap and the cache is the settle of `one`, and so is a leftover that is freed.
pub fn law_one_settle()
    ensures freed { (s : OneState) (h new : HeapState) (t : CacheState) (b : ℕ) → OneStands s h →
        least_left_in h ≡ Some b → enter s.cache (Free b) ≡ Some t →
        StandsFor s.map s.addresses new → places_of new.objects ≡ slice_set (places_of h.objects) b false →
        (least_leftover s ≡ Some b) × (entered_by s.cache (Free b) ≡ t) × OneStands (without_leftover s b) new }
    ensures stage { (s : OneState) (h : HeapState) → OneStands s h → stage_in s.cache h.objects ≡ stage_of s }
    ensures settled { (run : OneRun) (h new : HeapState) (course : Course) → OneStands run.state h →
        settled (stage_of run.state) ≡ Some course → IsWholeStage course.stage →
        StandsFor run.state.map (addresses_moved run.state.addresses course.moves) new → AreInBuffers course.stage.cache new.objects →
        (settled_run run ≡ run_after run course) × OneStands (run_after run course).state new }
{}

/// A heap stands for the same map after the right answer about a move, whatever map it is. Where that is yes, the object goes to the new
/// place with all its names, and the records' addresses follow; where it is not needed, the leftover goes.
pub fn law_relocation()
    ensures moved { (m : RecordMap) (addresses : List ℕ) (h : HeapState) (old new : ℕ) → StandsFor m addresses h →
        object_at h new ≡ None → new < length h.objects → says h true old ≡ Yes →
        StandsFor m (map (moved_address old new) addresses) (relocated h old new) }
    ensures unneeded { (m : RecordMap) (addresses : List ℕ) (h : HeapState) (old : ℕ) → StandsFor m addresses h →
        says h true old ≡ DontNeed → StandsFor m addresses (without_object h old) }
{}

#[cfg(test)]
mod tests {
    use super::{law_answers, law_one_settle, law_relocation, law_stage};

    #[test]
    fn laws_can_be_called() {
        law_stage();
        law_answers();
        law_one_settle();
        law_relocation();
    }
}
