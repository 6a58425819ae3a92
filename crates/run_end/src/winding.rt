//! The whole of what follows a run.

ghost use Rattle.std.specs.Prelude.{◌≡◌, ℕ, List, true, false, is_some, length, count_by};
ghost use Rattle.kmem_model.specs.CacheState.{has_pending, out_count};
ghost use Rattle.kmem_model.specs.Heap.{StandsFor, object_at, has_record};
ghost use Rattle.kmem_model.specs.Records.{RecordMap, live_count};
ghost use Rattle.kmem_model.specs.Says.{stage_in, AreInBuffers};
ghost use Rattle.kmem_model.specs.SettleWhole.{IsSettled};
ghost use Rattle.run_end.specs.Ends.{AreAllFree, AreEndsDue, IsOnFewest, IsWoundUp};

use crate::leftovers::free_leftovers;
use crate::meeting::meet_all;
use consolidator::settle_records;
use kmem_model::{
    law_answers, law_counts, law_fewest, law_just_these, law_one_settle, law_room, law_stage,
};
use object_cache::{ObjectCache, Tally};
use record_heap::{RecordHeap, RecordKind};

/// Frees the leftovers and settles, where no move is pending and the heap has as many objects as buffers are out: then these are the same,
/// and each buffer that is out at the end has a record that lives. Takes no memory. Beside the settle it costs a few steps an object.
pub fn wind_up(cache: &mut ObjectCache<RecordKind>, heap: &mut RecordHeap) -> Tally
    requires calm { has_pending cache.old.state ≡ false }
    requires count { count_by is_some heap.old.heap.objects ≡ out_count cache.old.state }
    requires size { length heap.old.heap.objects ≡ length cache.old.state.asked }
    requires home { heap.old.home ≡ cache.old.home }
    requires stand { (m : RecordMap) × (addresses : List ℕ) × StandsFor m addresses heap.old.heap }
    ensures buffers { AreInBuffers cache.old.state heap.old.heap.objects }
    ensures wound_up { IsWoundUp cache.old heap.old cache.new heap.new result }
    // nothing but records that live is left, and it is what the heap stood for
    ensures stands { (m : RecordMap) (addresses : List ℕ) → StandsFor m addresses heap.old.heap →
        (others : List ℕ) × StandsFor m others heap.new.heap }
    ensures records { (b : ℕ) → is_some (object_at heap.new.heap b) ≡ true → has_record (object_at heap.new.heap b) ≡ true }
    ensures live { (m : RecordMap) (addresses : List ℕ) → StandsFor m addresses heap.old.heap →
        out_count cache.new.state ≡ live_count m }
    ensures fewest { (m : RecordMap) (addresses : List ℕ) → StandsFor m addresses heap.old.heap → AreAllFree m →
        IsOnFewest (live_count m) cache.new.state }
    ensures answered { (m : RecordMap) (addresses : List ℕ) → StandsFor m addresses heap.old.heap → AreEndsDue m result }
    ensures settled { IsSettled (stage_in cache.new.state heap.new.heap.objects) }
    ensures calm { has_pending cache.new.state ≡ false }
    ensures after { AreInBuffers cache.new.state heap.new.heap.objects }
    ensures home { cache.new.home ≡ cache.old.home }
{
    law_just_these();
    law_stage();
    law_one_settle();
    law_answers();
    law_counts();
    law_fewest();
    law_room();
    cache.law_whole();
    meet_all(cache, heap);
    free_leftovers(cache, heap);
    let tally = settle_records(cache, heap);
    cache.law_whole();
    tally
}
