//! Leftovers go.

ghost use Rattle.std.specs.Prelude.{◌≡◌};
ghost use Rattle.kmem_model.specs.One.{OneState};
ghost use Rattle.run_end.specs.Ends.{StandTogether, FreesOne, HasFreed};

use kmem_model::{law_counts, law_follows, law_one_settle, law_room};
use object_cache::ObjectCache;
use record_heap::{RecordHeap, RecordKind};

/// Frees all leftovers, the least address first. Takes no memory.
pub fn free_leftovers(cache: &mut ObjectCache<RecordKind>, heap: &mut RecordHeap)
    requires stand { (s : OneState) × StandTogether s cache.old heap.old }
    requires home { heap.old.home ≡ cache.old.home }
    ensures freed { (s : OneState) → StandTogether s cache.old heap.old → HasFreed s cache.old heap.old cache.new heap.new }
    ensures home { (heap.new.home ≡ heap.old.home) × (cache.new.home ≡ cache.old.home) }
{
    law_follows();
    law_counts();
    let mut more = true;
    'freeing: while more {
        more = free_one(cache, heap);
    }
}

// Frees the leftover with the least address, if there is one.
fn free_one(cache: &mut ObjectCache<RecordKind>, heap: &mut RecordHeap) -> bool
    requires stand { (s : OneState) × StandTogether s cache.old heap.old }
    requires home { heap.old.home ≡ cache.old.home }
    ensures freed { (s : OneState) → StandTogether s cache.old heap.old → FreesOne s cache.old heap.old result cache.new heap.new }
    ensures stand { (s : OneState) × StandTogether s cache.new heap.new }
    ensures home { (heap.new.home ≡ heap.old.home) × (cache.new.home ≡ cache.old.home) }
{
    law_one_settle();
    law_room();
    match heap.take_leftover() {
        Some(buf) => {
            cache.free(buf);
            true
        }
        None => false,
    }
}
