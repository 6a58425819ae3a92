//! Each object of a heap lies in a buffer that is out.

ghost use Rattle.std.specs.Prelude.{◌≡◌, ℕ, true, is_some, length};
ghost use Rattle.kmem_model.specs.CacheState.{is_out};
ghost use Rattle.kmem_model.specs.Heap.{object_at};

use object_cache::ObjectCache;
use record_heap::{RecordHeap, RecordKind};

// Meets each object with its cell, which shows that its buffer is out. A few atomic steps an object.
pub fn meet_all(cache: &mut ObjectCache<RecordKind>, heap: &mut RecordHeap)
    requires home { heap.old.home ≡ cache.old.home }
    requires size { length heap.old.heap.objects ≡ length cache.old.state.asked }
    ensures out { (b : ℕ) → is_some (object_at heap.old.heap b) ≡ true → is_out cache.old.state b ≡ true }
    ensures cache { cache.new ≡ cache.old }
    ensures heap { heap.new ≡ heap.old }
{
    cache.law_whole();
    let buffers = cache.slabs() * cache.chunks();
    for b in 0..buffers {
        if heap.lists(b) {
            heap.meet(b, cache);
        }
    }
}
