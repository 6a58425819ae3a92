//! Settling records.

ghost use Rattle.std.specs.Prelude.{◌≡◌, false};
ghost use Rattle.kmem_model.specs.CacheState.{has_pending};
ghost use Rattle.kmem_model.specs.Says.{stage_in, AreInBuffers};
ghost use Rattle.kmem_model.specs.SettleWhole.{IsSettled};
ghost use Rattle.consolidator.specs.Settles.{SettlesTo};

use crate::scans::settle;
use object_cache::{ObjectCache, Tally};
use record_heap::{RecordHeap, RecordKind};

/// Settles the cache whose buffers the heap takes. The heap stands for the same map afterwards, at the addresses that the moves lead to:
/// each record is where its names and its tags are.
pub fn settle_records(cache: &mut ObjectCache<RecordKind>, heap: &mut RecordHeap) -> Tally
    requires calm { has_pending cache.old.state ≡ false }
    requires buffers { AreInBuffers cache.old.state heap.old.heap.objects }
    requires home { heap.old.home ≡ cache.old.home }

    // The course that the cache and the heap take, by its moves; the heap stands for the same map.
    ensures settles { SettlesTo cache.old cache.new heap.old heap.new result }
    // What it leaves.
    ensures settled { IsSettled (stage_in cache.new.state heap.new.heap.objects) }
    ensures calm { has_pending cache.new.state ≡ false }
    ensures buffers { AreInBuffers cache.new.state heap.new.heap.objects }
    ensures home { cache.new.home ≡ cache.old.home }
{
    settle(cache, heap)
}
