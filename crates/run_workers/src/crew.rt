//! All workers.

ghost use Rattle.std.specs.Prelude.{◌≡◌, ◌<◌, ℕ, All, length, slice_index_or};
ghost use Rattle.kmem_cache.specs.Seats.{buffers_at};
ghost use Rattle.run_workers.specs.declared.worker.Worker.{Worker};
ghost use Rattle.run_workers.specs.Workers.{IsReady, HasWorked};

use crate::worker::Worker;
use kmem_cache::Cache;
use kmem_io::Gate;
use record_heap::RecordKind;
use record_table::RecordTable;
use std::sync::Wait;
use std::thread::{Threads, for_each_mut};

/// Lets all workers carry out their commands, each in a thread of its own where one can be started.
pub fn run_workers<R: Threads + Wait + Sync, G: Gate>(
    rt: &R,
    gate: &G,
    table: &RecordTable,
    cache: &Cache<RecordKind>,
    workers: &mut [Worker],
)
    requires home { buffers_at cache.now ≡ table.now.home.cache }
    requires some { 0 < length workers.old }
    requires ready { All (IsReady table.now cache.now) workers.old }
    ensures count { length workers.new ≡ length workers.old }
    ensures worked { (i : ℕ) (d : Worker) → i < length workers.old →
        HasWorked cache.now (slice_index_or workers.old i d) (slice_index_or workers.new i d) }
{
    let count = workers.len();
    for_each_mut(
        rt,
        workers,
        count,
        &|_, worker: &mut Worker|
            requires { (buffers_at cache.now ≡ table.now.home.cache) × IsReady table.now cache.now worker.old }
            ensures { HasWorked cache.entry.now worker.old worker.new }
        { worker.work(rt, gate, table, cache) },
    );
}
