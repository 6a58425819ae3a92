//! Both movers.

ghost use Rattle.std.specs.Prelude.{◌≡◌};
ghost use Rattle.kmem_cache.specs.Seats.{buffers_at};
ghost use Rattle.run_movers.specs.Movers.{IsReadyMover, HasMoved, IsPaced};

use crate::mover::MoverTask;
use crate::shares::Shares;
use kmem_cache::Cache;
use kmem_io::Gate;
use move_queue::MoveQueue;
use record_heap::RecordKind;
use record_table::RecordTable;
use std::sync::Wait;
use std::thread::{Threads, join};

// What the mover has come to.
fn carried_out<R: Wait, G: Gate>(
    rt: &R,
    gate: &G,
    shares: &Shares,
    table: &RecordTable,
    cache: &Cache<RecordKind>,
    queue: &MoveQueue<RecordKind>,
    mut task: MoverTask,
) -> MoverTask
    requires homes { (buffers_at cache.now ≡ table.now.home.cache) × (queue.now.terms.home ≡ buffers_at cache.now) }
    requires ready { IsReadyMover table.now cache.now queue.now task }
    ensures moved { HasMoved table.now cache.now queue.now task result }
    ensures paced { IsPaced shares.now task }
{
    task.carry_out(rt, gate, shares, table, cache, queue);
    task
}

/// Lets both movers make their scans, each once its share of the commands is carried out, and carry jobs, each in a thread of its own
/// where one can be started.
pub fn run_movers<R: Threads + Wait + Sync, G: Gate>(
    rt: &R,
    gate: &G,
    shares: &Shares,
    table: &RecordTable,
    cache: &Cache<RecordKind>,
    queue: &MoveQueue<RecordKind>,
    first: MoverTask,
    second: MoverTask,
) -> (MoverTask, MoverTask)
    requires homes { (buffers_at cache.now ≡ table.now.home.cache) × (queue.now.terms.home ≡ buffers_at cache.now) }
    requires first { IsReadyMover table.now cache.now queue.now first }
    requires second { IsReadyMover table.now cache.now queue.now second }
    ensures first { HasMoved table.now cache.now queue.now first result.0 }
    ensures second { HasMoved table.now cache.now queue.now second result.1 }
    ensures paced { IsPaced shares.now first × IsPaced shares.now second }
{
    join(
        rt,
        move || -> MoverTask
            requires { (buffers_at cache.now ≡ table.now.home.cache) × (queue.now.terms.home ≡ buffers_at cache.now) ×
                IsReadyMover table.now cache.now queue.now first }
            ensures { HasMoved table.entry.now cache.entry.now queue.entry.now first result × IsPaced shares.entry.now first }
        { carried_out(rt, gate, shares, table, cache, queue, first) },
        move || -> MoverTask
            requires { (buffers_at cache.now ≡ table.now.home.cache) × (queue.now.terms.home ≡ buffers_at cache.now) ×
                IsReadyMover table.now cache.now queue.now second }
            ensures { HasMoved table.entry.now cache.entry.now queue.entry.now second result × IsPaced shares.entry.now second }
        { carried_out(rt, gate, shares, table, cache, queue, second) },
    )
}
