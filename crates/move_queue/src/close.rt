//! How a queue's seats are put together at the end, and what is left is taken.
ghost use Rattle.std.specs.Prelude.{◌≡◌, ◌+◌, ◌<◌, ◌≤◌, [], length, vec_capacity, All};
ghost use Rattle.crossbeam_queue.specs.Passes.{IsPassOf, ruled_capacity};
ghost use Rattle.move_queue.specs.Count.{IsOfCount};
ghost use Rattle.move_queue.specs.Seats.{known_by, IsSeatOf, HasGathered, HasDrained};

use crate::count::join_mark;
use crate::ring::{count_jobs, join_pass, learn_all, pop};
use crate::rule::{Line, Mark, Place, Ring, Word};
use crate::seat::QueueSeat;
use kmem_buf::Kind;
use object_cache::Job;
use std::sync::Wait;

/// Puts all seats into one, which knows what they know.
pub fn gather_all<K: Kind>(
    ring: &Ring<K>,
    line: &Line,
    mut seats: Vec<QueueSeat<K>>,
) -> (Place<K>, Mark)
    requires one_word { line.now.table_id.words ≡ 1 }
    requires of { All (IsSeatOf ring.now.table.shared.table_id line.now.table_id line.now.key) seats.items }
    requires some { 0 < length seats.items }
    ensures pass { IsPassOf ring.now result.0 }
    ensures mark { result.1.table_id ≡ line.now.table_id }
    ensures gathered { HasGathered line.now.key seats.items (known_by result.0) result.1.me.0 }
{
    let Some(last) = seats.pop() else {
        unreachable!()
    };
    let (mut pass, mut mark) = last.part();
    while let Some(next) = seats.pop() {
        let (other_pass, other_mark) = next.part();
        join_pass(ring, &mut pass, other_pass);
        join_mark(line, &mut mark, other_mark);
    }
    (pass, mark)
}

/// Pops all jobs that are left, by a seat that stands for all seats.
pub fn drain<K: Kind, R: Wait>(
    ring: &Ring<K>,
    rt: &R,
    pass: &mut Place<K>,
    mut jobs: Vec<Job<K>>,
) -> Vec<Job<K>>
    requires of { IsPassOf ring.now pass.old }
    requires some { 0 < (known_by pass.old).seats }
    requires all { (known_by pass.old).seats ≡ (known_by pass.old).terms.seats }
    requires none { jobs.items ≡ [] }
    requires room { ruled_capacity ring.now ≤ vec_capacity jobs }
    ensures { HasDrained K.constructed (known_by pass.old) result.items }
{
    let count = count_jobs(ring, rt, pass);
    while jobs.len() < count {
        let Some(job) = pop(ring, rt, pass) else {
            unreachable!()
        };
        jobs.push_reserved(job);
    }
    learn_all(ring, pass);
    jobs
}

/// Frees the count. Where each seat was done, as many jobs were counted off as in.
pub fn close_count(count: Word, mark: Mark)
    requires of { mark.table_id ≡ count.shared.table_id }
    requires no_slot { count.shared.table_id.slots ≡ 0 }
    requires all { mark.me.0.seats ≡ count.shared.key.seats }
    ensures { mark.me.0.busy ≡ 0 → mark.me.0.counted ≤ mark.me.0.counted_off + mark.me.0.pending }
{
    let closed = count.close_with(mark);
    closed.free();
}
