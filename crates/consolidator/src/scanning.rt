//! How a mover scans.

ghost use Rattle.std.specs.Prelude.{◌≡◌, ◌+◌, ◌<◌, ◌≤◌, ◌^◌, true, false};
ghost use Rattle.object_cache.specs.Moves.{IsJobOf};
ghost use Rattle.kmem_cache.specs.Seats.{buffers_at, IsCacheSeat};
ghost use Rattle.move_queue.specs.Queue.{IsQueueSeat};
ghost use Rattle.consolidator.specs.Works.{work_by, HasScanned, AreKept, CountsGiven, IsBalanced};
ghost use Rattle.consolidator.specs.Tries.{HasPut, HasTried};

use crate::carrying::finish;
use crate::tally::count_begun;
use kmem_buf::{Kind, MoveClient};
use kmem_cache::{Cache, CacheSeat};
use move_queue::{MoveQueue, QueueSeat};
use object_cache::{Job, Tally};
use std::sync::Wait;

// How many moves one scan may begin.
const MOVES: u32 = 64;

// Pushes the job, or ends it where the queue hands it back.
fn put<K: Kind, C: MoveClient<K>, R: Wait>(
    rt: &R,
    cache: &Cache<K>,
    seat: &mut CacheSeat<K>,
    queue: &MoveQueue<K>,
    place: &mut QueueSeat<K>,
    client: &mut C,
    job: Job<K>,
    tally: &mut Tally,
)
    requires of { IsCacheSeat cache.now seat.old × IsQueueSeat queue.now place.old }
    requires left { (1 ≤ seat.old.pass.left) × (1 ≤ place.old.left) × (place.old.refused < 2 ^ 63) }
    requires job { IsJobOf K.constructed (buffers_at cache.now) job }
    requires homes { (queue.now.terms.home ≡ buffers_at cache.now) × (C.home client.old ≡ buffers_at cache.now) }
    requires counts { (C.brought client.old < 2 ^ 62) × (C.fetched client.old < 2 ^ 62) }
    ensures tried { let now = work_by C.flags C.last C.answered C.brought C.fetched in
        HasPut job.move.no (now seat.old place.old tally.old client.old) (now seat.new place.new tally.new client.new) }
    ensures of { IsCacheSeat cache.now seat.new × IsQueueSeat queue.now place.new }
    ensures stays { (C.home client.new ≡ C.home client.old) × (C.sign client.new ≡ C.sign client.old) }
{
    match queue.push_job(rt, place, job) {
        Ok(()) => {}
        Err(back) => finish(rt, cache, seat, client, back, tally),
    }
}

// Begins one move and pushes its job. False where there was none to begin.
fn begin_one<K: Kind, C: MoveClient<K>, R: Wait>(
    rt: &R,
    cache: &Cache<K>,
    seat: &mut CacheSeat<K>,
    queue: &MoveQueue<K>,
    place: &mut QueueSeat<K>,
    client: &mut C,
    tally: &mut Tally,
) -> bool
    requires never { K.never_refuses ≡ true }
    requires of { IsCacheSeat cache.now seat.old × IsQueueSeat queue.now place.old }
    requires left { (2 ≤ seat.old.pass.left) × (1 ≤ place.old.left) × (place.old.refused < 2 ^ 63) }
    requires homes { (queue.now.terms.home ≡ buffers_at cache.now) × (C.home client.old ≡ buffers_at cache.now) }
    requires counts { (C.brought client.old < 2 ^ 62) × (C.fetched client.old < 2 ^ 62) }
    ensures begun { let now = work_by C.flags C.last C.answered C.brought C.fetched in
        HasTried (now seat.old place.old tally.old client.old) (now seat.new place.new tally.new client.new) result }
    ensures of { IsCacheSeat cache.now seat.new × IsQueueSeat queue.now place.new }
    ensures stays { (C.home client.new ≡ C.home client.old) × (C.sign client.new ≡ C.sign client.old) }
{
    match cache.begin(rt, seat) {
        Ok(job) => {
            count_begun(tally);
            put(rt, cache, seat, queue, place, client, job, tally);
            true
        }
        Err(_) => false,
    }
}

/// Starts a scan and begins its moves, until none is left to begin or 64 have begun. Each job is pushed; one that the queue hands back is
/// ended at once. It takes a turn under the cache's lock for each entry, and one more for a job that is asked about.
pub fn scan<K: Kind, C: MoveClient<K>, R: Wait>(
    rt: &R,
    cache: &Cache<K>,
    seat: &mut CacheSeat<K>,
    queue: &MoveQueue<K>,
    place: &mut QueueSeat<K>,
    client: &mut C,
    desperate: bool,
    tally: &mut Tally,
)
    requires never { K.never_refuses ≡ true }
    requires of { IsCacheSeat cache.now seat.old × IsQueueSeat queue.now place.old }
    requires left { (130 ≤ seat.old.pass.left) × (64 ≤ place.old.left) × (place.old.refused < 2 ^ 62) }
    requires homes { (queue.now.terms.home ≡ buffers_at cache.now) × (C.home client.old ≡ buffers_at cache.now) }
    requires counts { (C.brought client.old < 2 ^ 61) × (C.fetched client.old < 2 ^ 61) }
    ensures scanned { let now = work_by C.flags C.last C.answered C.brought C.fetched in
        HasScanned desperate (now seat.old place.old tally.old client.old) (now seat.new place.new tally.new client.new) }
    ensures of { IsCacheSeat cache.now seat.new × IsQueueSeat queue.now place.new }
    ensures stays { (C.home client.new ≡ C.home client.old) × (C.sign client.new ≡ C.sign client.old) }
    ensures kept { AreKept (C.flags client.old) (C.flags client.new) }
    ensures given { CountsGiven (C.flags client.new) tally.old tally.new }
    ensures balance { let now = work_by C.flags C.last C.answered C.brought C.fetched in
        IsBalanced (now seat.old place.old tally.old client.old) (now seat.new place.new tally.new client.new) }
{
    cache.start_scan(rt, seat, desperate);
    for _i in 0..MOVES {
        if !begin_one(rt, cache, seat, queue, place, client, tally) {
            return;
        }
    }
}
