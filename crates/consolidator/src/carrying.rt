//! How a mover ends the moves that were begun.

ghost use Rattle.std.specs.Prelude.{◌≡◌, ◌+◌, ◌<◌, ◌≤◌, ◌^◌, length, true};
ghost use Rattle.object_cache.specs.Moves.{IsJobOf};
ghost use Rattle.kmem_cache.specs.Seats.{buffers_at, IsCacheSeat};
ghost use Rattle.move_queue.specs.Queue.{IsQueueSeat};
ghost use Rattle.consolidator.specs.Notes.{notes_by};
ghost use Rattle.consolidator.specs.Works.{work_by, HasFinished, HasCarried, AreKept, CountsGiven, IsBalanced};

use crate::tally::{count_answer, count_gone};
use kmem_buf::{Kind, MoveClient};
use kmem_cache::{Cache, CacheSeat};
use move_queue::{MoveQueue, QueueSeat};
use object_cache::{Job, Tally};
use std::sync::Wait;

/// Ends the job: unasked where its old buffer is free, else by the client's answer.
pub fn finish<K: Kind, C: MoveClient<K>, R: Wait>(
    rt: &R,
    cache: &Cache<K>,
    seat: &mut CacheSeat<K>,
    client: &mut C,
    job: Job<K>,
    tally: &mut Tally,
)
    requires of { IsCacheSeat cache.now seat.old }
    requires left { 1 ≤ seat.old.pass.left }
    requires job { IsJobOf K.constructed (buffers_at cache.now) job }
    requires home { C.home client.old ≡ buffers_at cache.now }
    requires counts { (C.brought client.old < 2 ^ 62) × (C.fetched client.old < 2 ^ 62) }
    ensures finished { let notes = notes_by C.flags C.last C.answered C.brought C.fetched in
        HasFinished cache.now seat.old seat.new (notes seat.old tally.old client.old) (notes seat.new tally.new client.new) job }
    ensures of { IsCacheSeat cache.now seat.new }
    ensures stays { (C.home client.new ≡ C.home client.old) × (C.sign client.new ≡ C.sign client.old) }
{
    match cache.still(rt, seat, job) {
        Some(kept) => {
            let (pending, buf) = kept.part();
            let answer = client.ask(rt, pending.from(), buf);
            count_answer(tally, answer.verdict());
            cache.end(rt, seat, pending, answer);
        }
        None => count_gone(tally),
    }
}

/// Pops one job and ends it. False exactly where none came.
pub fn carry<K: Kind, C: MoveClient<K>, R: Wait>(
    rt: &R,
    cache: &Cache<K>,
    seat: &mut CacheSeat<K>,
    queue: &MoveQueue<K>,
    place: &mut QueueSeat<K>,
    client: &mut C,
    tally: &mut Tally,
) -> bool
    requires of { IsCacheSeat cache.now seat.old × IsQueueSeat queue.now place.old }
    requires left { 1 ≤ seat.old.pass.left }
    requires homes { (queue.now.terms.home ≡ buffers_at cache.now) × (C.home client.old ≡ buffers_at cache.now) }
    requires counts { (C.brought client.old < 2 ^ 62) × (C.fetched client.old < 2 ^ 62) }
    ensures carried { let now = work_by C.flags C.last C.answered C.brought C.fetched in
        HasCarried cache.now (now seat.old place.old tally.old client.old) (now seat.new place.new tally.new client.new) result }
    ensures few { length place.new.popped ≤ queue.now.terms.quotas }
    ensures of { IsCacheSeat cache.now seat.new × IsQueueSeat queue.now place.new }
    ensures stays { (C.home client.new ≡ C.home client.old) × (C.sign client.new ≡ C.sign client.old) }
    ensures kept { AreKept (C.flags client.old) (C.flags client.new) }
    ensures given { CountsGiven (C.flags client.new) tally.old tally.new }
    ensures balance { let now = work_by C.flags C.last C.answered C.brought C.fetched in
        IsBalanced (now seat.old place.old tally.old client.old) (now seat.new place.new tally.new client.new) }
{
    match queue.pop_job(rt, place) {
        Some(job) => {
            finish(rt, cache, seat, client, job, tally);
            true
        }
        None => false,
    }
}
