//! What a mover does in a whole run.

ghost use Rattle.std.specs.Prelude.{◌≡◌, ◌+◌, ◌*◌, ◌<◌, ◌≤◌, ◌^◌, ℕ, length, true};
ghost use Rattle.kmem_cache.specs.Seats.{buffers_at, IsCacheSeat};
ghost use Rattle.move_queue.specs.Queue.{IsQueueSeat};
ghost use Rattle.consolidator.specs.Notes.{notes_by};
ghost use Rattle.consolidator.specs.Works.{work_by, AreKept, CountsGiven, IsBalanced};
ghost use Rattle.consolidator.specs.Drives.{reap_room, HasRoom, HasDrained, HasRounds, ArePaced, HasReapedSeat, HasDriven, IsWholeDrive};

use crate::carrying::carry;
use crate::pace::Pace;
use crate::scanning::scan;
use kmem_buf::{Kind, MoveClient};
use kmem_cache::{Cache, CacheSeat};
use kmem_io::Gate;
use move_queue::{MoveQueue, QueueSeat};
use object_cache::Tally;
use std::sync::Wait;

/// The scans that a mover makes in a run.
#[derive(Clone, Copy)]
pub struct MoverPlan {
    /// The number by which the gate knows the mover.
    pub mover: u32,
    /// The number of its first scan. Each further one is two more, since two movers take turns.
    pub first: u32,
    /// How many scans it makes.
    pub scans: u32,
    pub desperate: bool,
    /// Whether it reaps full magazines before its last scan.
    pub reaps: bool,
}

// Carries jobs until none comes.
fn drain<K: Kind, C: MoveClient<K>, R: Wait>(
    rt: &R,
    cache: &Cache<K>,
    seat: &mut CacheSeat<K>,
    queue: &MoveQueue<K>,
    place: &mut QueueSeat<K>,
    client: &mut C,
    tally: &mut Tally,
)
    requires of { IsCacheSeat cache.now seat.old × IsQueueSeat queue.now place.old }
    requires room { let now = work_by C.flags C.last C.answered C.brought C.fetched in
        HasRoom queue.now.terms.quotas 0 0 (now seat.old place.old tally.old client.old) }
    requires homes { (queue.now.terms.home ≡ buffers_at cache.now) × (C.home client.old ≡ buffers_at cache.now) }
    ensures drained { let now = work_by C.flags C.last C.answered C.brought C.fetched in
        HasDrained (now seat.old place.old tally.old client.old) (now seat.new place.new tally.new client.new) }
    ensures room { let now = work_by C.flags C.last C.answered C.brought C.fetched in (scans others : ℕ) →
        HasRoom queue.now.terms.quotas scans others (now seat.old place.old tally.old client.old) →
        HasRoom queue.now.terms.quotas scans others (now seat.new place.new tally.new client.new) }
    ensures of { IsCacheSeat cache.now seat.new × IsQueueSeat queue.now place.new }
    ensures stays { (C.home client.new ≡ C.home client.old) × (C.sign client.new ≡ C.sign client.old) }
{
    'jobs: while carry(rt, cache, seat, queue, place, client, tally) {}
}

// Scans once, and carries jobs until none comes.
fn scan_and_drain<K: Kind, C: MoveClient<K>, R: Wait>(
    rt: &R,
    cache: &Cache<K>,
    seat: &mut CacheSeat<K>,
    queue: &MoveQueue<K>,
    place: &mut QueueSeat<K>,
    client: &mut C,
    desperate: bool,
    tally: &mut Tally,
)
    requires never { K.never_refuses ≡ true }
    requires of { IsCacheSeat cache.now seat.old × IsQueueSeat queue.now place.old }
    requires room { let now = work_by C.flags C.last C.answered C.brought C.fetched in
        HasRoom queue.now.terms.quotas 1 0 (now seat.old place.old tally.old client.old) }
    requires homes { (queue.now.terms.home ≡ buffers_at cache.now) × (C.home client.old ≡ buffers_at cache.now) }
    ensures round { let now = work_by C.flags C.last C.answered C.brought C.fetched in
        HasRounds desperate 1 (now seat.old place.old tally.old client.old) (now seat.new place.new tally.new client.new) }
    ensures room { let now = work_by C.flags C.last C.answered C.brought C.fetched in (scans others : ℕ) →
        HasRoom queue.now.terms.quotas (scans + 1) others (now seat.old place.old tally.old client.old) →
        HasRoom queue.now.terms.quotas scans others (now seat.new place.new tally.new client.new) }
    ensures of { IsCacheSeat cache.now seat.new × IsQueueSeat queue.now place.new }
    ensures stays { (C.home client.new ≡ C.home client.old) × (C.sign client.new ≡ C.sign client.old) }
    ensures done { place.new.done ≡ true }
{
    scan(rt, cache, seat, queue, place, client, desperate, tally);
    drain(rt, cache, seat, queue, place, client, tally);
}

// Waits for the share of the scan, and calls the gate.
fn come_up_to<K: Kind, C: MoveClient<K>, P: Pace<K, C>, R: Wait, G: Gate>(
    rt: &R,
    gate: &G,
    pace: &P,
    client: &mut C,
    mover: u32,
    scan: u32,
)
    ensures seen { P.share pace.now scan ≤ P.seen client.new }
    ensures stays { (C.home client.new ≡ C.home client.old) × (C.sign client.new ≡ C.sign client.old) }
    ensures same { (C.flags client.new ≡ C.flags client.old) × (C.last client.new ≡ C.last client.old) ×
        (C.answered client.new ≡ C.answered client.old) × (C.brought client.new ≡ C.brought client.old) ×
        (C.fetched client.new ≡ C.fetched client.old) }
{
    pace.await_share(rt, client, scan);
    gate.before(mover, scan);
}

// Makes so many scans of the plan, beginning with its first, each once its share of the commands is carried out.
fn make_scans<K: Kind, C: MoveClient<K>, P: Pace<K, C>, R: Wait, G: Gate>(
    rt: &R,
    gate: &G,
    pace: &P,
    cache: &Cache<K>,
    seat: &mut CacheSeat<K>,
    queue: &MoveQueue<K>,
    place: &mut QueueSeat<K>,
    client: &mut C,
    plan: &MoverPlan,
    count: u32,
    tally: &mut Tally,
)
    requires never { K.never_refuses ≡ true }
    requires of { IsCacheSeat cache.now seat.old × IsQueueSeat queue.now place.old }
    requires room { let now = work_by C.flags C.last C.answered C.brought C.fetched in
        HasRoom queue.now.terms.quotas count 0 (now seat.old place.old tally.old client.old) }
    requires homes { (queue.now.terms.home ≡ buffers_at cache.now) × (C.home client.old ≡ buffers_at cache.now) }
    requires numbers { plan.now.first + 2 * count < 2 ^ 32 }
    ensures rounds { let now = work_by C.flags C.last C.answered C.brought C.fetched in
        HasRounds plan.now.desperate count (now seat.old place.old tally.old client.old) (now seat.new place.new tally.new client.new) }
    ensures paced { let now = work_by C.flags C.last C.answered C.brought C.fetched in
        ArePaced (notes_by C.flags C.last C.answered C.brought C.fetched) P.seen (λ i. P.share pace.now (plan.now.first + 2 * i))
        plan.now.desperate count (now seat.old place.old tally.old client.old) }
    ensures room { let now = work_by C.flags C.last C.answered C.brought C.fetched in (scans others : ℕ) →
        HasRoom queue.now.terms.quotas (scans + count) others (now seat.old place.old tally.old client.old) →
        HasRoom queue.now.terms.quotas scans others (now seat.new place.new tally.new client.new) }
    ensures of { IsCacheSeat cache.now seat.new × IsQueueSeat queue.now place.new }
    ensures stays { (C.home client.new ≡ C.home client.old) × (C.sign client.new ≡ C.sign client.old) }
{
    for i in 0..count {
        come_up_to(rt, gate, pace, client, plan.mover, plan.first + 2 * i);
        scan_and_drain(rt, cache, seat, queue, place, client, plan.desperate, tally);
    }
}

// Reaps full magazines, if it is asked to.
fn reap_if<K: Kind, R: Wait>(rt: &R, cache: &Cache<K>, seat: &mut CacheSeat<K>, reaps: bool)
    requires of { IsCacheSeat cache.now seat.old }
    requires left { reap_room reaps cache.now.depot.places ≤ seat.old.pass.left }
    ensures reaped { HasReapedSeat reaps cache.now.depot.places seat.old seat.new }
    ensures of { IsCacheSeat cache.now seat.new }
{
    if reaps {
        cache.reap_now(rt, seat);
    }
}

/// All that a mover does in a run. Before each of its scans it waits until the scan's share of the commands is carried out, and calls
/// the gate, by its own number and the scan's; it scans; and after that it carries until no job comes. Before its last scan it reaps
/// full magazines, if it is to. Without a scan it carries until no job comes.
pub fn drive<K: Kind, C: MoveClient<K>, P: Pace<K, C>, R: Wait, G: Gate>(
    rt: &R,
    gate: &G,
    pace: &P,
    cache: &Cache<K>,
    seat: &mut CacheSeat<K>,
    queue: &MoveQueue<K>,
    place: &mut QueueSeat<K>,
    client: &mut C,
    plan: &MoverPlan,
    tally: &mut Tally,
)
    requires never { K.never_refuses ≡ true }
    requires of { IsCacheSeat cache.now seat.old × IsQueueSeat queue.now place.old }
    requires room { let now = work_by C.flags C.last C.answered C.brought C.fetched in
        HasRoom queue.now.terms.quotas plan.now.scans (reap_room plan.now.reaps cache.now.depot.places)
        (now seat.old place.old tally.old client.old) }
    requires homes { (queue.now.terms.home ≡ buffers_at cache.now) × (C.home client.old ≡ buffers_at cache.now) }
    requires numbers { plan.now.first + 2 * plan.now.scans < 2 ^ 32 }
    ensures driven { let now = work_by C.flags C.last C.answered C.brought C.fetched in
        HasDriven plan.now.reaps cache.now.depot.places plan.now.desperate plan.now.scans (now seat.old place.old tally.old client.old)
        (now seat.new place.new tally.new client.new) }
    ensures whole { let now = work_by C.flags C.last C.answered C.brought C.fetched in
        IsWholeDrive plan.now.desperate plan.now.scans (now seat.old place.old tally.old client.old)
        (now seat.new place.new tally.new client.new) }
    ensures paced { let now = work_by C.flags C.last C.answered C.brought C.fetched in
        ArePaced (notes_by C.flags C.last C.answered C.brought C.fetched) P.seen (λ i. P.share pace.now (plan.now.first + 2 * i))
        plan.now.desperate plan.now.scans (now seat.old place.old tally.old client.old) }
    ensures few { length place.new.popped ≤ queue.now.terms.quotas }
    ensures of { IsCacheSeat cache.now seat.new × IsQueueSeat queue.now place.new }
    ensures stays { (C.home client.new ≡ C.home client.old) × (C.sign client.new ≡ C.sign client.old) }
    ensures kept { AreKept (C.flags client.old) (C.flags client.new) }
    ensures given { CountsGiven (C.flags client.new) tally.old tally.new }
    ensures balance { let now = work_by C.flags C.last C.answered C.brought C.fetched in
        IsBalanced (now seat.old place.old tally.old client.old) (now seat.new place.new tally.new client.new) }
{
    if plan.scans == 0 {
        drain(rt, cache, seat, queue, place, client, tally);
        return;
    }
    let before = plan.scans - 1;
    make_scans(
        rt, gate, pace, cache, seat, queue, place, client, plan, before, tally,
    );
    come_up_to(rt, gate, pace, client, plan.mover, plan.first + 2 * before);
    reap_if(rt, cache, seat, plan.reaps);
    scan_and_drain(rt, cache, seat, queue, place, client, plan.desperate, tally);
}
