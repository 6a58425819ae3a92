//! The worked row of a queue of one, and two threads at one queue.
ghost use Rattle.std.specs.Prelude.{◌≡◌, ◌<◌, ◌≤◌, ◌^◌, length, All, IfOk, IfSome};
ghost use Rattle.kmem_buf.specs.Homes.{IsBufferOf};
ghost use Rattle.kmem_model.specs.Heap.{blank};
ghost use Rattle.object_cache.specs.Moves.{IsJobOf};
ghost use Rattle.move_queue.specs.Queue.{IsQueueSeat};

use crate::{MoveQueue, QueueSeat};
use kmem_buf::{Buf, Home};
use object_cache::{Job, ObjectCache};
use record_heap::RecordKind;
use slab_source::Supply;
use std::alloc::{AllocError, Global};
use std::sync::Wait;
use std::test::Fail;
use std::thread::{Threads, join};

// A buffer of the cache.
fn take(cache: &mut ObjectCache<RecordKind>) -> Result<Buf<RecordKind>, AllocError>
    ensures buf { IfOk result (λ buf. IsBufferOf cache.old.home.cells buf × (buf.object ≡ blank)) }
    ensures home { cache.new.home ≡ cache.old.home }
{
    cache.alloc().map_err(|_| AllocError)
}

// Takes three buffers, of which the first stays out.
fn take_three(
    cache: &mut ObjectCache<RecordKind>,
) -> Result<(Buf<RecordKind>, Buf<RecordKind>), AllocError>
    ensures first { IfOk result (λ r. IsBufferOf cache.old.home.cells r.0 × (r.0.object ≡ blank)) }
    ensures second { IfOk result (λ r. IsBufferOf cache.old.home.cells r.1 × (r.1.object ≡ blank)) }
    ensures home { cache.new.home ≡ cache.old.home }
{
    let _out = take(cache)?;
    let second = take(cache)?;
    let third = take(cache)?;
    Ok((second, third))
}

fn free_both(cache: &mut ObjectCache<RecordKind>, both: (Buf<RecordKind>, Buf<RecordKind>))
    requires first { IsBufferOf cache.old.home.cells both.0 × (both.0.object ≡ blank) }
    requires second { IsBufferOf cache.old.home.cells both.1 × (both.1.object ≡ blank) }
    ensures { cache.new.home ≡ cache.old.home }
{
    let (first, second) = both;
    cache.free(first);
    cache.free(second);
}

// A cache of three slabs of three buffers, of which one each is out, in a desperate scan: two moves can begin.
fn scattered(alloc: Global) -> Result<ObjectCache<RecordKind>, AllocError> {
    let supply = Supply::create(alloc, 3)?;
    let mut cache = ObjectCache::create(alloc, RecordKind, supply, 3, 3, 64)?;
    let first = take_three(&mut cache)?;
    let second = take_three(&mut cache)?;
    let third = take_three(&mut cache)?;
    free_both(&mut cache, first);
    free_both(&mut cache, second);
    free_both(&mut cache, third);
    cache.start_scan(true);
    Ok(cache)
}

// Begins the next move.
fn begin(cache: &mut ObjectCache<RecordKind>) -> Result<Job<RecordKind>, AllocError>
    ensures job { IfOk result (IsJobOf (λ o. o ≡ blank) cache.old.home) }
    ensures home { cache.new.home ≡ cache.old.home }
{
    cache.begin().map_err(|_| AllocError)
}

// A queue with two seats, and two jobs for it.
#[derive(Drop)]
struct Bench {
    queue: MoveQueue<RecordKind>,
    a: QueueSeat<RecordKind>,
    b: QueueSeat<RecordKind>,
    first: Job<RecordKind>,
    second: Job<RecordKind>,
}

// A queue with two seats, of this quota each, with two jobs for it.
fn laid(alloc: Global, capacity: u32, quota: u32) -> Result<Bench, AllocError>
    requires capacity { 1 ≤ capacity }
    requires quota { quota < 2 ^ 31 }
    ensures seats { IfOk result (λ r. IsQueueSeat r.queue r.a × IsQueueSeat r.queue r.b × (r.queue.terms.seats ≡ 2)) }
    ensures left { IfOk result (λ r. (r.a.left ≡ quota) × (r.b.left ≡ quota)) }
    ensures refused { IfOk result (λ r. (r.a.refused ≡ 0) × (r.b.refused ≡ 0)) }
    ensures first { IfOk result (λ r. IsJobOf (λ o. o ≡ blank) r.queue.terms.home r.first) }
    ensures second { IfOk result (λ r. IsJobOf (λ o. o ≡ blank) r.queue.terms.home r.second) }
{
    let mut cache = scattered(alloc)?;
    let first = begin(&mut cache)?;
    let second = begin(&mut cache)?;
    let (queue, mut seats) = MoveQueue::create(alloc, cache.home(), capacity, &[quota, quota])?;
    let (Some(b), Some(a)) = (seats.pop(), seats.pop()) else {
        unreachable!()
    };
    Ok(Bench {
        queue,
        a,
        b,
        first,
        second,
    })
}

// How many jobs are left, and the number of the last one.
fn close<R: Wait>(
    rt: &R,
    alloc: Global,
    queue: MoveQueue<RecordKind>,
    a: QueueSeat<RecordKind>,
    b: QueueSeat<RecordKind>,
) -> Result<(usize, Option<u64>), AllocError>
    requires a { IsQueueSeat queue a }
    requires b { IsQueueSeat queue b }
    requires two { queue.terms.seats ≡ 2 }
{
    let mut seats = Vec::new(alloc);
    seats.push(a)?;
    seats.push(b)?;
    let mut left = queue.close(rt, seats);
    Ok((left.len(), told(left.pop())))
}

// The number of the job.
fn told(job: Option<Job<RecordKind>>) -> Option<u64> {
    match job {
        Some(job) => Some(job.no()),
        None => None,
    }
}

// A pushes, B pushes in vain, B and A pop, B pushes, A and B pop: what the pops told.
fn by_turns<R: Wait>(
    rt: &R,
    queue: &MoveQueue<RecordKind>,
    a: &mut QueueSeat<RecordKind>,
    b: &mut QueueSeat<RecordKind>,
    first: Job<RecordKind>,
    second: Job<RecordKind>,
) -> Option<[Option<u64>; 4]>
    requires a { IsQueueSeat queue.now a.old × (1 ≤ a.old.left) × (a.old.refused ≡ 0) }
    requires b { IsQueueSeat queue.now b.old × (1 ≤ b.old.left) × (b.old.refused ≡ 0) }
    requires first { IsJobOf (λ o. o ≡ blank) queue.now.terms.home first }
    requires second { IsJobOf (λ o. o ≡ blank) queue.now.terms.home second }
    ensures a { IsQueueSeat queue.now a.new }
    ensures b { IsQueueSeat queue.now b.new }
{
    if queue.push_job(rt, a, first).is_err() {
        return None;
    }
    let Err(second) = queue.push_job(rt, b, second) else {
        return None;
    };
    let third = told(queue.pop_job(rt, b));
    let fourth = told(queue.pop_job(rt, a));
    if queue.push_job(rt, b, second).is_err() {
        return None;
    }
    let sixth = told(queue.pop_job(rt, a));
    Some([third, fourth, sixth, told(queue.pop_job(rt, b))])
}

#[test]
fn a_queue_of_one(rt: HostRuntime) -> Result<(), Fail> {
    let Bench {
        queue,
        mut a,
        mut b,
        first,
        second,
    } = laid(rt.alloc(), 1, 2)?;
    let answers = by_turns(&rt, &queue, &mut a, &mut b, first, second);
    assert_eq!(rt; answers, Some([Some(0), None, Some(1), None]));
    let log = b.log();
    assert_eq!(rt; (b.left(), log.pushed(), log.refused()), (1, 1, 1));
    assert_eq!(rt; (a.pushed(), a.refused()), (1, 0));
    assert_eq!(rt; close(&rt, rt.alloc(), queue, a, b)?, (0, None));
    Ok(())
}

// What is left comes in the order in which it went in.
#[test]
fn two_are_left(rt: HostRuntime) -> Result<(), Fail> {
    let Bench {
        queue,
        mut a,
        mut b,
        first,
        second,
    } = laid(rt.alloc(), 3, 1)?;
    assert!(rt; queue.push_job(&rt, &mut b, second).is_ok());
    assert!(rt; queue.push_job(&rt, &mut a, first).is_ok());
    assert_eq!(rt; close(&rt, rt.alloc(), queue, a, b)?, (2, Some(0)));
    Ok(())
}

// A seat after its work, with the job that it then has, and how many it popped.
#[derive(Drop)]
struct Worked {
    seat: QueueSeat<RecordKind>,
    held: Option<Job<RecordKind>>,
    popped: u64,
}

// Pushes the job that it has, and pops another where it has none, by turns.
fn work<R: Wait>(
    rt: &R,
    queue: &MoveQueue<RecordKind>,
    mut seat: QueueSeat<RecordKind>,
    mut held: Option<Job<RecordKind>>,
) -> Worked
    requires of { IsQueueSeat queue.now seat }
    requires held { IfSome held (IsJobOf (λ o. o ≡ blank) queue.now.terms.home) }
    ensures { IsQueueSeat queue.now result.seat }
{
    let mut popped: u64 = 0;
    for _ in 0..40000 {
        match held {
            Some(job) => {
                if seat.left() == 0 || seat.refused() > 1 << 62 {
                    held = Some(job);
                } else {
                    held = queue.push_job(rt, &mut seat, job).err();
                }
            }
            None => {
                held = queue.pop_job(rt, &mut seat);
                if held.is_some() {
                    popped = popped.saturating_add(1);
                }
            }
        }
    }
    Worked { seat, held, popped }
}

// Both threads work.
fn work_both<R: Threads + Wait + Sync>(
    rt: &R,
    queue: &MoveQueue<RecordKind>,
    a: (QueueSeat<RecordKind>, Job<RecordKind>),
    b: (QueueSeat<RecordKind>, Job<RecordKind>),
) -> (Worked, Worked)
    requires a { IsQueueSeat queue.now a.0 × IsJobOf (λ o. o ≡ blank) queue.now.terms.home a.1 }
    requires b { IsQueueSeat queue.now b.0 × IsJobOf (λ o. o ≡ blank) queue.now.terms.home b.1 }
    ensures { IsQueueSeat queue.now result.0.seat × IsQueueSeat queue.now result.1.seat }
{
    join(
        rt,
        move || -> Worked
            requires { IsQueueSeat queue.now a.0 × IsJobOf (λ o. o ≡ blank) queue.now.terms.home a.1 }
            ensures { IsQueueSeat queue.entry.now result.seat }
        { work(rt, queue, a.0, Some(a.1)) },
        move || -> Worked
            requires { IsQueueSeat queue.now b.0 × IsJobOf (λ o. o ≡ blank) queue.now.terms.home b.1 }
            ensures { IsQueueSeat queue.entry.now result.seat }
        { work(rt, queue, b.0, Some(b.1)) },
    )
}

fn held_by(worked: &Worked) -> usize {
    if worked.held.is_some() { 1 } else { 0 }
}

#[test]
fn two_threads_push_and_pop(rt: HostRuntime) -> Result<(), Fail> {
    let Bench {
        queue,
        a,
        b,
        first,
        second,
    } = laid(rt.alloc(), 2, 30000)?;
    let (a, b) = work_both(&rt, &queue, (a, first), (b, second));
    let held = held_by(&a).saturating_add(held_by(&b));
    let popped = a.popped.saturating_add(b.popped);
    let pushed = a.seat.pushed().saturating_add(b.seat.pushed());
    let Worked {
        seat: a,
        held: _,
        popped: _,
    } = a;
    let Worked {
        seat: b,
        held: _,
        popped: _,
    } = b;
    let (left, _) = close(&rt, rt.alloc(), queue, a, b)?;
    assert!(rt; pushed > 1000);
    assert_eq!(rt; pushed, popped.saturating_add(left as u64));
    assert_eq!(rt; held.saturating_add(left), 2);
    Ok(())
}

// A queue with its seats is closed in another thread.
fn close_elsewhere<R: Threads + Wait + Sync>(rt: &R, alloc: Global) -> Result<usize, AllocError> {
    let home = Home::of(&Vec::new(alloc), &Vec::new(alloc));
    let (queue, seats) = MoveQueue::<RecordKind>::create(alloc, home, 4, &[5])?;
    let (left, ()) = join(
        rt,
        move || -> Vec<Job<RecordKind>>
            requires { All (IsQueueSeat queue) seats.items × (length seats.items ≡ queue.terms.seats) }
        { queue.close(rt, seats) },
        || (),
    );
    Ok(left.len())
}

#[test]
fn a_queue_goes_to_another_thread(rt: HostRuntime) -> Result<(), Fail> {
    assert_eq!(rt; close_elsewhere(&rt, rt.alloc())?, 0);
    Ok(())
}
