//! A slab that dies under a pending move, by the seats of two threads.
ghost use Rattle.std.specs.Prelude.{◌≡◌, All, IfSome, IfOk};
ghost use Rattle.object_cache.specs.Moves.{IsJobOf};
ghost use Rattle.magazine.specs.Ready.{IsReady};
ghost use Rattle.kmem_cache.specs.Seats.{buffers_at, IsCacheSeat};

use super::{Counters, new_cache, take_some};
use crate::{Cache, CacheSeat};
use kmem_buf::{Answer, Buf};
use kmem_model::{CacheEntry, Said};
use object_cache::Job;
use std::alloc::{AllocError, Global};
use std::sync::Wait;
use std::test::Fail;
use std::thread::{Threads, join};

// Takes all 33 buffers and frees them from the last one down, but for the first one of each of the first three slabs. The 24 of the other slabs fill the
// seat's magazines and the depot, so the last six go to the slabs.
fn fill<R: Wait>(
    rt: &R,
    alloc: Global,
    cache: &Cache<Counters>,
    seat: &mut CacheSeat<Counters>,
) -> Result<Vec<Buf<Counters>>, AllocError>
    requires of { IsCacheSeat cache.now seat.old }
    ensures of { IsCacheSeat cache.now seat.new }
    ensures ready { IfOk result (λ kept. All (IsReady (λ n. n ≡ 0) (buffers_at cache.now)) kept.items) }
{
    let mut held = take_some(rt, alloc, cache, seat, 33)?;
    let mut kept = Vec::new(alloc);
    while let Some(buf) = held.pop() {
        if buf.number() < 9 && buf.number() % 3 == 0 {
            kept.push(buf)?;
        } else if seat.left() > 0 {
            cache.free(rt, seat, buf);
        }
    }
    Ok(kept)
}

// The next move of a scan.
fn next_move<R: Wait>(
    rt: &R,
    cache: &Cache<Counters>,
    seat: &mut CacheSeat<Counters>,
) -> Option<Job<Counters>>
    requires of { IsCacheSeat cache.now seat.old }
    ensures of { IsCacheSeat cache.now seat.new }
    ensures job { IfSome result (IsJobOf (λ n. n ≡ 0) (buffers_at cache.now)) }
{
    if seat.left() == 0 {
        return None;
    }
    cache.begin(rt, seat).ok()
}

// Whether the move ended since its old buffer is free.
fn is_gone<R: Wait>(
    rt: &R,
    cache: &Cache<Counters>,
    seat: &mut CacheSeat<Counters>,
    job: Job<Counters>,
) -> bool
    requires of { IsCacheSeat cache.now seat.old }
    requires job { IsJobOf (λ n. n ≡ 0) (buffers_at cache.now) job }
    ensures of { IsCacheSeat cache.now seat.new }
{
    seat.left() > 0 && cache.still(rt, seat, job).is_none()
}

// Whether the move ended by yes, with the buffer that was moved from.
fn end_by_yes<R: Wait>(
    rt: &R,
    cache: &Cache<Counters>,
    seat: &mut CacheSeat<Counters>,
    job: Job<Counters>,
    moved: Buf<Counters>,
) -> bool
    requires of { IsCacheSeat cache.now seat.old }
    requires job { IsJobOf (λ n. n ≡ 0) (buffers_at cache.now) job }
    requires ready { IsReady (λ n. n ≡ 0) (buffers_at cache.now) moved }
    ensures of { IsCacheSeat cache.now seat.new }
{
    if seat.left() < 2 {
        return false;
    }
    let Some(job) = cache.still(rt, seat, job) else {
        return false;
    };
    let (pending, _to) = job.part();
    if pending.from() != moved.number() {
        return false;
    }
    cache.end(rt, seat, pending, Answer::Yes(moved));
    true
}

// What a mover has begun, with its seat.
#[derive(Drop)]
struct Moves {
    seat: CacheSeat<Counters>,
    first: Job<Counters>,
    second: Job<Counters>,
}

fn begin_both<R: Wait>(
    rt: &R,
    cache: &Cache<Counters>,
    mut seat: CacheSeat<Counters>,
) -> Option<Moves>
    requires of { IsCacheSeat cache.now seat }
    ensures of { IfSome result (λ m. IsCacheSeat cache.now m.seat) }
    ensures first { IfSome result (λ m. IsJobOf (λ n. n ≡ 0) (buffers_at cache.now) m.first) }
    ensures second { IfSome result (λ m. IsJobOf (λ n. n ≡ 0) (buffers_at cache.now) m.second) }
{
    if seat.left() == 0 {
        return None;
    }
    cache.start_scan(rt, &mut seat, true);
    let first = next_move(rt, cache, &mut seat)?;
    let second = next_move(rt, cache, &mut seat)?;
    Some(Moves {
        seat,
        first,
        second,
    })
}

// The mover meets both moves: the first is gone, the second ends by yes.
fn end_both<R: Wait>(
    rt: &R,
    cache: &Cache<Counters>,
    moves: Moves,
    moved: Buf<Counters>,
) -> (CacheSeat<Counters>, bool)
    requires of { IsCacheSeat cache.now moves.seat }
    requires first { IsJobOf (λ n. n ≡ 0) (buffers_at cache.now) moves.first }
    requires second { IsJobOf (λ n. n ≡ 0) (buffers_at cache.now) moves.second }
    requires ready { IsReady (λ n. n ≡ 0) (buffers_at cache.now) moved }
    ensures of { IsCacheSeat cache.now result.0 }
{
    let Moves {
        mut seat,
        first,
        second,
    } = moves;
    let gone = is_gone(rt, cache, &mut seat, first);
    let yes = end_by_yes(rt, cache, &mut seat, second, moved);
    (seat, gone && yes)
}

// The same in a thread of its own.
fn end_elsewhere<R: Threads + Wait + Sync>(
    rt: &R,
    cache: &Cache<Counters>,
    moves: Moves,
    moved: Buf<Counters>,
) -> (CacheSeat<Counters>, bool)
    requires of { IsCacheSeat cache.now moves.seat }
    requires first { IsJobOf (λ n. n ≡ 0) (buffers_at cache.now) moves.first }
    requires second { IsJobOf (λ n. n ≡ 0) (buffers_at cache.now) moves.second }
    requires ready { IsReady (λ n. n ≡ 0) (buffers_at cache.now) moved }
    ensures of { IsCacheSeat cache.now result.0 }
{
    let (ended, ()) = join(
        rt,
        move || -> (CacheSeat<Counters>, bool)
            requires { IsCacheSeat cache.now moves.seat × IsJobOf (λ n. n ≡ 0) (buffers_at cache.now) moves.first ×
                IsJobOf (λ n. n ≡ 0) (buffers_at cache.now) moves.second × IsReady (λ n. n ≡ 0) (buffers_at cache.now) moved }
            ensures { IsCacheSeat cache.entry.now result.0 }
        { end_both(rt, cache, moves, moved) },
        || (),
    );
    ended
}

// Both seats again, and whether both moves ended as they should.
fn die<R: Threads + Wait + Sync>(
    rt: &R,
    alloc: Global,
    cache: &Cache<Counters>,
    worker: &mut CacheSeat<Counters>,
    mover: CacheSeat<Counters>,
) -> Result<Option<(CacheSeat<Counters>, bool)>, AllocError>
    requires worker { IsCacheSeat cache.now worker.old }
    requires mover { IsCacheSeat cache.now mover }
    ensures worker { IsCacheSeat cache.now worker.new }
    ensures mover { IfOk result (λ o. IfSome o (λ r. IsCacheSeat cache.now r.0)) }
{
    let mut kept = fill(rt, alloc, cache, worker)?;
    let Some(moves) = begin_both(rt, cache, mover) else {
        return Ok(None);
    };
    let (Some(_stays), Some(moved), Some(freed)) = (kept.pop(), kept.pop(), kept.pop()) else {
        return Ok(None);
    };
    if worker.left() > 0 {
        cache.free(rt, worker, freed);
    }
    Ok(Some(end_elsewhere(rt, cache, moves, moved)))
}

#[test]
fn a_dead_slab(rt: HostRuntime) -> Result<(), Fail> {
    let object_cache = new_cache(rt.alloc(), 11, 3, 0)?;
    let (cache, mut seats) = Cache::create(rt.alloc(), object_cache, 1, &[100, 10])?;
    let (Some(mover), Some(mut worker)) = (seats.pop(), seats.pop()) else {
        panic!(rt; "no seats");
    };
    let Some((mover, ended)) = die(&rt, rt.alloc(), &cache, &mut worker, mover)? else {
        panic!(rt; "nothing to move");
    };
    seats.push(worker)?;
    seats.push(mover)?;
    let (object_cache, log) = cache.close(seats);
    let counts = (
        object_cache.slab_count(),
        object_cache.free_count(),
        object_cache.dead_count(),
    );
    assert_eq!(rt; (ended, counts), (true, (1, 1, 0)));
    let wanted = [
        (1, CacheEntry::Scan(true)),
        (1, CacheEntry::Begin(0, 6, 1)),
        (1, CacheEntry::Begin(1, 3, 2)),
        (0, CacheEntry::Free(6)),
        (1, CacheEntry::Gone(0)),
        (1, CacheEntry::End(1, Said::Yes)),
    ];
    assert_eq!(rt; log.entries().get(39..), Some(wanted.as_slice()));
    Ok(())
}
