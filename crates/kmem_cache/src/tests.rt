//! A kind that may refuse once, and the rows of the shared cache.
ghost use Rattle.std.specs.Prelude.{◌≡◌, ◌+◌, ◌*◌, ◌≤◌, ◌<◌, length, IfOk, IfSome, OnOk, All};
ghost use Rattle.magazine.specs.Ready.{IsReady};
ghost use Rattle.kmem_cache.specs.Opening.{IsAsMade};
ghost use Rattle.kmem_cache.specs.Seats.{buffers_at, IsCacheSeat};

use crate::{Cache, CacheRefused, CacheSeat};
use kmem_buf::{Buf, FullNote, Kind};
use kmem_model::CacheEntry;
use object_cache::ObjectCache;
use slab_source::Supply;
use std::alloc::{AllocError, Global};
use std::sync::Wait;
use std::test::Fail;

mod dead_slab;
mod threads;

// Its objects are constructed at 0. It refuses at its call of one number, counted from 1.
#[derive(Drop)]
struct Counters {
    calls: u32,
    refused_at: u32,
}

impl Kind for Counters {
    type Object = u64;

    ghost use Rattle.std.specs.Prelude.{◌≡◌, false};

    ghost constructed = { λ n. n ≡ 0 };

    ghost never_refuses = { false };

    fn construct(&mut self) -> Result<u64, AllocError> {
        self.calls = self.calls.saturating_add(1);
        if self.calls == self.refused_at {
            return Err(AllocError);
        }
        Ok(0)
    }

    fn destruct(&mut self, _object: u64) {}
}

fn new_cache(
    alloc: Global,
    slabs: u32,
    chunks: u32,
    refused_at: u32,
) -> Result<ObjectCache<Counters>, AllocError>
    requires slabs { (0 < slabs) × (slabs ≤ 64) }
    requires chunks { (0 < chunks) × (chunks ≤ 64) }
    requires buffers { slabs * chunks ≤ 4096 }
    ensures { IfOk result IsAsMade }
{
    let kind = Counters {
        calls: 0,
        refused_at,
    };
    let supply = Supply::create(alloc, slabs)?;
    ObjectCache::create(alloc, kind, supply, slabs, chunks, 64)
}

// Allocates once, and keeps the buffer out for good.
fn take<R: Wait>(
    rt: &R,
    cache: &Cache<Counters>,
    seat: &mut CacheSeat<Counters>,
) -> Result<u32, CacheRefused>
    requires of { IsCacheSeat cache.now seat.old }
    ensures of { IsCacheSeat cache.now seat.new }
{
    if seat.left() == 0 {
        return Err(CacheRefused::NoMemory);
    }
    match cache.alloc(rt, seat) {
        Ok(buf) => Ok(buf.number()),
        Err(refused) => Err(refused),
    }
}

// Allocates up to so many buffers.
fn take_some<R: Wait>(
    rt: &R,
    alloc: Global,
    cache: &Cache<Counters>,
    seat: &mut CacheSeat<Counters>,
    count: u32,
) -> Result<Vec<Buf<Counters>>, AllocError>
    requires of { IsCacheSeat cache.now seat.old }
    ensures of { IsCacheSeat cache.now seat.new }
    ensures ready { IfOk result (λ held. All (IsReady (λ n. n ≡ 0) (buffers_at cache.now)) held.items) }
{
    let mut held = Vec::new(alloc);
    for round in 0..count {
        let _ = round;
        if seat.left() == 0 {
            return Ok(held);
        }
        if let Ok(buf) = cache.alloc(rt, seat) {
            held.push(buf)?;
        }
    }
    Ok(held)
}

// Frees all buffers, the last one first.
fn free_all<R: Wait>(
    rt: &R,
    cache: &Cache<Counters>,
    seat: &mut CacheSeat<Counters>,
    mut held: Vec<Buf<Counters>>,
)
    requires of { IsCacheSeat cache.now seat.old }
    requires ready { All (IsReady (λ n. n ≡ 0) (buffers_at cache.now)) held.items }
    ensures of { IsCacheSeat cache.now seat.new }
{
    while let Some(buf) = held.pop() {
        if seat.left() == 0 {
            return;
        }
        cache.free(rt, seat, buf);
    }
}

#[test]
fn a_kind_that_refuses(rt: HostRuntime) -> Result<(), Fail> {
    let object_cache = new_cache(rt.alloc(), 2, 2, 3)?;
    let (cache, mut seats) = Cache::create(rt.alloc(), object_cache, 1, &[10])?;
    let Some(mut seat) = seats.pop() else {
        panic!(rt; "no seat");
    };
    let first = [take(&rt, &cache, &mut seat), take(&rt, &cache, &mut seat)];
    let none = take(&rt, &cache, &mut seat);
    let next = [take(&rt, &cache, &mut seat), take(&rt, &cache, &mut seat)];
    let full = take(&rt, &cache, &mut seat);
    assert_eq!(rt;
        (first, none),
        ([Ok(0), Ok(1)], Err(CacheRefused::NoMemory))
    );
    assert_eq!(rt;
        (next, full),
        ([Ok(2), Ok(3)], Err(CacheRefused::Full(FullNote { at: 4 })))
    );
    seats.push(seat)?;
    let (object_cache, log) = cache.close(seats);
    assert_eq!(rt; (object_cache.out_count(), log.entries().len()), (4, 5));
    assert_eq!(rt; log.entries().last().copied(), Some((0, CacheEntry::Full)));
    Ok(())
}

// How many entries seats may still make: the one after it took 33 buffers, after it freed them into its magazines and the depot, and after
// a reap; the other after it took 8 of them out of the depot.
#[derive(Clone, Copy, Debug, PartialEq, Eq)]
struct Lefts {
    taken: u32,
    freed: u32,
    other: u32,
    reaped: u32,
}

fn share<R: Wait>(
    rt: &R,
    alloc: Global,
    cache: &Cache<Counters>,
    one: &mut CacheSeat<Counters>,
    other: &mut CacheSeat<Counters>,
) -> Result<Lefts, AllocError>
    requires one { IsCacheSeat cache.now one.old }
    requires other { IsCacheSeat cache.now other.old }
    requires places { cache.now.depot.places ≡ 2 }
    ensures one { IsCacheSeat cache.now one.new }
    ensures other { IsCacheSeat cache.now other.new }
{
    let held = take_some(rt, alloc, cache, one, 33)?;
    let taken = one.left();
    free_all(rt, cache, one, held);
    let freed = one.left();
    take_some(rt, alloc, cache, other, 8)?;
    if one.left() >= 16 {
        cache.reap_now(rt, one);
    }
    Ok(Lefts {
        taken,
        freed,
        other: other.left(),
        reaped: one.left(),
    })
}

// Puts a seat of the cache behind others.
fn put_back(
    _cache: &Cache<Counters>,
    seats: &mut Vec<CacheSeat<Counters>>,
    seat: CacheSeat<Counters>,
) -> Result<(), AllocError>
    requires of { All (IsCacheSeat _cache.now) seats.old.items }
    requires seat { IsCacheSeat _cache.now seat }
    ensures of { OnOk result (All (IsCacheSeat _cache.now) seats.new.items) }
    ensures count { OnOk result (length seats.new.items ≡ length seats.old.items + 1) }
{
    seats.push(seat)?;
    Ok(())
}

// The same with the two seats of a list, which come back.
fn share_both<R: Wait>(
    rt: &R,
    alloc: Global,
    cache: &Cache<Counters>,
    mut seats: Vec<CacheSeat<Counters>>,
) -> Result<Option<(Vec<CacheSeat<Counters>>, Lefts)>, AllocError>
    requires of { All (IsCacheSeat cache.now) seats.items }
    requires places { cache.now.depot.places ≡ 2 }
    ensures of { IfOk result (λ o. IfSome o (λ r. All (IsCacheSeat cache.now) r.0.items)) }
    ensures count { IfOk result (λ o. IfSome o (λ r. length r.0.items ≡ length seats.items)) }
{
    let Some(mut other) = seats.pop() else {
        return Ok(None);
    };
    let Some(mut one) = seats.pop() else {
        return Ok(None);
    };
    let lefts = share(rt, alloc, cache, &mut one, &mut other)?;
    put_back(cache, &mut seats, one)?;
    put_back(cache, &mut seats, other)?;
    Ok(Some((seats, lefts)))
}

#[test]
fn magazines_and_a_depot(rt: HostRuntime) -> Result<(), Fail> {
    let object_cache = new_cache(rt.alloc(), 6, 8, 0)?;
    let (cache, seats) = Cache::create(rt.alloc(), object_cache, 2, &[300, 100])?;
    let Some((seats, lefts)) = share_both(&rt, rt.alloc(), &cache, seats)? else {
        panic!(rt; "no seats");
    };
    let wanted = Lefts {
        taken: 267,
        freed: 266,
        other: 100,
        reaped: 258,
    };
    let (object_cache, log) = cache.close(seats);
    assert_eq!(rt; lefts, wanted);
    assert_eq!(rt; (object_cache.out_count(), log.entries().len()), (8, 42));
    Ok(())
}
