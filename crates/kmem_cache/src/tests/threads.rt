//! Rows of several threads: four that allocate and free while a fifth moves, and a slab that dies under a pending move.
ghost use Rattle.std.specs.Prelude.{◌≡◌, All, length};
ghost use Rattle.kmem_cache.specs.Seats.{IsCacheSeat};

use super::{Counters, free_all, new_cache, take_some};
use crate::{Cache, CacheSeat};
use kmem_buf::Answer;
use std::alloc::{AllocError, Global};
use std::sync::Wait;
use std::test::Fail;
use std::thread::{Threads, for_each_mut};

// Two hundred times takes twenty buffers and frees them, and then keeps one for good.
fn work<R: Wait>(
    rt: &R,
    alloc: Global,
    cache: &Cache<Counters>,
    seat: &mut CacheSeat<Counters>,
) -> Result<(), AllocError>
    requires of { IsCacheSeat cache.now seat.old }
    ensures of { IsCacheSeat cache.now seat.new }
{
    for round in 0..200 {
        let _ = round;
        let held = take_some(rt, alloc, cache, seat, 20)?;
        free_all(rt, cache, seat, held);
    }
    take_some(rt, alloc, cache, seat, 1)?;
    Ok(())
}

// Scans, and puts off the move that is begun, if there is one.
fn move_once<R: Wait>(rt: &R, cache: &Cache<Counters>, seat: &mut CacheSeat<Counters>)
    requires of { IsCacheSeat cache.now seat.old }
    ensures of { IsCacheSeat cache.now seat.new }
{
    if seat.left() < 4 {
        return;
    }
    cache.start_scan(rt, seat, true);
    let Ok(job) = cache.begin(rt, seat) else {
        return;
    };
    let Some(job) = cache.still(rt, seat, job) else {
        return;
    };
    let (pending, buf) = job.part();
    cache.end(rt, seat, pending, Answer::Later(buf));
}

fn move_often<R: Wait>(rt: &R, cache: &Cache<Counters>, seat: &mut CacheSeat<Counters>)
    requires of { IsCacheSeat cache.now seat.old }
    ensures of { IsCacheSeat cache.now seat.new }
{
    for round in 0..500 {
        let _ = round;
        move_once(rt, cache, seat);
    }
}

// What the thread of a seat does: the fifth moves, the others work.
fn run_one<R: Wait>(
    rt: &R,
    alloc: Global,
    cache: &Cache<Counters>,
    place: usize,
    seat: &mut CacheSeat<Counters>,
)
    requires of { IsCacheSeat cache.now seat.old }
    ensures of { IsCacheSeat cache.now seat.new }
{
    if place == 4 {
        move_often(rt, cache, seat);
    } else {
        let _ = work(rt, alloc, cache, seat);
    }
}

// Each seat in a thread of its own.
fn run_all<R: Threads + Wait + Sync>(
    rt: &R,
    alloc: Global,
    cache: &Cache<Counters>,
    seats: &mut [CacheSeat<Counters>],
)
    requires of { All (IsCacheSeat cache.now) seats.old }
    ensures of { All (IsCacheSeat cache.now) seats.new }
    ensures count { length seats.new ≡ length seats.old }
{
    for_each_mut(
        rt,
        seats,
        5,
        &|place, seat: &mut CacheSeat<Counters>|
            requires { IsCacheSeat cache.now seat.old }
            ensures { IsCacheSeat cache.entry.now seat.new }
        { run_one(rt, alloc, cache, place, seat) },
    );
}

// There are more buffers than the threads and all magazines can have, so each of the four keeps one.
#[test]
fn four_workers_and_a_mover(rt: HostRuntime) -> Result<(), Fail> {
    let object_cache = new_cache(rt.alloc(), 32, 8, 0)?;
    let quotas = [10000, 10000, 10000, 10000, 2000];
    let (cache, mut seats) = Cache::create(rt.alloc(), object_cache, 2, &quotas)?;
    run_all(&rt, rt.alloc(), &cache, seats.as_mut_slice());
    let (object_cache, _log) = cache.close(seats);
    assert_eq!(rt; object_cache.out_count(), 4);
    Ok(())
}
