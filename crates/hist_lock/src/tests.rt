//! A client: several threads add to one sum.
ghost use Rattle.std.specs.Prelude.{◌≡◌, ◌≤◌, ◌<◌, [], All, length, IfOk, vec_capacity};
ghost use Rattle.hist_lock.specs.Tally.{sum_of, sums_before, MayAdd, IsAdder, IsDone};

use crate::{HistLock, Pass};
use std::alloc::{AllocError, Global};
use std::sync::Wait;
use std::test::Fail;
use std::thread::{Threads, for_each_mut, join};

mod tally;

use tally::{Done, Read, Tally, add_all, add_each, amount, read_once};

// The sum, the history, and what the turns of two passes found.
#[derive(Drop)]
struct Outcome {
    sum: u64,
    history: Vec<(u32, u32)>,
    first: Vec<u64>,
    second: Vec<u64>,
}

fn new_tally() -> Tally
    ensures { (result.sum ≡ 0) × (result.adds ≡ 0) × (result.most ≡ 10000000) }
{
    Tally {
        sum: 0,
        adds: 0,
        most: 10000000,
    }
}

// Two passes add in a thread each.
fn add_both<R: Threads + Wait + Sync>(
    rt: &R,
    lock: &HistLock<Tally>,
    a: Done,
    b: Done,
) -> (Done, Done)
    requires most { lock.now.home ≡ 10000000 }
    requires a { MayAdd lock.now a.pass a.found.items (vec_capacity a.found) }
    requires b { MayAdd lock.now b.pass b.found.items (vec_capacity b.found) }
    ensures a { IsDone lock.now a.pass.number result.0.pass result.0.found.items }
    ensures b { IsDone lock.now b.pass.number result.1.pass result.1.found.items }
{
    join(
        rt,
        move || -> Done
            requires { (lock.now.home ≡ 10000000) × MayAdd lock.now a.pass a.found.items (vec_capacity a.found) }
            ensures { IsDone lock.entry.now a.pass.number result.pass result.found.items }
        { add_all(rt, lock, a) },
        move || -> Done
            requires { (lock.now.home ≡ 10000000) × MayAdd lock.now b.pass b.found.items (vec_capacity b.found) }
            ensures { IsDone lock.entry.now b.pass.number result.pass result.found.items }
        { add_all(rt, lock, b) },
    )
}

// Two threads add until their quotas are used up. Each turn found the sum of the entries before its own.
fn two_threads<R: Threads + Wait + Sync>(
    rt: &R,
    alloc: Global,
    quota: u32,
) -> Result<Outcome, AllocError>
    requires { quota ≤ 10000 }
    ensures sum { IfOk result (λ r. r.sum ≡ sum_of r.history.items) }
    ensures first { IfOk result (λ r. r.first.items ≡ sums_before 0 0 r.history.items) }
    ensures second { IfOk result (λ r. r.second.items ≡ sums_before 0 1 r.history.items) }
{
    let first = Vec::with_capacity(alloc, quota as usize)?;
    let second = Vec::with_capacity(alloc, quota as usize)?;
    let (lock, mut passes) = HistLock::create(alloc, new_tally(), &[quota, quota])?;
    let (Some(b), Some(a)) = (passes.pop(), passes.pop()) else {
        unreachable!()
    };
    let (a, b) = add_both(
        rt,
        &lock,
        Done {
            pass: a,
            found: first,
        },
        Done {
            pass: b,
            found: second,
        },
    );
    passes.push_reserved(a.pass);
    passes.push_reserved(b.pass);
    let (object, history) = lock.close(passes);
    Ok(Outcome {
        sum: object.sum,
        history,
        first: a.found,
        second: b.found,
    })
}

// All passes add in a thread each.
fn add_together<R: Threads + Wait + Sync>(
    rt: &R,
    lock: &HistLock<Tally>,
    passes: &mut [Pass<Tally>],
)
    requires most { lock.now.home ≡ 10000000 }
    requires some { 0 < length passes.old }
    requires passes { All (IsAdder lock.now) passes.old }
    ensures count { length passes.new ≡ length passes.old }
    ensures passes { All (λ p. p.site ≡ lock.now) passes.new }
{
    let count = passes.len();
    for_each_mut(
        rt,
        passes,
        count,
        &|_, pass: &mut Pass<Tally>|
            requires { (lock.now.home ≡ 10000000) × IsAdder lock.now pass.old }
            ensures { pass.new.site ≡ lock.entry.now }
        { add_each(rt, lock, pass) },
    );
}

// The passes, once all have added.
fn add_all_together<R: Threads + Wait + Sync>(
    rt: &R,
    lock: &HistLock<Tally>,
    mut passes: Vec<Pass<Tally>>,
) -> Vec<Pass<Tally>>
    requires most { lock.now.home ≡ 10000000 }
    requires some { 0 < length passes.items }
    requires passes { All (IsAdder lock.now) passes.items }
    ensures count { length result.items ≡ length passes.items }
    ensures passes { All (λ p. p.site ≡ lock.now) result.items }
    ensures room { vec_capacity result ≡ vec_capacity passes }
{
    add_together(rt, lock, &mut passes);
    passes
}

// Waits for half of so many entries, and for all of them. Answers the sum then.
fn look_on<R: Wait>(
    rt: &R,
    lock: &HistLock<Tally>,
    mut pass: Pass<Tally>,
    count: u32,
) -> (u64, Pass<Tally>)
    requires { pass.site ≡ lock.now }
    ensures pass { result.1.site ≡ lock.now }
    ensures long { count ≤ length result.1.seen }
{
    lock.await_count(rt, &mut pass, count / 2);
    lock.await_count(rt, &mut pass, count);
    let sum = lock.look(rt, &mut pass, Read);
    (sum, pass)
}

// All but the last pass add, while the last one looks on.
fn add_and_look<R: Threads + Wait + Sync>(
    rt: &R,
    lock: &HistLock<Tally>,
    last: Pass<Tally>,
    passes: Vec<Pass<Tally>>,
    count: u32,
) -> ((u64, Pass<Tally>), Vec<Pass<Tally>>)
    requires most { lock.now.home ≡ 10000000 }
    requires last { last.site ≡ lock.now }
    requires some { 0 < length passes.items }
    requires passes { All (IsAdder lock.now) passes.items }
    ensures last { result.0.1.site ≡ lock.now }
    ensures passes { All (λ p. p.site ≡ lock.now) result.1.items }
    ensures count { length result.1.items ≡ length passes.items }
    ensures room { vec_capacity result.1 ≡ vec_capacity passes }
{
    join(
        rt,
        move || -> (u64, Pass<Tally>)
            requires { last.site ≡ lock.now }
            ensures { result.1.site ≡ lock.entry.now }
        { look_on(rt, lock, last, count) },
        move || -> Vec<Pass<Tally>>
            requires { (lock.now.home ≡ 10000000) × (0 < length passes.items) × All (IsAdder lock.now) passes.items }
            ensures { (length result.items ≡ length passes.items) × (vec_capacity result ≡ vec_capacity passes) ×
                All (λ p. p.site ≡ lock.entry.now) result.items }
        { add_all_together(rt, lock, passes) },
    )
}

// Sixteen threads add two thousand times each, while one more waits for what they add. Answers the sum that it then found, and
// what is there at the end.
fn sixteen_threads<R: Threads + Wait + Sync>(
    rt: &R,
    alloc: Global,
) -> Result<(u64, u64, Vec<(u32, u32)>), AllocError>
    ensures { IfOk result (λ r. r.1 ≡ sum_of r.2.items) }
{
    let mut quotas = [2000; 17];
    quotas[16] = 0;
    let (lock, mut passes) = HistLock::create(alloc, new_tally(), &quotas)?;
    let Some(last) = passes.pop() else {
        unreachable!()
    };
    let ((found, last), mut passes) = add_and_look(rt, &lock, last, passes, 32000);
    passes.push_reserved(last);
    let (object, history) = lock.close(passes);
    Ok((found, object.sum, history))
}

// Whether each pass's entries stand in its order.
fn in_order(history: &[(u32, u32)]) -> bool {
    let mut counts = [0u32; 16];
    for entry in history {
        let place = (entry.0 % 16) as usize;
        let count = counts[place].wrapping_add(1);
        if count > 10000 || amount(entry.0, count) != entry.1 {
            return false;
        }
        counts[place] = count;
    }
    true
}

#[test]
fn sixteen_threads_add(rt: HostRuntime) -> Result<(), Fail> {
    let (found, sum, history) = sixteen_threads(&rt, rt.alloc())?;
    assert_eq!(rt; found, 26_235_111_000);
    assert_eq!(rt; sum, 26_235_111_000);
    assert_eq!(rt; history.len(), 32_000);
    assert!(rt; in_order(history.as_slice()));
    Ok(())
}

#[test]
fn two_threads_add(rt: HostRuntime) -> Result<(), Fail> {
    let outcome = two_threads(&rt, rt.alloc(), 3)?;
    assert_eq!(rt; outcome.sum, 66);
    assert_eq!(rt; outcome.history.len(), 6);
    assert!(rt; in_order(outcome.history.as_slice()));
    Ok(())
}

#[test]
fn reads_with_no_quota(rt: HostRuntime) -> Result<(), Fail> {
    assert_eq!(rt; read_once(&rt, rt.alloc())?, 0);
    Ok(())
}
