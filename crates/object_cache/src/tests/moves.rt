//! Rows on scans and moves.
ghost use Rattle.std.specs.Prelude.{◌≤◌, ◌<◌, ◌*◌};

use super::{Bench, Counters, Counts};
use crate::{AllocRefused, BeginRefused, Job, SlabLine};
use kmem_buf::Verdict;
use std::alloc::{AllocError, Global};
use std::test::Fail;

// Slabs of which all buffers are out, but these.
fn filled(alloc: Global, slabs: u32, chunks: u32, free: &[u32]) -> Result<Bench, AllocError>
    requires slabs { (0 < slabs) × (slabs ≤ 8) }
    requires chunks { (0 < chunks) × (chunks ≤ 64) }
    requires buffers { slabs * chunks ≤ 512 }
{
    let mut bench = Bench::create(alloc, slabs, chunks, 0)?;
    for _ in 0..slabs * chunks {
        let _number = bench.alloc();
    }
    bench.free_each(free);
    Ok(bench)
}

// Three scans put the move off: the slab is marked, and serves first. The mark goes with the stuck buffer.
#[test]
fn marked_after_three(rt: HostRuntime) -> Result<(), Fail> {
    let mut bench = filled(rt.alloc(), 2, 4, &[1, 2, 3, 6, 7])?;
    for _ in 0..2 {
        bench.cache.start_scan(true);
        assert_eq!(rt; bench.begin(), Ok((0, 6)));
        assert!(rt; bench.end(0, Verdict::Later));
        assert_eq!(rt; bench.begin(), Err(BeginRefused::Idle));
    }
    bench.cache.start_scan(true);
    assert_eq!(rt; bench.begin(), Ok((0, 6)));
    assert!(rt; bench.end(0, Verdict::Later));
    let marked = SlabLine {
        used: 1,
        stuck: Some(0),
    };
    assert_eq!(rt; bench.line(0), Some(marked));
    assert_eq!(rt; bench.alloc(), Ok(1));
    bench.free(0);
    assert_eq!(rt; bench.alloc(), Ok(6));
    assert_eq!(rt; bench.destructed(), 9);
    Ok(())
}

// A slab that empties while moves are pending is dead until the last one ends.
#[test]
fn a_dead_slab(rt: HostRuntime) -> Result<(), Fail> {
    let mut bench = filled(rt.alloc(), 3, 3, &[1, 2, 4, 5, 7, 8])?;
    bench.cache.start_scan(true);
    assert_eq!(rt; (bench.begin(), bench.begin()), (Ok((6, 1)), Ok((3, 2))));
    bench.free(6);
    assert_eq!(rt; bench.counts().dead, 1);
    assert!(rt; !bench.end(0, Verdict::Yes));
    assert_eq!(rt; (bench.counts().pending, bench.counts().dead), (1, 1));
    assert!(rt; bench.end(0, Verdict::Yes));
    let counts = Counts {
        slabs: 1,
        free: 1,
        out: 2,
        pending: 0,
        dead: 0,
    };
    assert_eq!(rt; bench.counts(), counts);
    assert_eq!(rt; bench.destructed(), 9);
    Ok(())
}

// The numerator grows where a mild scan begins no move.
#[test]
fn three_mild_scans(rt: HostRuntime) -> Result<(), Fail> {
    let free = [6, 7, 10, 11, 12, 13, 14, 15, 18, 19, 20, 21, 22, 23];
    let mut bench = filled(rt.alloc(), 3, 8, &free)?;
    for _ in 0..2 {
        bench.cache.start_scan(false);
        assert_eq!(rt; bench.begin(), Err(BeginRefused::Idle));
    }
    bench.cache.start_scan(false);
    assert_eq!(rt; (bench.begin(), bench.begin()), (Ok((16, 6)), Ok((17, 7))));
    assert_eq!(rt; bench.begin(), Err(BeginRefused::Idle));
    Ok(())
}

// The object of the new buffer is refused: nothing has changed, and the next call is served.
#[test]
fn a_refused_begin(rt: HostRuntime) -> Result<(), Fail> {
    let mut bench = Bench::create(rt.alloc(), 2, 2, 4)?;
    for number in 0..3 {
        assert_eq!(rt; bench.alloc(), Ok(number));
    }
    bench.free(1);
    bench.cache.start_scan(true);
    let counts = bench.counts();
    assert_eq!(rt; bench.begin(), Err(BeginRefused::NoMemory));
    assert_eq!(rt; bench.counts(), counts);
    assert_eq!(rt; bench.begin(), Ok((2, 1)));
    Ok(())
}

// Dead slabs serve again before the cache is full, the old buffer of a pending move among theirs.
#[test]
fn dead_slabs_taken_back(rt: HostRuntime) -> Result<(), Fail> {
    let mut bench = filled(rt.alloc(), 3, 2, &[1, 3, 5])?;
    bench.cache.start_scan(true);
    assert_eq!(rt; bench.begin(), Ok((4, 1)));
    assert_eq!(rt; bench.begin(), Err(BeginRefused::Idle));
    bench.free_each(&[0, 2, 4]);
    assert_eq!(rt; bench.counts().dead, 2);
    for number in [0, 2, 3, 4, 5] {
        assert_eq!(rt; bench.alloc(), Ok(number));
    }
    assert_eq!(rt; bench.alloc(), Err(AllocRefused::Full));
    assert!(rt; bench.end(0, Verdict::DontKnow));
    assert_eq!(rt; (bench.counts().free, bench.counts().dead), (1, 0));
    assert_eq!(rt; bench.destructed(), 7);
    Ok(())
}

// Sixty-four moves are pending, and the next begins once one of them has ended.
#[test]
fn as_many_as_the_limit(rt: HostRuntime) -> Result<(), Fail> {
    let mut bench = filled(rt.alloc(), 6, 64, &[])?;
    for half in 0..192 {
        bench.free(2 * half + 1);
    }
    bench.cache.start_scan(true);
    for _ in 0..64 {
        assert!(rt; bench.begin().is_ok());
    }
    assert_eq!(rt;
        (bench.begin(), bench.counts().pending),
        (Err(BeginRefused::Idle), 64)
    );
    assert!(rt; bench.end(40, Verdict::DontNeed));
    assert!(rt; bench.end(5, Verdict::No));
    assert!(rt; bench.begin().is_ok());
    assert_eq!(rt; bench.counts().pending, 63);
    assert_eq!(rt; bench.destructed(), 195);
    bench.cache.forget();
    Ok(())
}

// What a move tells of itself: its number, its old buffer and its new one.
type Told = (u64, u32, u32);

// What the job tells, and what its part does.
fn told(job: Job<Counters>) -> (Told, Told) {
    let of_job = (job.no(), job.from(), job.to());
    let (pending, _buf) = job.part();
    (of_job, (pending.no(), pending.from(), pending.to()))
}

// A move has the least number that no pending move has.
#[test]
fn moves_have_numbers(rt: HostRuntime) -> Result<(), Fail> {
    let mut bench = filled(rt.alloc(), 3, 3, &[1, 2, 4, 5, 7, 8])?;
    bench.cache.start_scan(true);
    assert_eq!(rt; (bench.begin(), bench.begin()), (Ok((6, 1)), Ok((3, 2))));
    let second = bench.jobs.pop().map(told);
    let first = bench.jobs.pop().map(told);
    assert_eq!(rt; first, Some(((0, 6, 1), (0, 6, 1))));
    assert_eq!(rt; second, Some(((1, 3, 2), (1, 3, 2))));
    Ok(())
}
