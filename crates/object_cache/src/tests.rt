//! A kind that may refuse once, and a cache with the buffers that it gave out.
ghost use Rattle.std.specs.Prelude.{◌≡◌, ◌≤◌, ◌<◌, ◌*◌, IfSome};
ghost use Rattle.kmem_buf.specs.Homes.{Homes};
ghost use Rattle.object_cache.specs.Moves.{IsJobOf};
ghost use Rattle.object_cache.specs.Bench.{AreOut, IsOutAt};

use crate::{AllocRefused, BeginRefused, Job, ObjectCache, SlabLine};
use kmem_buf::{Answer, Buf, Kind, Verdict};
use slab_source::Supply;
use std::alloc::{AllocError, Global};
use std::marker::Model;
use std::mem::replace;
use std::test::Fail;
use std::thread::{Threads, join};

mod moves;
mod slabs;

// Its objects are constructed at 0. It refuses at its call of one number, counted from 1, and counts what it destructs.
#[derive(Drop)]
struct Counters {
    calls: u32,
    refused_at: u32,
    destructed: u32,
}

impl Kind for Counters {
    type Object = u64;

    ghost use Rattle.std.specs.Prelude.{◌≡◌, false};

    ghost constructed = { λ n. n ≡ 0 };

    ghost never_refuses = { false };

    fn construct(&mut self) -> Result<u64, AllocError> {
        self.calls = self.calls.saturating_add(1);
        if self.calls == self.refused_at {
            return Err(AllocError);
        }
        Ok(0)
    }

    fn destruct(&mut self, _object: u64) {
        self.destructed = self.destructed.saturating_add(1);
    }
}

// A cache, what it gave out, by number, and the moves that it began.
#[derive(Drop)]
struct Bench {
    cache: ObjectCache<Counters>,
    out: Vec<Option<Buf<Counters>>>,
    jobs: Vec<Job<Counters>>,
}

impl Model for Bench {
    ghost use Rattle.std.specs.Prelude.{◌≡◌, All};
    ghost use Rattle.object_cache.specs.Cache.{CacheView};
    ghost use Rattle.object_cache.specs.Bench.{AreOut};
    ghost use Rattle.object_cache.specs.Moves.{IsJobOf};

    ghost Value = { CacheView };

    ghost view = { λ b. b.cache };

    ghost invariant = { λ b. AreOut b.cache.home b.out.items × All (IsJobOf (λ n. n ≡ 0) b.cache.home) b.jobs.items };
}

// What callers can count.
#[derive(Clone, Copy, Debug, PartialEq, Eq)]
struct Counts {
    slabs: u32,
    free: u32,
    out: u32,
    pending: u32,
    dead: u32,
}

impl Bench {
    fn create(alloc: Global, slabs: u32, chunks: u32, refused_at: u32) -> Result<Bench, AllocError>
        requires slabs { (0 < slabs) × (slabs ≤ 8) }
        requires chunks { (0 < chunks) × (chunks ≤ 64) }
        requires buffers { slabs * chunks ≤ 512 }
    {
        let kind = Counters {
            calls: 0,
            refused_at,
            destructed: 0,
        };
        let supply = Supply::create(alloc, slabs)?;
        let mut out = Vec::new(alloc);
        for _ in 0..slabs * chunks {
            out.push(None)?;
        }
        Ok(Bench {
            cache: ObjectCache::create(alloc, kind, supply, slabs, chunks, 64)?,
            out,
            jobs: Vec::with_capacity(alloc, 64)?,
        })
    }

    fn alloc(&mut self) -> Result<u32, AllocRefused> {
        let buf = self.cache.alloc()?;
        let number = buf.number();
        if (number as usize) < self.out.len() {
            self.out[number as usize] = Some(buf);
        }
        Ok(number)
    }

    // Frees the buffer, if it is out.
    fn free(&mut self, number: u32) {
        if (number as usize) < self.out.len() {
            if let Some(buf) = replace(&mut self.out[number as usize], None) {
                self.cache.free(buf);
            }
        }
    }

    fn free_each(&mut self, numbers: &[u32]) {
        for number in numbers {
            self.free(*number);
        }
    }

    fn counts(&self) -> Counts {
        Counts {
            slabs: self.cache.slab_count(),
            free: self.cache.free_count(),
            out: self.cache.out_count(),
            pending: self.cache.pending_count(),
            dead: self.cache.dead_count(),
        }
    }

    // How many objects reached the kind's destruct.
    fn destructed(&self) -> u32 {
        let kind = self.cache.kind();
        kind.destructed
    }

    // What the slab shows, if there is one of this number.
    fn line(&self, slab: u32) -> Option<SlabLine> {
        if slab < self.cache.slabs() {
            self.cache.line(slab)
        } else {
            None
        }
    }

    // Begins a move, and answers its buffers.
    fn begin(&mut self) -> Result<(u32, u32), BeginRefused> {
        let job = self.cache.begin()?;
        let buffers = (job.from(), job.to());
        if self.jobs.push(job).is_err() {
            return Err(BeginRefused::NoMemory);
        }
        Ok(buffers)
    }

    // Ends the move at this place among those that were begun, by this answer if its old buffer is out. Answers whether it is.
    fn end(&mut self, place: usize, verdict: Verdict) -> bool {
        if place >= self.jobs.len() {
            return false;
        }
        let job = self.jobs.remove(place);
        match self.cache.still(job) {
            Some(job) => end_asked(&mut self.cache, &mut self.out, job, verdict),
            None => false,
        }
    }
}

// Ends the move by this answer.
fn end_asked(
    cache: &mut ObjectCache<Counters>,
    out: &mut Vec<Option<Buf<Counters>>>,
    job: Job<Counters>,
    verdict: Verdict,
) -> bool
    requires out { AreOut cache.old.home out.old.items }
    requires job { IsJobOf (λ n. n ≡ 0) cache.old.home job }
    ensures out { AreOut cache.new.home out.new.items }
    ensures home { cache.new.home ≡ cache.old.home }
{
    let (pending, new) = job.part();
    match verdict {
        Verdict::No => cache.end(pending, Answer::No(new)),
        Verdict::Later => cache.end(pending, Answer::Later(new)),
        Verdict::DontKnow => cache.end(pending, Answer::DontKnow(new)),
        Verdict::Yes | Verdict::DontNeed => {
            let Some(old) = take_out(out, pending.from()) else {
                return false;
            };
            if verdict == Verdict::DontNeed {
                cache.end(pending, Answer::DontNeed(old, new));
            } else {
                let number = new.number() as usize;
                if number < out.len() {
                    out[number] = Some(new);
                }
                cache.end(pending, Answer::Yes(old));
            }
        }
    }
    true
}

// Takes the buffer of this number, if it is there.
fn take_out(out: &mut Vec<Option<Buf<Counters>>>, number: u32) -> Option<Buf<Counters>>
    ensures rest { (home : Homes) → AreOut home out.old.items → AreOut home out.new.items }
    ensures taken { IfSome result (λ buf. (home : Homes) → AreOut home out.old.items → IsOutAt home number buf) }
{
    if number as usize >= out.len() {
        return None;
    }
    replace(&mut out[number as usize], None)
}

// Another thread ends the first move that was begun. What it has are a cache, buffers and jobs of one kind.
fn ended_elsewhere<R: Threads>(rt: &R, mut bench: Bench) -> (Bench, bool) {
    let (back, ()) = join(
        rt,
        move || {
            let was_asked = bench.end(0, Verdict::No);
            (bench, was_asked)
        },
        || (),
    );
    back
}

#[test]
fn a_cache_crosses_threads(rt: HostRuntime) -> Result<(), Fail> {
    let mut bench = Bench::create(rt.alloc(), 2, 2, 0)?;
    for number in 0..3 {
        assert_eq!(rt; bench.alloc(), Ok(number));
    }
    bench.free(1);
    bench.cache.start_scan(true);
    assert_eq!(rt; bench.begin(), Ok((2, 1)));
    let (bench, was_asked) = ended_elsewhere(&rt, bench);
    assert_eq!(rt; (was_asked, bench.counts().pending), (true, 0));
    Ok(())
}
