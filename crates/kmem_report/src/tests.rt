//! The report on a small cache with a marked slab.
ghost use Rattle.kmem_io.specs.Streams.{CanRise};

use crate::write_report;
use kmem_buf::{Answer, Buf, Kind};
use kmem_io::{Failed, MemSink};
use object_cache::{ObjectCache, Tally};
use slab_source::Supply;
use std::alloc::{AllocError, Global};
use std::marker::Model;
use std::test::Fail;

const TEXT: &[u8] = b"=== report\nbuffers 8\nlive 3\nslabs 2\nfree 5\nscans 7\nbegun 4\n\
    moves yes 0 no 1 later 3 dontneed 0 dontknow 0 gone 0\n\
    settle yes 10 no 20 later 18446744073709551615 dontneed 40 dontknow 50 gone 60\n\
    slab 0 used 1 stuck 0\nslab 1 used 2\n";

// Its objects are constructed at 0.
#[derive(Drop)]
struct Zeros;

impl Kind for Zeros {
    type Object = u64;

    ghost use Rattle.std.specs.Prelude.{◌≡◌, true};

    ghost constructed = { λ n. n ≡ 0 };

    ghost never_refuses = { true };

    fn construct(&mut self) -> Result<u64, AllocError> {
        Ok(0)
    }

    fn destruct(&mut self, _object: u64) {}
}

// A cache of 2 slabs of 4, and what it gave out.
#[derive(Drop)]
struct Bench {
    cache: ObjectCache<Zeros>,
    held: Vec<Buf<Zeros>>,
}

impl Model for Bench {
    ghost use Rattle.object_cache.specs.Cache.{CacheView};
    ghost use Rattle.kmem_report.specs.Bench.{HasSizes, AreHeld};

    ghost Value = { CacheView };

    ghost view = { λ b. b.cache };

    ghost invariant = { λ b. HasSizes 2 4 b.cache.state × AreHeld b.cache.home b.held.items };
}

impl Bench {
    fn create(alloc: Global) -> Result<Bench, AllocError> {
        let supply = Supply::create(alloc, 2)?;
        Ok(Bench {
            cache: ObjectCache::create(alloc, Zeros, supply, 2, 4, 1)?,
            held: Vec::with_capacity(alloc, 8)?,
        })
    }

    // Takes one buffer more, if there is one.
    fn take(&mut self) -> Result<(), AllocError> {
        let Ok(buf) = self.cache.alloc() else {
            return Err(AllocError);
        };
        self.held.push(buf).map_err(|_| AllocError)
    }

    // Frees what is held at this place.
    fn free(&mut self, place: usize) {
        if place < self.held.len() {
            self.cache.free(self.held.remove(place));
        }
    }

    // Puts the first move of a desperate scan off, and answers its buffers.
    fn put_off(&mut self) -> Option<(u32, u32)> {
        self.cache.start_scan(true);
        let Ok(job) = self.cache.begin() else {
            return None;
        };
        let buffers = (job.from(), job.to());
        let (pending, new) = job.part();
        self.cache.end(pending, Answer::Later(new));
        Some(buffers)
    }

    fn report(&self, out: &mut MemSink) -> Result<(), Failed>
        requires { CanRise out.old.faults }
    {
        let moves = Tally {
            begun: 4,
            yes: 0,
            no: 1,
            later: 3,
            dont_need: 0,
            dont_know: 0,
            gone: 0,
        };
        let settled = Tally {
            begun: 9,
            yes: 10,
            no: 20,
            later: u64::MAX,
            dont_need: 40,
            dont_know: 50,
            gone: 60,
        };
        write_report(3, 7, &moves, &settled, &self.cache, out)
    }
}

// Slab 0 keeps its buffer 0, and is marked with it after three scans; slab 1 keeps two.
fn marked(alloc: Global) -> Result<Bench, Fail> {
    let mut bench = Bench::create(alloc)?;
    for _ in 0..8 {
        bench.take()?;
    }
    for place in [7, 6, 3, 2, 1] {
        bench.free(place);
    }
    for _ in 0..3 {
        if bench.put_off() != Some((0, 6)) {
            return Err(Fail::from("each scan asks about buffer 0"));
        }
    }
    Ok(bench)
}

#[test]
fn the_text(rt: HostRuntime) -> Result<(), Fail> {
    let bench = marked(rt.alloc())?;
    let mut out = MemSink::create(rt.alloc(), 1000, 50, &[])?;
    assert_eq!(rt; bench.report(&mut out), Ok(()));
    assert_eq!(rt; out.bytes(), TEXT);
    Ok(())
}

// The first call takes the line that opens the report, and the second all lines before those of the slabs.
#[test]
fn a_sink_that_fails(rt: HostRuntime) -> Result<(), Fail> {
    let bench = marked(rt.alloc())?;
    let mut out = MemSink::create(rt.alloc(), 1000, 1000, &[4])?;
    assert_eq!(rt; bench.report(&mut out), Err(Failed));
    assert!(rt; TEXT.starts_with(out.bytes()));
    assert_eq!(rt; out.bytes().len() + b"slab 1 used 2\n".len(), TEXT.len());
    Ok(())
}
