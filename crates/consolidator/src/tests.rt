//! A settle of records in the buffers of a cache.
ghost use Rattle.std.specs.Prelude.{◌<◌, IfOk};

use crate::settle_records;
use kmem_model::law_one_step;
use kmem_text::{NameId, Value};
use object_cache::{Job, ObjectCache, Tally};
use record_heap::{Offer, RecordHeap, RecordKind};
use slab_source::Supply;
use std::alloc::{AllocError, Global};
use std::marker::Model;
use std::test::Fail;
use std::thread::{Threads, join};

mod movers;

// A cache of six slabs with eight buffers, and the records in them, with 48 names.
#[derive(Drop)]
struct Bench {
    cache: ObjectCache<RecordKind>,
    heap: RecordHeap,
}

impl Model for Bench {
    ghost use Rattle.object_cache.specs.Cache.{CacheView};
    ghost use Rattle.consolidator.specs.Bench.{IsSetUp};

    ghost Value = { CacheView };

    ghost view = { λ b. b.cache };

    ghost invariant = { λ b. IsSetUp b.cache b.heap };
}

impl Bench {
    fn create(alloc: Global) -> Result<Bench, AllocError> {
        law_one_step();
        let supply = Supply::create(alloc, 6)?;
        let cache = ObjectCache::create(alloc, RecordKind, supply, 6, 8, 64)?;
        let heap = RecordHeap::create(alloc, cache.home(), 48, 48, 16)?;
        Ok(Bench { cache, heap })
    }

    // Makes a record, if the name is absent and a buffer is free.
    fn put(&mut self, name: u32, value: Value)
        requires { name < 48 }
    {
        law_one_step();
        let name = NameId(name);
        if self.heap.address(name).is_some() {
            return;
        }
        if let Ok(buf) = self.cache.alloc() {
            let _end = self.heap.decide_put(name, value, Offer::Fresh(buf));
        }
    }

    fn del(&mut self, name: u32)
        requires { name < 48 }
    {
        law_one_step();
        let (_reply, ended) = self.heap.del(NameId(name));
        if let Some(buf) = ended {
            self.cache.free(buf);
        }
    }

    // How the moves of a settle end, and how many slabs are listed then.
    fn settled(self) -> (Tally, u32) {
        let Bench {
            mut cache,
            mut heap,
        } = self;
        let tally = settle_records(&mut cache, &mut heap);
        (tally, cache.slab_count())
    }

    // The first move of a scan, with the cache.
    fn begun(self) -> Option<(ObjectCache<RecordKind>, Job<RecordKind>)> {
        let Bench { mut cache, heap: _ } = self;
        cache.start_scan(true);
        match cache.begin() {
            Ok(job) => Some((cache, job)),
            Err(_) => None,
        }
    }
}

// A thread that has a cache of records and a job gives them back.
fn through_a_thread<R: Threads>(
    rt: &R,
    cache: ObjectCache<RecordKind>,
    job: Job<RecordKind>,
) -> (ObjectCache<RecordKind>, Job<RecordKind>) {
    let (back, ()) = join(rt, move || (cache, job), || ());
    back
}

// The only record of the second slab moves to the buffer that is free on the first.
#[test]
fn a_cache_of_records_and_a_job_cross_threads(rt: HostRuntime) -> Result<(), Fail> {
    let value = Value::from_bytes(b"x").ok_or("a value")?;
    let mut bench = Bench::create(rt.alloc())?;
    for name in 0..9 {
        bench.put(name, value);
    }
    bench.del(0);
    let (cache, job) = bench.begun().ok_or("a move")?;
    let (cache, job) = through_a_thread(&rt, cache, job);
    assert_eq!(rt; (cache.pending_count(), job.from(), job.to()), (1, 8, 0));
    Ok(())
}

// Six full slabs of eight. All records but every eighth go: of the six that are left five move to one slab.
#[test]
fn one_record_in_eight(rt: HostRuntime) -> Result<(), Fail> {
    let value = Value::from_bytes(b"x").ok_or("a value")?;
    let mut bench = Bench::create(rt.alloc())?;
    for name in 0..48 {
        bench.put(name, value);
    }
    for name in 0..48 {
        if name % 8 > 0 {
            bench.del(name);
        }
    }
    let (tally, slabs) = bench.settled();
    assert_eq!(rt; (tally.begun, tally.yes, slabs), (5, 5, 1));
    Ok(())
}
