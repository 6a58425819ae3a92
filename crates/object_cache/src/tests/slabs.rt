//! Rows on the slab layer.
use super::{Bench, Counters, Counts};
use crate::{AllocRefused, ObjectCache};
use kmem_buf::Cells;
use slab_source::Supply;
use std::test::Fail;

// Two slabs of four: the fuller slab serves first, and a slab with no buffer out goes back.
#[test]
fn the_slab_layer_by_hand(rt: HostRuntime) -> Result<(), Fail> {
    let mut bench = Bench::create(rt.alloc(), 2, 4, 0)?;
    for number in 0..8 {
        assert_eq!(rt; bench.alloc(), Ok(number));
    }
    assert_eq!(rt; bench.alloc(), Err(AllocRefused::Full));
    bench.free_each(&[5, 2, 1]);
    assert_eq!(rt; (bench.alloc(), bench.alloc()), (Ok(5), Ok(1)));
    bench.free_each(&[4, 5, 6, 7]);
    let counts = Counts {
        slabs: 1,
        free: 1,
        out: 3,
        pending: 0,
        dead: 0,
    };
    assert_eq!(rt; bench.counts(), counts);
    assert_eq!(rt; (bench.alloc(), bench.alloc()), (Ok(2), Ok(4)));
    assert_eq!(rt; bench.destructed(), 7);
    Ok(())
}

// The third object is refused where a slab would have to come from the source: nothing has changed, and the next call is served.
#[test]
fn a_kind_that_refuses(rt: HostRuntime) -> Result<(), Fail> {
    let mut bench = Bench::create(rt.alloc(), 2, 2, 3)?;
    assert_eq!(rt; (bench.alloc(), bench.alloc()), (Ok(0), Ok(1)));
    let counts = bench.counts();
    assert_eq!(rt; bench.alloc(), Err(AllocRefused::NoMemory));
    assert_eq!(rt; (bench.counts(), counts.slabs, counts.free), (counts, 1, 0));
    assert_eq!(rt; (bench.alloc(), bench.alloc()), (Ok(2), Ok(3)));
    Ok(())
}

// Fifteen buffers, freed in ascending order, in descending order, and by a stride.
#[test]
fn in_three_orders(rt: HostRuntime) -> Result<(), Fail> {
    let mut bench = Bench::create(rt.alloc(), 3, 5, 0)?;
    for stride in [1, 14, 4] {
        for number in 0..15 {
            assert_eq!(rt; bench.alloc(), Ok(number));
        }
        for number in 0..15 {
            bench.free(number * stride % 15);
        }
        assert_eq!(rt; (bench.counts().slabs, bench.counts().out), (0, 0));
    }
    assert_eq!(rt; bench.destructed(), 45);
    Ok(())
}

// A buffer that is out is met. What a thread may take with it can be sent.
#[test]
fn a_buffer_is_met(rt: HostRuntime) -> Result<(), Fail> {
    let mut bench = Bench::create(rt.alloc(), 1, 1, 0)?;
    let mut buf = bench.cache.alloc().map_err(|_| "refused")?;
    bench.cache.meet(&mut buf);
    let _home = bench.cache.home();
    assert_eq!(rt; buf.number(), 0);
    can_be_sent(&bench.cache);
    can_be_sent(&bench.jobs);
    Ok(())
}

#[test]
fn a_slab_of_the_source_has_no_line(rt: HostRuntime) -> Result<(), Fail> {
    let kind = Counters {
        calls: 0,
        refused_at: 0,
        destructed: 0,
    };
    let supply = Supply::create(rt.alloc(), 1)?;
    let cache = ObjectCache::create(rt.alloc(), kind, supply, 1, 2, 64)?;
    assert_eq!(rt; cache.line(0), None);
    Ok(())
}

fn can_be_sent<T: Send>(_value: &T) {}
