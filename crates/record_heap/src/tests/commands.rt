//! Commands on names and tags.
use super::{Bench, Shown, row_of_four, show};
use crate::RecordHeap;
use kmem_buf::Home;
use kmem_model::Steps;
use kmem_text::{NameId, Value};
use std::test::Fail;
use std::thread::{Threads, join};

// A record is written and read by two names and a tag.
#[test]
fn names_and_a_tag(rt: HostRuntime) -> Result<(), Fail> {
    let mut bench = Bench::create(rt.alloc())?;
    let x = Value::from_bytes(b"x").ok_or("a value")?;
    let y = Value::from_bytes(b"y").ok_or("a value")?;
    assert_eq!(rt;
        [bench.put(5, x), bench.put(5, y), bench.link(5, 2)],
        [Shown::New, Shown::Was(b'x'), Shown::Done]
    );
    assert_eq!(rt;
        [show(bench.heap.first()), bench.next(2), bench.next(5)],
        [Shown::At(2, b'y'), Shown::At(5, b'y'), Shown::Absent]
    );
    assert_eq!(rt;
        [show(bench.heap.count()), bench.get(2), bench.get(3)],
        [Shown::Number(2), Shown::Val(b'y'), Shown::Absent]
    );
    assert_eq!(rt;
        [bench.hold(6, 3), bench.hold(7, 2)],
        [Shown::Absent, Shown::Done]
    );
    assert_eq!(rt;
        (bench.read(), bench.write(x), bench.read()),
        (
            Some(Shown::Val(b'y')),
            Some(Shown::Was(b'y')),
            Some(Shown::Val(b'x'))
        )
    );
    assert_eq!(rt; bench.hold(7, 2), Shown::Used);
    assert_eq!(rt;
        (bench.get(5), bench.heap.live(), bench.heap.leftovers()),
        (Shown::Val(b'x'), 1, 0)
    );
    Ok(())
}

// A hold outlives both names, and what it leaves is a leftover.
#[test]
fn a_hold_outlives_its_names(rt: HostRuntime) -> Result<(), Fail> {
    let mut bench = Bench::create(rt.alloc())?;
    let x = Value::from_bytes(b"x").ok_or("a value")?;
    assert_eq!(rt;
        [bench.put(5, x), bench.link(5, 2), bench.hold(7, 2)],
        [Shown::New, Shown::Done, Shown::Done]
    );
    assert_eq!(rt;
        [bench.del(5), bench.del(2), bench.del(2)],
        [
            (Shown::Gone(b'x'), false),
            (Shown::Gone(b'x'), false),
            (Shown::Absent, false)
        ]
    );
    assert_eq!(rt;
        (bench.heap.live(), bench.heap.leftovers(), bench.meet(0)),
        (1, 0, true)
    );
    assert_eq!(rt; bench.release(), Some((Shown::Done, [2, 7, 0])));
    assert_eq!(rt;
        (bench.heap.live(), bench.heap.leftovers(), bench.meet(0)),
        (0, 1, true)
    );
    assert_eq!(rt;
        (bench.collect(), bench.collect(), bench.meet(0)),
        (Some(0), None, false)
    );
    Ok(())
}

// A record has up to eight names. It ends with the last of them, whatever the order.
#[test]
fn names_up_to_the_eighth(rt: HostRuntime) -> Result<(), Fail> {
    let mut bench = Bench::create(rt.alloc())?;
    let x = Value::from_bytes(b"x").ok_or("a value")?;
    for backward in [false, true] {
        assert_eq!(rt;
            [bench.put(0, x), bench.link(0, 0), bench.link(9, 1)],
            [Shown::New, Shown::Taken, Shown::Absent]
        );
        for name in 1..8 {
            assert_eq!(rt; bench.link(name - 1, name), Shown::Done);
        }
        assert_eq!(rt;
            [bench.link(3, 8), show(bench.heap.count())],
            [Shown::Many, Shown::Number(8)]
        );
        for place in 0..8 {
            let name = if backward { 7 - place } else { place };
            assert_eq!(rt; bench.del(name), (Shown::Gone(b'x'), place == 7));
        }
        assert_eq!(rt; (bench.heap.live(), bench.address(0)), (0, None));
    }
    Ok(())
}

// Where every buffer is taken, a put takes the least leftover, and else finds no room.
#[test]
fn a_leftover_serves(rt: HostRuntime) -> Result<(), Fail> {
    let mut bench = Bench::create(rt.alloc())?;
    let x = Value::from_bytes(b"x").ok_or("a value")?;
    for name in 0..4 {
        assert_eq!(rt; bench.put(name, x), Shown::New);
    }
    assert_eq!(rt;
        [bench.put(4, x), bench.put(3, x)],
        [Shown::Full, Shown::Was(b'x')]
    );
    for name in [2, 1] {
        assert_eq!(rt;
            (bench.hold(0, name), bench.del(name)),
            (Shown::Done, (Shown::Gone(b'x'), false))
        );
        assert!(rt; bench.release().is_some());
    }
    assert_eq!(rt;
        (bench.put(5, x), bench.address(5), bench.heap.leftovers()),
        (Shown::New, Some(1), 1)
    );
    assert_eq!(rt; (bench.collect(), bench.put(6, x)), (Some(2), Shown::New));
    assert_eq!(rt;
        (bench.put(7, x), bench.del(6), bench.put(7, x)),
        (Shown::Full, (Shown::Gone(b'x'), true), Shown::New)
    );
    Ok(())
}

// Of 200,000 names the last alone is there: five steps up and down lead to it, and three from the top.
#[test]
fn a_far_name(rt: HostRuntime) -> Result<(), Fail> {
    let mut bench = Bench::create(rt.alloc())?;
    let mut steps = Steps::create();
    let x = Value::from_bytes(b"x").ok_or("a value")?;
    assert_eq!(rt; bench.put(199_999, x), Shown::New);
    let next = bench.heap.after(NameId(0), &mut steps);
    assert_eq!(rt; (next, steps.count()), (Some(NameId(199_999)), 5));
    let first = bench.heap.least(&mut steps);
    assert_eq!(rt; (first, steps.count()), (Some(NameId(199_999)), 8));
    assert_eq!(rt; bench.del(199_999), (Shown::Gone(b'x'), true));
    assert_eq!(rt; bench.heap.after(NameId(0), &mut steps), None);
    assert_eq!(rt; bench.heap.least(&mut steps), None);
    Ok(())
}

// No tag of a new heap is in use.
#[test]
fn idle_at_first(rt: HostRuntime) -> Result<(), Fail> {
    let row = row_of_four(rt.alloc())?;
    let home = Home::of(&row.cells, &Vec::new(rt.alloc()));
    let heap = RecordHeap::create(rt.alloc(), home, 16, 4, 2)?;
    assert_eq!(rt; show(heap.idle()), Shown::Idle);
    Ok(())
}

// Another thread reads by the hold. What it has are a heap, buffers and a hold.
fn read_elsewhere<R: Threads>(rt: &R, mut bench: Bench) -> (Bench, Option<Shown>) {
    let (back, ()) = join(
        rt,
        move || {
            let reply = bench.read();
            (bench, reply)
        },
        || (),
    );
    back
}

#[test]
fn a_heap_and_a_hold_cross_threads(rt: HostRuntime) -> Result<(), Fail> {
    let mut bench = Bench::create(rt.alloc())?;
    let x = Value::from_bytes(b"x").ok_or("a value")?;
    assert_eq!(rt;
        [bench.put(5, x), bench.hold(7, 5)],
        [Shown::New, Shown::Done]
    );
    let (bench, reply) = read_elsewhere(&rt, bench);
    assert_eq!(rt;
        (reply, bench.get(5)),
        (Some(Shown::Val(b'x')), Shown::Val(b'x'))
    );
    Ok(())
}
