//! Worked rows, and each call once.
ghost use Rattle.std.specs.Prelude.{◌≡◌, ◌<◌, ◌≤◌, ◌*◌, IfSome, length};
ghost use Rattle.kmem_buf.specs.Homes.{IsBufferOf};

use crate::SlabList;
use kmem_buf::{Buf, Kind};
use kmem_model::Steps;
use std::alloc::{AllocError, Global};
use std::test::Fail;

// Its objects are constructed at 0.
#[derive(Drop)]
struct Counters;

impl Kind for Counters {
    type Object = u64;

    ghost use Rattle.std.specs.Prelude.{◌≡◌, true};

    ghost constructed = { λ n. n ≡ 0 };

    ghost never_refuses = { true };

    fn construct(&mut self) -> Result<u64, AllocError> {
        Ok(0)
    }

    fn destruct(&mut self, _object: u64) {}
}

// Lists the slab, if it can be.
fn add(list: &mut SlabList<Counters>, slab: u32)
    ensures { list.new.cells ≡ list.old.cells }
{
    if slab < list.slabs() && !list.is_listed(slab) {
        list.add(slab);
    }
}

// Takes the buffer, if it is free on a listed slab.
fn take(list: &mut SlabList<Counters>, number: u32) -> Option<Buf<Counters>>
    ensures buf { IfSome result (IsBufferOf list.old.cells) }
    ensures cells { list.new.cells ≡ list.old.cells }
{
    let slab = number / list.chunks();
    if slab < list.slabs() && list.is_listed(slab) && !list.is_out(number) {
        return Some(list.take(number, 0));
    }
    None
}

// Slabs of this many buffers, all listed, with these buffers out.
fn listed(
    alloc: Global,
    slabs: u32,
    chunks: u32,
    out: &[u32],
) -> Result<SlabList<Counters>, AllocError>
    requires slabs { (0 < slabs) × (slabs ≤ 8) }
    requires chunks { (0 < chunks) × (chunks ≤ 8) }
    requires buffers { slabs * chunks ≤ 64 }
{
    let mut list = SlabList::create(alloc, slabs, chunks)?;
    for slab in 0..slabs {
        add(&mut list, slab);
    }
    for number in out {
        let _buf = take(&mut list, *number);
    }
    Ok(list)
}

fn put_off(list: &mut SlabList<Counters>, number: u32)
    ensures { list.new.cells ≡ list.old.cells }
{
    if number / list.chunks() < list.slabs() && list.is_out(number) {
        list.later(number);
    }
}

fn fix(list: &mut SlabList<Counters>, number: u32)
    ensures { list.new.cells ≡ list.old.cells }
{
    if number / list.chunks() < list.slabs() && list.is_out(number) {
        list.never(number);
    }
}

fn stuck(list: &SlabList<Counters>, slab: u32) -> Option<u32> {
    if slab < list.slabs() {
        list.stuck(slab)
    } else {
        None
    }
}

fn first_partial(list: &SlabList<Counters>) -> Option<u32> {
    list.first_partial(&mut Steps::create())
}

// The fuller slab serves, then the marked one, and the fuller one again once the stuck buffer is back.
#[test]
fn bins_by_mark_and_use(rt: HostRuntime) -> Result<(), Fail> {
    let mut list = listed(rt.alloc(), 3, 4, &[4, 5, 6, 8, 9, 10])?;
    let buf = take(&mut list, 0).ok_or("taken")?;
    assert_eq!(rt;
        (first_partial(&list), list.first_free()),
        (Some(1), Some(7))
    );
    fix(&mut list, 0);
    assert_eq!(rt;
        (first_partial(&list), list.first_free()),
        (Some(0), Some(1))
    );
    assert_eq!(rt; stuck(&list, 0), Some(0));
    assert_eq!(rt; list.give(buf), 0);
    assert_eq!(rt;
        (first_partial(&list), list.first_free()),
        (Some(1), Some(7))
    );
    assert_eq!(rt; stuck(&list, 0), None);
    Ok(())
}

// A mark comes with the third time, keeps its buffer, and goes by `forget`.
#[test]
fn the_third_time_marks(rt: HostRuntime) -> Result<(), Fail> {
    let mut list = listed(rt.alloc(), 2, 4, &[0, 4, 5])?;
    put_off(&mut list, 4);
    put_off(&mut list, 5);
    assert_eq!(rt; stuck(&list, 1), None);
    put_off(&mut list, 5);
    fix(&mut list, 4);
    assert_eq!(rt; stuck(&list, 1), Some(5));
    list.forget();
    assert_eq!(rt; stuck(&list, 1), None);
    Ok(())
}

// What a scan chooses of 24 buffers, without those that it leaves out.
fn chosen(
    list: &mut SlabList<Counters>,
    numer: u32,
    desperate: bool,
    left_out: &[u32],
) -> Option<u32> {
    for number in 0..24 {
        if number / list.chunks() < list.slabs() {
            list.leave_out(number, left_out.contains(&number));
        }
    }
    let first = list.first_partial(&mut Steps::create());
    list.last_reclaimable(first, numer, desperate)
}

// Slab 0 has six of eight out, and slabs 1 and 2 have two: less than three eighths, but not less than two.
#[test]
fn three_mild_scans(rt: HostRuntime) -> Result<(), Fail> {
    let out = [0, 1, 2, 3, 4, 5, 8, 9, 16, 17];
    let mut list = listed(rt.alloc(), 3, 8, &out)?;
    assert_eq!(rt; list.first_free(), Some(6));
    assert_eq!(rt; chosen(&mut list, 2, false, &[]), None);
    assert_eq!(rt; chosen(&mut list, 3, false, &[]), Some(16));
    assert_eq!(rt; chosen(&mut list, 3, false, &[16]), Some(17));
    assert_eq!(rt; chosen(&mut list, 1, true, &[16, 17]), Some(8));
    assert_eq!(rt; chosen(&mut list, 3, true, &[16, 17, 8, 9]), None);
    fix(&mut list, 17);
    assert_eq!(rt; chosen(&mut list, 3, false, &[]), Some(8));
    assert_eq!(rt; chosen(&mut list, 3, true, &[]), Some(8));
    Ok(())
}

fn leave(list: &mut SlabList<Counters>, slab: u32, dead: bool) {
    if slab < list.slabs() && list.is_listed(slab) && list.used(slab) == 0 {
        if dead {
            list.retire(slab);
        } else {
            list.remove(slab);
        }
    }
}

fn give_back(list: &mut SlabList<Counters>, slab: u32) {
    if slab < list.slabs() && list.is_dead(slab) {
        list.give_back(slab);
    }
}

// How many slabs are listed, how many dead, and how many buffers are out.
fn counts(list: &SlabList<Counters>) -> (u32, u32, u32) {
    (list.listed_count(), list.dead_count(), list.out_count())
}

// A slab with no buffer out serves last, and is then unlisted, dead or not.
#[test]
fn slabs_come_and_go(rt: HostRuntime) -> Result<(), Fail> {
    let mut list = listed(rt.alloc(), 2, 2, &[2])?;
    let mut buf = take(&mut list, 3).ok_or("taken")?;
    list.meet(&mut buf);
    assert_eq!(rt; (buf.number(), list.first_free()), (3, Some(0)));
    let _object = list.give(buf);
    assert_eq!(rt; list.first_free(), Some(3));
    leave(&mut list, 0, true);
    assert_eq!(rt; list.first_dead(), Some(0));
    assert_eq!(rt; counts(&list), (1, 1, 1));
    assert_eq!(rt; (list.free_count(), list.free_on_partial()), (1, 1));
    give_back(&mut list, 0);
    assert_eq!(rt; list.first_dead(), None);
    add(&mut list, 0);
    leave(&mut list, 0, false);
    let _home = list.home(&Vec::new(rt.alloc()));
    assert_eq!(rt; (list.first_free(), list.first_dead()), (Some(3), None));
    can_be_sent(&list);
    Ok(())
}

fn can_be_sent<T: Send>(_value: &T) {}
