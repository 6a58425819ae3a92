//! A pen and its readers, in one thread and in several.
ghost use Rattle.std.specs.Prelude.{◌≡◌, ◌≤◌};

use crate::{MarkPen, MarkSeat, Marks};
use std::alloc::{AllocError, Global};
use std::test::Fail;
use std::thread::{Threads, join};

// What the words say at the end, and whether a reader found a word known that was never set.
#[derive(Drop)]
struct Outcome {
    set: bool,
    given_up: bool,
    untouched: bool,
    found_odd: bool,
}

// Sets the words of the even buffers over and over, and gives some of them up.
fn write_even(marks: &Marks, mut pen: MarkPen) -> MarkPen
    requires home { pen.home ≡ marks.now.home }
    requires buffers { marks.now.buffers ≡ 64 }
    ensures { result.home ≡ pen.home }
{
    for i in 0..64_000u32 {
        let b = i % 32 * 2;
        if i % 3 == 0 {
            marks.clear(&mut pen, b);
        } else {
            marks.set(&mut pen, b);
        }
    }
    pen
}

// Loads every word over and over. True if one of an odd buffer was known.
fn read_all(marks: &Marks, mut seat: MarkSeat) -> (MarkSeat, bool)
    requires home { seat.home ≡ marks.now.home }
    requires buffers { marks.now.buffers ≡ 64 }
    ensures { result.0.home ≡ seat.home }
{
    let mut found_odd = false;
    for i in 0..64_000u32 {
        let b = i % 64;
        if marks.known(&mut seat, b) && b % 2 == 1 {
            found_odd = true;
        }
    }
    (seat, found_odd)
}

fn write_and_read<R: Threads + Sync>(
    rt: &R,
    marks: &Marks,
    pen: MarkPen,
    seat: MarkSeat,
) -> (MarkPen, (MarkSeat, bool))
    requires home { (pen.home ≡ marks.now.home) × (seat.home ≡ marks.now.home) }
    requires buffers { marks.now.buffers ≡ 64 }
    ensures pen { result.0.home ≡ marks.now.home }
    ensures seat { result.1.0.home ≡ marks.now.home }
{
    join(
        rt,
        move || -> MarkPen
            requires { (pen.home ≡ marks.now.home) × (marks.now.buffers ≡ 64) }
            ensures { result.home ≡ marks.entry.now.home }
        { write_even(marks, pen) },
        move || -> (MarkSeat, bool)
            requires { (seat.home ≡ marks.now.home) × (marks.now.buffers ≡ 64) }
            ensures { result.0.home ≡ marks.entry.now.home }
        { read_all(marks, seat) },
    )
}

// A pen in one thread and a reader in another.
fn two_threads<R: Threads + Sync>(rt: &R, alloc: Global) -> Result<Outcome, AllocError> {
    let (marks, pen, mut seats) = Marks::create(alloc, 64, 1)?;
    let Some(seat) = seats.pop() else {
        unreachable!()
    };
    let (mut pen, (mut seat, found_odd)) = write_and_read(rt, &marks, pen, seat);
    marks.set(&mut pen, 10);
    marks.clear(&mut pen, 12);
    Ok(Outcome {
        set: marks.known(&mut seat, 10),
        given_up: marks.known(&mut seat, 12),
        untouched: marks.known(&mut seat, 13),
        found_odd,
    })
}

// Sets one word and reads it.
fn set_and_read(marks: Marks, mut pen: MarkPen, mut seat: MarkSeat) -> bool
    requires home { (pen.home ≡ marks.home) × (seat.home ≡ marks.home) }
    requires buffers { marks.buffers ≡ 1 }
{
    marks.set(&mut pen, 0);
    marks.known(&mut seat, 0)
}

// The words, their pen and a seat go to another thread together.
fn all_go<R: Threads + Sync>(rt: &R, alloc: Global) -> Result<bool, AllocError> {
    let (marks, pen, mut seats) = Marks::create(alloc, 1, 1)?;
    let Some(seat) = seats.pop() else {
        unreachable!()
    };
    let (found, ()) = join(
        rt,
        move || -> bool
            requires { (pen.home ≡ marks.home) × (seat.home ≡ marks.home) × (marks.buffers ≡ 1) }
        { set_and_read(marks, pen, seat) },
        || (),
    );
    Ok(found)
}

#[test]
fn a_pen_beside_a_reader(rt: HostRuntime) -> Result<(), Fail> {
    let outcome = two_threads(&rt, rt.alloc())?;
    assert!(rt; outcome.set);
    assert!(rt; !outcome.given_up);
    assert!(rt; !outcome.untouched);
    assert!(rt; !outcome.found_odd);
    Ok(())
}

#[test]
fn all_go_to_another_thread(rt: HostRuntime) -> Result<(), Fail> {
    assert!(rt; all_go(&rt, rt.alloc())?);
    Ok(())
}

// A buffer in a magazine is unknown, whether it was never used or its object was given up.
#[test]
fn a_buffer_in_a_magazine_is_unknown(rt: HostRuntime) -> Result<(), Fail> {
    let (marks, mut pen, mut seats) = Marks::create(rt.alloc(), 3, 2)?;
    let (Some(mut seat), Some(mut other)) = (seats.pop(), seats.pop()) else {
        unreachable!()
    };
    assert!(rt; !marks.known(&mut seat, 0));
    marks.set(&mut pen, 0);
    marks.set(&mut pen, 2);
    assert!(rt; marks.known(&mut seat, 0));
    assert!(rt; !marks.known(&mut seat, 1));
    assert!(rt; marks.known(&mut other, 2));
    marks.clear(&mut pen, 2);
    assert!(rt; !marks.known(&mut seat, 2));
    assert!(rt; marks.known(&mut other, 0));
    marks.set(&mut pen, 2);
    assert!(rt; marks.known(&mut seat, 2));
    Ok(())
}

#[test]
fn no_buffers(rt: HostRuntime) -> Result<(), Fail> {
    let (_marks, _pen, seats) = Marks::create(rt.alloc(), 0, 2)?;
    assert_eq!(rt; seats.len(), 2);
    let (_marks, _pen, seats) = Marks::create(rt.alloc(), 2, 0)?;
    assert_eq!(rt; seats.len(), 0);
    Ok(())
}
