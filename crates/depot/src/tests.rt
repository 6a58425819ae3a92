//! The worked row of a depot of two places, and two threads at one place.
ghost use Rattle.std.specs.Prelude.{◌≡◌, ◌+◌, ◌*◌, ◌<◌, [], length, vec_len, All, IfOk, OnOk};
ghost use Rattle.std.specs.List.{sum_by};
ghost use Rattle.kmem_buf.specs.Homes.{cell_homes};
ghost use Rattle.magazine.specs.Layer.{IsFull};
ghost use Rattle.magazine.specs.Ready.{AreReady};
ghost use Rattle.depot.specs.Depot.{IsDepotSeat};

use crate::{Depot, DepotSeat};
use kmem_buf::{Cell, Home, Kind};
use magazine::Magazine;
use std::alloc::{AllocError, Global};
use std::test::Fail;
use std::thread::{Threads, join};

// Its objects are constructed at 0.
struct Zeros;

impl Kind for Zeros {
    type Object = u32;

    ghost use Rattle.std.specs.Prelude.{◌≡◌, true};

    ghost constructed = { λ n. n ≡ 0 };

    ghost never_refuses = { true };

    fn construct(&mut self) -> Result<u32, AllocError> {
        Ok(0)
    }

    fn destruct(&mut self, _object: u32) {}
}

// Puts the buffer of one more cell into the magazine.
fn add(
    alloc: Global,
    number: u32,
    cells: &mut Vec<Cell>,
    magazine: &mut Magazine<Zeros>,
) -> Result<(), AllocError>
    requires room { length magazine.old < 8 }
    requires number { number ≡ vec_len cells.old }
    requires ready { AreReady (λ n. n ≡ 0) (record { cells = cell_homes cells.old.items; moves = [] }) magazine.old }
    ensures ready { OnOk result (AreReady (λ n. n ≡ 0) (record { cells = cell_homes cells.new.items; moves = [] }) magazine.new) }
    ensures len { OnOk result ((length magazine.new ≡ length magazine.old + 1) × (vec_len cells.new ≡ vec_len cells.old + 1)) }
{
    let mut cell = Cell::create(alloc, number)?;
    let buf = cell.take(0);
    cells.push(cell)?;
    magazine.push(buf);
    Ok(())
}

fn full_magazine(alloc: Global, cells: &mut Vec<Cell>) -> Result<Magazine<Zeros>, AllocError>
    requires { cells.old.items ≡ [] }
    ensures full { IfOk result IsFull }
    ensures ready { IfOk result (λ m. AreReady (λ n. n ≡ 0) (record { cells = cell_homes cells.new.items; moves = [] }) m) }
{
    let mut magazine = Magazine::<Zeros>::create(alloc)?;
    for number in 0..8 {
        add(alloc, number, cells, &mut magazine)?;
    }
    Ok(magazine)
}

// Whether it is Ok, and the number of the round that comes out of the magazine.
fn shown(outcome: Result<Magazine<Zeros>, Magazine<Zeros>>) -> (bool, Option<u32>) {
    let (is_ok, mut magazine) = match outcome {
        Ok(magazine) => (true, magazine),
        Err(magazine) => (false, magazine),
    };
    (is_ok, magazine.pop().map(|buf| buf.number()))
}

#[test]
fn a_depot_of_two_places(rt: HostRuntime) -> Result<(), Fail> {
    let mut cells = Vec::new(rt.alloc());
    let full = full_magazine(rt.alloc(), &mut cells)?;
    let home = Home::of(&cells, &Vec::new(rt.alloc()));
    let (depot, mut seats) = Depot::<Zeros>::create(rt.alloc(), home, 2, 1)?;
    let Some(mut seat) = seats.pop() else {
        unreachable!()
    };
    let none = depot.swap_for_full(&mut seat, Magazine::<Zeros>::create(rt.alloc())?);
    let empty = depot.swap_for_empty(&mut seat, full);
    let same = depot.swap_for_full(&mut seat, Magazine::<Zeros>::create(rt.alloc())?);
    assert_eq!(rt;
        [shown(none), shown(empty), shown(same)],
        [(false, None), (true, None), (true, Some(7))]
    );
    seats.push(seat)?;
    let left = depot.close(seats);
    assert_eq!(rt; (left.len(), rounds_in(&left)), (2, 0));
    Ok(())
}

// How many rounds the magazines have.
fn rounds_in(magazines: &Vec<Magazine<Zeros>>) -> u32 {
    let mut rounds: u32 = 0;
    for magazine in magazines {
        rounds = rounds.saturating_add(magazine.len());
    }
    rounds
}

// A seat after one swap, with the magazine that it then has.
#[derive(Drop)]
struct Swapped {
    seat: DepotSeat,
    is_ok: bool,
    magazine: Magazine<Zeros>,
}

// Swaps an empty magazine for a full one, once.
fn swap_once(depot: &Depot<Zeros>, mut seat: DepotSeat, empty: Magazine<Zeros>) -> Swapped
    requires of { IsDepotSeat depot.now seat }
    requires empty { empty ≡ [] }
    requires none { seat.taken ≡ [] }
    ensures of { IsDepotSeat depot.now result.seat }
    ensures put { result.seat.put ≡ seat.put }
    ensures rounds { length result.magazine ≡ 8 * length result.seat.taken }
{
    match depot.swap_for_full(&mut seat, empty) {
        Ok(magazine) => Swapped {
            seat,
            is_ok: true,
            magazine,
        },
        Err(magazine) => Swapped {
            seat,
            is_ok: false,
            magazine,
        },
    }
}

// Two threads swap once each.
fn swap_both<R: Threads + Sync>(
    rt: &R,
    depot: &Depot<Zeros>,
    a: (DepotSeat, Magazine<Zeros>),
    b: (DepotSeat, Magazine<Zeros>),
) -> (Swapped, Swapped)
    requires a { IsDepotSeat depot.now a.0 × (a.1 ≡ []) × (a.0.taken ≡ []) }
    requires b { IsDepotSeat depot.now b.0 × (b.1 ≡ []) × (b.0.taken ≡ []) }
    ensures a { IsDepotSeat depot.now result.0.seat × (result.0.seat.put ≡ a.0.put)
        × (length result.0.magazine ≡ 8 * length result.0.seat.taken) }
    ensures b { IsDepotSeat depot.now result.1.seat × (result.1.seat.put ≡ b.0.put)
        × (length result.1.magazine ≡ 8 * length result.1.seat.taken) }
{
    join(
        rt,
        move || -> Swapped
            requires { IsDepotSeat depot.now a.0 × (a.1 ≡ []) × (a.0.taken ≡ []) }
            ensures { IsDepotSeat depot.entry.now result.seat × (result.seat.put ≡ a.0.put)
                × (length result.magazine ≡ 8 * length result.seat.taken) }
        { swap_once(depot, a.0, a.1) },
        move || -> Swapped
            requires { IsDepotSeat depot.now b.0 × (b.1 ≡ []) × (b.0.taken ≡ []) }
            ensures { IsDepotSeat depot.entry.now result.seat × (result.seat.put ≡ b.0.put)
                × (length result.magazine ≡ 8 * length result.seat.taken) }
        { swap_once(depot, b.0, b.1) },
    )
}

// What the two threads have, and what the depot gives at its end.
#[derive(Drop)]
struct Outcome {
    oks: u32,
    first: Magazine<Zeros>,
    second: Magazine<Zeros>,
    rest: Vec<Magazine<Zeros>>,
}

// Two threads swap for the one full magazine of a depot of one place.
fn two_swaps<R: Threads + Sync>(rt: &R, alloc: Global) -> Result<Outcome, AllocError>
    ensures rounds { IfOk result (λ o. length o.first + length o.second + sum_by length o.rest.items ≡ 8) }
    ensures places { IfOk result (λ o. vec_len o.rest ≡ 1) }
{
    let mut cells = Vec::new(alloc);
    let full = full_magazine(alloc, &mut cells)?;
    let home = Home::of(&cells, &Vec::new(alloc));
    let spare = Magazine::<Zeros>::create(alloc)?;
    let (depot, mut seats) = Depot::<Zeros>::create(alloc, home, 1, 2)?;
    let (Some(mut a), Some(b)) = (seats.pop(), seats.pop()) else {
        unreachable!()
    };
    let Ok(empty) = depot.swap_for_empty(&mut a, full) else {
        return Err(AllocError);
    };
    let (a, b) = swap_both(rt, &depot, (a, empty), (b, spare));
    let oks = u32::from(a.is_ok) + u32::from(b.is_ok);
    seats.push(a.seat)?;
    seats.push(b.seat)?;
    Ok(Outcome {
        oks,
        first: a.magazine,
        second: b.magazine,
        rest: depot.close(seats),
    })
}

#[test]
fn two_swaps_of_one_place(rt: HostRuntime) -> Result<(), Fail> {
    for _ in 0..200 {
        let outcome = two_swaps(&rt, rt.alloc())?;
        assert!(rt; outcome.oks <= 1);
        assert_eq!(rt; outcome.rest.len(), 1);
        let lens = [
            outcome.first.len(),
            outcome.second.len(),
            rounds_in(&outcome.rest),
        ];
        assert!(rt; lens == [8, 0, 0] || lens == [0, 8, 0] || lens == [0, 0, 8]);
    }
    Ok(())
}

// A depot with its seat is closed in another thread.
fn close_elsewhere<R: Threads + Sync>(rt: &R, alloc: Global) -> Result<usize, AllocError> {
    let home = Home::of(&Vec::new(alloc), &Vec::new(alloc));
    let (depot, seats) = Depot::<Zeros>::create(alloc, home, 3, 1)?;
    let (left, ()) = join(
        rt,
        move || -> Vec<Magazine<Zeros>>
            requires { All (IsDepotSeat depot) seats.items × (length seats.items ≡ depot.seats) }
        { depot.close(seats) },
        || (),
    );
    Ok(left.len())
}

#[test]
fn a_depot_goes_to_another_thread(rt: HostRuntime) -> Result<(), Fail> {
    assert_eq!(rt; close_elsewhere(&rt, rt.alloc())?, 3);
    Ok(())
}
