//! A kind, a row of cells, and a client that knows none of its objects.
ghost use Rattle.std.specs.Prelude.{◌≡◌, ◌+◌, ◌%◌, ◌<◌, ◌^◌, true, length};
ghost use Rattle.kmem_buf.specs.Homes.{IsBufferOf};

use crate::{Answer, Buf, Cell, Cells, Home, Kind, MoveClient, Slip, Stub, Verdict};
use std::alloc::AllocError;
use std::marker::Model;
use std::mem::size_of;
use std::sync::Wait;
use std::test::Fail;
use std::thread::{Threads, join};

// Its objects are constructed at 0, and it refuses once `left` of them are made.
#[derive(Drop)]
struct Counters {
    left: u32,
}

impl Kind for Counters {
    type Object = u64;

    ghost use Rattle.std.specs.Prelude.{◌≡◌, false};

    ghost constructed = { λ n. n ≡ 0 };

    ghost never_refuses = { false };

    fn construct(&mut self) -> Result<u64, AllocError> {
        if self.left == 0 {
            return Err(AllocError);
        }
        self.left -= 1;
        Ok(0)
    }

    fn destruct(&mut self, _object: u64) {}
}

// Cells by number.
#[derive(Drop)]
struct Row {
    cells: Vec<Cell>,
}

impl Model for Row {
    ghost use Rattle.std.specs.Prelude.{List};
    ghost use Rattle.kmem_buf.specs.Buffers.{CellState};

    ghost Value = { List CellState };

    ghost view = { λ r. r.cells.items };
}

impl Cells<Counters> for Row {
    ghost use Rattle.kmem_buf.specs.Homes.{cell_homes, out_at};

    ghost cells = { cell_homes };

    ghost is_out = { out_at };

    fn meet(&mut self, buf: &mut Buf<Counters>) {
        let cell = &mut self.cells[buf.number() as usize];
        cell.meet(buf);
    }
}

// A client without objects.
#[derive(Drop)]
struct Nobody {
    home: Home,
    answered: u64,
    has_answered: bool,
}

impl MoveClient<Counters> for Nobody {
    type Sign = ();

    ghost use Rattle.std.specs.Prelude.{false, Some, None, if◌then◌else◌};
    ghost use Rattle.kmem_buf.specs.declared.client.Verdict.TheVariants.{DontKnow};

    ghost home = { λ c. c.home };

    ghost sign = { λ _. tt };

    ghost flags = { λ c. record { yes = false; no = false; later = false; dont_need = false; dont_know = c.has_answered } };

    ghost last = { λ c. (if c.has_answered then Some DontKnow else None) };

    ghost answered = { λ c. c.answered };

    ghost brought = { λ _. 0 };

    ghost fetched = { λ _. 0 };

    fn ask<R: Wait>(&mut self, _rt: &R, _from: u32, to: Buf<Counters>) -> Answer<Counters>
        ensures answer { result ≡ Answer.DontKnow to }
        ensures client { self.new ≡ record self.old { answered = (self.old.answered + 1) % 2 ^ 64; has_answered = true } }
    {
        self.answered = self.answered.wrapping_add(1);
        self.has_answered = true;
        Answer::DontKnow(to)
    }
}

#[test]
fn a_slip_has_no_bytes(rt: HostRuntime) {
    assert_eq!(rt;
        (size_of::<Stub>(), size_of::<Slip>(), size_of::<Home>()),
        (64, 0, 0)
    );
}

#[test]
fn a_buffer_goes_out_and_comes_back(rt: HostRuntime) -> Result<(), Fail> {
    let mut kind = Counters { left: 1 };
    let mut cell = Cell::create(rt.alloc(), 5)?;
    assert!(rt; !cell.is_out());
    let mut buf = cell.take(kind.construct()?);
    assert!(rt; cell.is_out() && kind.construct().is_err());
    *buf.object_mut() = 3;
    cell.meet(&mut buf);
    assert_eq!(rt; (buf.number(), *buf.object()), (5, 3));
    *buf.object_mut() = 0;
    let object = cell.give(buf);
    kind.destruct(object);
    assert!(rt; !cell.is_out());
    Ok(())
}

fn shown<C: Cells<Counters>>(cells: &mut C, buf: &mut Buf<Counters>) -> u32
    requires { IsBufferOf (C.cells cells.old) buf.old }
{
    cells.meet(buf);
    buf.number()
}

#[test]
fn a_row_shows_a_buffer(rt: HostRuntime) -> Result<(), Fail> {
    let mut cells = Vec::with_capacity(rt.alloc(), 1)?;
    let mut cell = Cell::create(rt.alloc(), 0)?;
    let mut buf = cell.take(0);
    cells.push(cell)?;
    let mut row = Row { cells };
    assert_eq!(rt; shown(&mut row, &mut buf), 0);
    Ok(())
}

fn asked<C: MoveClient<Counters>, R: Wait>(rt: &R, client: &mut C, to: Buf<Counters>) -> Verdict
    requires home { (0 < length (C.home client.old).cells) × IsBufferOf (C.home client.old).cells to }
    requires object { to.object ≡ 0 }
    requires counts { (C.brought client.old < 2 ^ 62) × (C.fetched client.old < 2 ^ 62) }
{
    client.ask(rt, 0, to).verdict()
}

#[test]
fn a_client_is_asked(rt: HostRuntime) -> Result<(), Fail> {
    let mut cells = Vec::with_capacity(rt.alloc(), 1)?;
    let mut cell = Cell::create(rt.alloc(), 0)?;
    let to = cell.take(0);
    cells.push(cell)?;
    let home = Home::of(&cells, &Vec::new(rt.alloc()));
    let mut client = Nobody {
        home: home.again(),
        answered: u64::MAX,
        has_answered: false,
    };
    assert_eq!(rt; asked(&rt, &mut client, to), Verdict::DontKnow);
    assert_eq!(rt; (client.answered, client.has_answered), (0, true));
    Ok(())
}

fn seen_elsewhere<R: Threads>(rt: &R, buf: Buf<Counters>) -> u32 {
    join(rt, move || buf.number(), || ()).0
}

#[test]
fn a_buffer_crosses_threads(rt: HostRuntime) -> Result<(), Fail> {
    let mut cell = Cell::create(rt.alloc(), 3)?;
    assert_eq!(rt; seen_elsewhere(&rt, cell.take(0)), 3);
    Ok(())
}
