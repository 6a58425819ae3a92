//! The pending moves of a cache, with the stubs of all moves, and the buffers that were asked about.
ghost use Rattle.std.specs.Prelude.{◌≡◌, ◌≤◌, ◌<◌, ℕ, Some, true, false, None, length, count_by, is_some, is_none, map, replicate, slice_set, slice_index_or, IfOk};
ghost use Rattle.std.specs.List.{list_any};
ghost use Rattle.kmem_buf.specs.Homes.{stub_homes};
ghost use Rattle.kmem_model.specs.CacheOrder.{is_of_move, least_below};
ghost use Rattle.object_cache.specs.Moves.{IsMoveOf, IsPending, is_left_out_of};

use crate::asked::Asked;
use crate::stock::Stock;
use kmem_buf::{Buffer, Kind, Slip, Stub};
use kmem_model::{PendingMove, law_order};
use std::alloc::{AllocError, Global};
use std::marker::Model;

/// A move that is pending. No copy can be made. One that is dropped stays pending for good.
#[derive(Drop)]
pub struct Pending {
    no: u64,
    from: u32,
    to: u32,
    // The place of its stub.
    slot: u32,
    slip: Slip,
}

impl Model for Pending {
    ghost use Rattle.std.specs.Prelude.{◌≡◌, [], ◌∷◌};
    ghost use Rattle.object_cache.specs.Moves.{PendingState, pending_code};

    ghost Value = { PendingState };

    ghost coded = { pending_code };

    ghost view = { λ p. record { no = p.no; from = p.from; to = p.to; slot = p.slot; home = p.slip.home } };

    ghost invariant = { λ p. p.slip.facts ≡ p.no ∷ p.from ∷ p.to ∷ [] };
}

/// A move that has begun, with its new buffer.
#[derive(Drop)]
pub struct Begun<X> {
    pending: Pending,
    buf: Buffer<X>,
}

/// A move of an object of the kind that has begun.
pub type Job<K> = Begun<<K as Kind>::Object>;

impl<X> Model for Begun<X> {
    ghost use Rattle.object_cache.specs.Moves.{JobState, job_code};

    ghost Value = { JobState X };

    ghost coded = { job_code X.code };

    ghost view = { λ j. record { move = j.pending; buf = j.buf } };
}

impl<X> Begun<X> {
    /// The number of the move.
    pub fn no(&self) -> u64
        ensures { result ≡ self.now.move.no }
    {
        let pending = &self.pending;
        pending.no
    }

    /// The number of the old buffer.
    pub fn from(&self) -> u32
        ensures { result ≡ self.now.move.from }
    {
        let pending = &self.pending;
        pending.from
    }

    /// The number of the new buffer.
    pub fn to(&self) -> u32
        ensures { result ≡ self.now.move.to }
    {
        let pending = &self.pending;
        pending.to
    }

    pub fn part(self) -> (Pending, Buffer<X>)
        ensures { (result.0 ≡ self.move) × (result.1 ≡ self.buf) }
    {
        let Begun { pending, buf } = self;
        (pending, buf)
    }

    /// The job that these are the parts of.
    pub(crate) fn of(pending: Pending, buf: Buffer<X>) -> Begun<X>
        ensures { result ≡ record { move = pending; buf = buf } }
    {
        Begun { pending, buf }
    }
}

impl Pending {
    /// The number of the move: the least that no pending move had.
    pub fn no(&self) -> u64
        ensures { result ≡ self.now.no }
    {
        self.no
    }

    /// The number of the old buffer.
    pub fn from(&self) -> u32
        ensures { result ≡ self.now.from }
    {
        self.from
    }

    /// The number of the new buffer.
    pub fn to(&self) -> u32
        ensures { result ≡ self.now.to }
    {
        self.to
    }
}

#[derive(Drop)]
pub struct Moves {
    stubs: Vec<Stub>,
    // The pending move of each number.
    pending: Vec<Option<PendingMove>>,
    count: u32,
    asked: Asked,
}

impl Model for Moves {
    ghost use Rattle.kmem_buf.specs.Homes.{stub_homes};
    ghost use Rattle.object_cache.specs.Moves.{MovesState, AreTracked};

    ghost Value = { MovesState };

    ghost view = { λ m. record { asked = m.asked; pending = m.pending.items; stubs = stub_homes m.stubs.items } };

    ghost invariant = { λ m. AreTracked m.stubs.items m.pending.items m.asked m.count };
}

impl Moves {
    /// None is pending. All memory that they will ever need is taken here.
    pub fn create(alloc: Global, limit: u32, buffers: u32) -> Result<Moves, AllocError>
        requires { buffers ≤ 65536 }
        ensures asked { IfOk result (λ m. m.asked ≡ replicate buffers false) }
        ensures pending { IfOk result (λ m. m.pending ≡ replicate limit None) }
        ensures stubs { IfOk result (λ m. length m.stubs ≡ limit) }
    {
        Ok(Moves {
            stubs: Stub::create_all(alloc, limit)?,
            pending: Vec::from_elem(alloc, None, limit as usize)?,
            count: 0,
            asked: Asked::create(alloc, buffers)?,
        })
    }

    /// The stubs of all moves.
    pub fn stubs(&self) -> &Vec<Stub>
        ensures { stub_homes result.now.items ≡ self.now.stubs }
    {
        &self.stubs
    }

    /// How many moves are pending.
    pub fn count(&self) -> u32
        ensures { result ≡ count_by is_some self.now.pending }
    {
        self.count
    }

    /// Whether any move is pending.
    pub fn is_any(&self) -> bool
        ensures { result ≡ list_any is_some self.now.pending }
    {
        self.count > 0
    }

    /// The least number that no pending move has.
    pub fn free_number(&self) -> Option<u32>
        ensures { result ≡ least_below (length self.now.pending) (λ j. is_none (slice_index_or self.now.pending j None)) }
    {
        law_order();
        let limit = self.pending.len() as u32;
        for number in 0..limit {
            if self.pending[number as usize].is_none() {
                return Some(number);
            }
        }
        None
    }

    /// Whether the buffer was asked about in this scan, or is of a pending move.
    pub fn is_left_out(&self, number: u32) -> bool
        requires { number < length self.now.asked }
        ensures { result ≡ is_left_out_of self.now.asked self.now.pending number }
    {
        self.asked.has(number) || is_of_any(&self.pending, number)
    }

    /// No buffer counts as asked about any more, so that a scan leaves out those of pending moves alone.
    pub fn ask_anew<K: Kind>(&mut self, stock: &mut Stock<K>)
        requires size { length self.old.asked ≡ length stock.old.cells }
        requires skips { length stock.old.skip ≡ length stock.old.cells }
        requires left_out { (b : ℕ) → slice_index_or stock.old.skip b false ≡ is_left_out_of self.old.asked self.old.pending b }
        ensures moves { self.new ≡ record self.old { asked = map (λ _. false) self.old.asked } }
        ensures stock { stock.new ≡ record stock.old { skip = stock.new.skip } }
        ensures skips { length stock.new.skip ≡ length stock.old.skip }
        ensures left_out { (b : ℕ) → slice_index_or stock.new.skip b false ≡ list_any (is_of_move b) self.old.pending }
    {
        ask_none(&mut self.asked, stock, &self.pending);
    }

    /// The move of this number is pending from then on. Both of its buffers count as asked about.
    pub fn begin(&mut self, number: u32, from: u32, to: u32) -> Pending
        requires number { number < length self.old.pending }
        requires idle { slice_index_or self.old.pending number None ≡ None }
        requires buffers { (from < length self.old.asked) × (to < length self.old.asked) }
        ensures moves { self.new ≡ record self.old {
          asked = slice_set (slice_set self.old.asked from true) to true;
          pending = slice_set self.old.pending number (Some (record { from = from; to = to }));
        } }
        ensures pending { (result.no ≡ number) × (result.from ≡ from) × (result.to ≡ to) × (result.slot ≡ number) }
        ensures home { IsMoveOf self.old.stubs result }
    {
        self.asked.ask(from);
        self.asked.ask(to);
        self.pending[number as usize] = Some(PendingMove { from, to });
        self.count += 1;
        let stub = &mut self.stubs[number as usize];
        Pending {
            no: u64::from(number),
            from,
            to,
            slot: number,
            slip: stub.issue([u64::from(number), u64::from(from), u64::from(to)]),
        }
    }

    /// Shows that the move is pending.
    pub fn meet(&mut self, pending: &mut Pending)
        requires { IsMoveOf self.old.stubs pending.old }
        ensures is { IsPending self.old.pending pending.old }
        ensures buffers { (pending.old.from < length self.old.asked) × (pending.old.to < length self.old.asked) }
        ensures moves { self.new ≡ self.old }
        ensures same { pending.new ≡ pending.old }
    {
        let stub = &mut self.stubs[pending.slot as usize];
        stub.meet(&mut pending.slip);
    }

    /// The move isn't pending any more. It was.
    pub fn end(&mut self, pending: Pending)
        requires { IsMoveOf self.old.stubs pending }
        ensures was { IsPending self.old.pending pending }
        ensures buffers { (pending.from < length self.old.asked) × (pending.to < length self.old.asked) }
        ensures moves { self.new ≡ record self.old { pending = slice_set self.old.pending pending.slot None } }
    {
        let Pending {
            no: _,
            from: _,
            to: _,
            slot,
            slip,
        } = pending;
        let stub = &mut self.stubs[slot as usize];
        stub.redeem(slip);
        self.pending[slot as usize] = None;
        self.count -= 1;
    }
}

// No buffer counts as asked about any more, so that those of pending moves alone are left out.
fn ask_none<K: Kind>(asked: &mut Asked, stock: &mut Stock<K>, pending: &[Option<PendingMove>])
    requires size { length asked.old ≡ length stock.old.cells }
    requires skips { length stock.old.skip ≡ length stock.old.cells }
    requires left_out { (b : ℕ) → slice_index_or stock.old.skip b false ≡ is_left_out_of asked.old pending.now b }
    ensures asked { asked.new ≡ map (λ _. false) asked.old }
    ensures stock { stock.new ≡ record stock.old { skip = stock.new.skip } }
    ensures skips { length stock.new.skip ≡ length stock.old.skip }
    ensures flags { (b : ℕ) → slice_index_or stock.new.skip b false ≡ list_any (is_of_move b) pending.now }
{
    while let Some(number) = asked.least() {
        asked.forget(number);
        stock.leave_out(number, is_of_any(pending, number));
    }
}

// Whether the buffer is the old or the new one of a pending move.
fn is_of_any(pending: &[Option<PendingMove>], number: u32) -> bool
    ensures { result ≡ list_any (is_of_move number) pending.now }
{
    pending.iter().any(|found| is_of(*found, number))
}

fn is_of(found: Option<PendingMove>, number: u32) -> bool
    ensures { result ≡ is_of_move number found }
{
    match found {
        Some(found) => found.from == number || found.to == number,
        None => false,
    }
}
