//! The shared cache.
ghost use Rattle.std.specs.Prelude.{◌≡◌, ◌+◌, ◌≤◌, ℕ, [], length, Option, Some, None, IfErr, IfSome, IfNone, OnOk, OnErr};
ghost use Rattle.kmem_model.specs.declared.cache_entry.CacheEntry.TheVariants.{Free};
ghost use Rattle.magazine.specs.Ready.{IsReady};
ghost use Rattle.depot.specs.Depot.{WasRefused};
ghost use Rattle.kmem_model.specs.declared.cache_entry.CacheEntry.{CacheEntry};
ghost use Rattle.kmem_cache.specs.Seats.{buffers_at, IsCacheSeat, HasTaken, HasPut, HasActed};
ghost use Rattle.hist_lock.specs.History.{listed};
ghost use Rattle.kmem_cache.specs.Turns.{IsAllocated};
ghost use Rattle.kmem_cache.specs.Calls.{HasAllocated, HasFreed};

use crate::locked::{CacheRefused, Locked};
use crate::room::Room;
use crate::rounds::{put_round, take_round};
use crate::seat::CacheSeat;
use crate::turns::{AllocTurn, FreeTurn};
use depot::{Depot, DepotSeat};
use hist_lock::{HistLock, Pass};
use kmem_buf::{Buf, Kind};
use magazine::Cpu;
use std::marker::Model;
use std::sync::Wait;

/// An object cache that threads share: under a lock that keeps its history, with a depot of magazines beside it.
#[derive(Drop)]
pub struct Cache<K: Kind> {
    pub(crate) lock: HistLock<Locked<K>>,
    pub(crate) store: Depot<K>,
    pub(crate) places: u32,
    // For what `close` takes apart.
    pub(crate) passes: Room<Pass<Locked<K>>>,
    pub(crate) stores: Room<DepotSeat>,
    pub(crate) cpus: Room<Cpu<K>>,
}

impl<K: Kind> Model for Cache<K> {
    ghost use Rattle.kmem_cache.specs.Seats.{CacheSite, IsSite};

    ghost Value = { CacheSite };

    ghost view = { λ c. record { lock = c.lock; depot = c.store } };

    ghost invariant = { λ c. IsSite c.lock c.store c.places c.passes c.stores c.cpus };
}

impl<K: Kind> Cache<K> {
    /// A buffer of the seat's magazines, which takes a few steps, or else of a full magazine of the depot, at whose places it looks once
    /// each. It waits for nobody.
    pub fn alloc_ready(&self, seat: &mut CacheSeat<K>) -> Option<Buf<K>>
        requires of { IsCacheSeat self.now seat.old }
        ensures taken { IfSome result (λ buf. IsReady K.constructed (buffers_at self.now) buf ×
            HasTaken self.now.depot.places buf.number seat.old.rounds seat.new.rounds seat.old.depot seat.new.depot) }
        ensures lent { IfSome result (λ _. seat.new.lent ≡ seat.old.lent + 1) }
        ensures none { IfNone result ((seat.old.rounds ≡ []) × WasRefused self.now.depot.places 1 seat.old.depot seat.new.depot ×
            (seat.new ≡ record seat.old { depot = seat.new.depot })) }
        ensures acted { HasActed seat.old.pass seat.new.pass None }
        ensures same { (seat.new.pass ≡ seat.old.pass) × (seat.new.returned ≡ seat.old.returned) }
        ensures of { IsCacheSeat self.now seat.new }
    {
        match take_round(&self.store, &mut seat.depot, &mut seat.cpu, &mut seat.spare) {
            Some(buf) => {
                seat.lent = seat.lent.one_more();
                Some(buf)
            }
            None => None,
        }
    }

    /// A buffer of the magazines where `alloc_ready` has one, else one of the slabs, in one turn under the lock.
    pub fn alloc<R: Wait>(&self, rt: &R, seat: &mut CacheSeat<K>) -> Result<Buf<K>, CacheRefused>
        requires of { IsCacheSeat self.now seat.old }
        requires left { 1 ≤ seat.old.pass.left }
        ensures acted { (entry : Option CacheEntry) × HasActed seat.old.pass seat.new.pass entry ×
            HasAllocated K.constructed K.never_refuses self.now seat.old seat.new result entry }
        ensures same { seat.new.returned ≡ seat.old.returned }
        ensures of { IsCacheSeat self.now seat.new }
    {
        match self.alloc_ready(seat) {
            Some(buf) => Ok(buf),
            None => self.alloc_slab(rt, seat),
        }
    }

    // Allocates of the slabs.
    fn alloc_slab<R: Wait>(&self, rt: &R, seat: &mut CacheSeat<K>) -> Result<Buf<K>, CacheRefused>
        requires of { IsCacheSeat self.now seat.old }
        requires left { 1 ≤ seat.old.pass.left }
        ensures acted { (entry : Option CacheEntry) × (at : ℕ) × HasActed seat.old.pass seat.new.pass entry ×
            (length seat.new.pass.seen ≡ at + length (listed entry)) ×
            IsAllocated K.constructed K.never_refuses (buffers_at self.now) at result entry }
        ensures lent { OnOk result (seat.new ≡ record seat.old { pass = seat.new.pass; lent = seat.old.lent + 1 }) }
        ensures refused { OnErr result (seat.new ≡ record seat.old { pass = seat.new.pass }) }
        ensures of { IsCacheSeat self.now seat.new }
    {
        match self.lock.act(rt, &mut seat.pass, AllocTurn) {
            Ok(buf) => {
                seat.lent = seat.lent.one_more();
                Ok(buf)
            }
            Err(refused) => Err(refused),
        }
    }

    /// Takes the buffer back into the seat's magazines, which takes a few steps, or else a full one of these into the depot first, at
    /// whose places it looks once each. It waits for nobody. The buffer comes back where the depot had no empty magazine for it.
    pub fn free_ready(&self, seat: &mut CacheSeat<K>, buf: Buf<K>) -> Result<(), Buf<K>>
        requires of { IsCacheSeat self.now seat.old }
        requires ready { IsReady K.constructed (buffers_at self.now) buf }
        ensures put { OnOk result (HasPut self.now.depot.places buf.number seat.old.rounds seat.new.rounds seat.old.depot seat.new.depot) }
        ensures returned { OnOk result (seat.new.returned ≡ seat.old.returned + 1) }
        ensures refused { IfErr result (λ back. (back ≡ buf) × (length seat.old.rounds ≡ 16) × WasRefused self.now.depot.places 0 seat.old.depot seat.new.depot ×
            (seat.new ≡ record seat.old { depot = seat.new.depot })) }
        ensures acted { HasActed seat.old.pass seat.new.pass None }
        ensures same { (seat.new.pass ≡ seat.old.pass) × (seat.new.lent ≡ seat.old.lent) }
        ensures of { IsCacheSeat self.now seat.new }
    {
        match put_round(
            &self.store,
            &mut seat.depot,
            &mut seat.cpu,
            &mut seat.spare,
            buf,
        ) {
            Ok(()) => {
                seat.returned = seat.returned.one_more();
                Ok(())
            }
            Err(back) => Err(back),
        }
    }

    /// Takes the buffer back into the magazines where `free_ready` does, else to the slabs, in one turn under the lock.
    pub fn free<R: Wait>(&self, rt: &R, seat: &mut CacheSeat<K>, buf: Buf<K>)
        requires of { IsCacheSeat self.now seat.old }
        requires ready { IsReady K.constructed (buffers_at self.now) buf }
        requires left { 1 ≤ seat.old.pass.left }
        ensures acted { (entry : Option CacheEntry) × HasActed seat.old.pass seat.new.pass entry × HasFreed self.now seat.old seat.new buf.number entry }
        ensures returned { seat.new.returned ≡ seat.old.returned + 1 }
        ensures same { seat.new.lent ≡ seat.old.lent }
        ensures of { IsCacheSeat self.now seat.new }
    {
        match self.free_ready(seat, buf) {
            Ok(()) => {}
            Err(back) => self.free_slab(rt, seat, back),
        }
    }

    // Frees to the slabs.
    fn free_slab<R: Wait>(&self, rt: &R, seat: &mut CacheSeat<K>, buf: Buf<K>)
        requires of { IsCacheSeat self.now seat.old }
        requires ready { IsReady K.constructed (buffers_at self.now) buf }
        requires left { 1 ≤ seat.old.pass.left }
        ensures acted { HasActed seat.old.pass seat.new.pass (Some (Free buf.number)) }
        ensures seat { seat.new ≡ record seat.old { pass = seat.new.pass; returned = seat.old.returned + 1 } }
        ensures of { IsCacheSeat self.now seat.new }
    {
        self.lock.act(rt, &mut seat.pass, FreeTurn { buf });
        seat.returned = seat.returned.one_more();
    }
}
