//! The object cache.
ghost use Rattle.std.specs.Prelude.{◌≡◌, ◌≢◌, ◌≤◌, ◌<◌, ◌*◌, ◌↔◌, ℕ, true, false, Some, nat_lt, length, IfOk, OnErr, IsNone, IfSome};
ghost use Rattle.std.specs.FinSet as set;
ghost use Rattle.kmem_buf.specs.Homes.{IsBufferOf};
ghost use Rattle.kmem_model.specs.CacheState.{slab_at, is_listed, used, sizes_of, opening, slab_count, free_count, out_count, pending_count, dead_count};
ghost use Rattle.kmem_model.specs.CacheEnter.{enter};
ghost use Rattle.kmem_model.specs.CacheHistory.{MayEnter};
ghost use Rattle.kmem_model.specs.Settle.{is_rest_marked};
ghost use Rattle.kmem_model.specs.SettleWhole.{IsWhole};
ghost use Rattle.kmem_model.specs.declared.cache_entry.CacheEntry.TheVariants.{Alloc, Full, Free};

mod moving;

use crate::moves::Moves;
use crate::scan::Scan;
use crate::stock::Stock;
use kmem_buf::{Buf, Cells, Home, Kind};
use kmem_model::Mode;
use slab_list::SlabList;
use slab_source::Supply;
use std::alloc::{AllocError, Global};
use std::marker::Model;

/// Why no buffer was given.
#[derive(Clone, Copy, Debug, PartialEq, Eq)]
pub enum AllocRefused {
    /// Every buffer is out.
    Full,
    /// There was no memory for the object.
    NoMemory,
}

/// Why no move was begun.
#[derive(Clone, Copy, Debug, PartialEq, Eq)]
pub enum BeginRefused {
    /// There is no move to begin.
    Idle,
    /// There was no memory for the object of the new buffer.
    NoMemory,
}

/// A slab that is listed.
#[derive(Clone, Copy, Debug, PartialEq, Eq)]
pub struct SlabLine {
    /// How many of its buffers are out.
    pub used: u32,
    /// The index of its stuck buffer, where it has the no-move mark.
    pub stuck: Option<u32>,
}

/// Objects of a kind, in buffers on slabs. To contracts it is a cache state, and the homes of its cells and of the stubs of its moves.
#[derive(Drop)]
pub struct ObjectCache<K> {
    kind: K,
    stock: Stock<K>,
    moves: Moves,
    scan: Scan,
}

impl<K> Model for ObjectCache<K> {
    ghost use Rattle.object_cache.specs.Cache.{CacheView, cache_of, AreJoined};

    ghost Value = { CacheView };

    ghost view = { λ c. cache_of c.stock c.moves c.scan };

    ghost invariant = { λ c. AreJoined c.stock c.moves c.scan };
}

impl<K: Kind> Cells<K> for ObjectCache<K> {
    ghost use Rattle.kmem_model.specs.CacheState.{is_out};

    ghost cells = { λ c. c.home.cells };

    ghost is_out = { λ c b. is_out c.state b };

    fn meet(&mut self, buf: &mut Buf<K>) {
        self.stock.meet(buf);
    }
}

impl<K: Kind> ObjectCache<K> {
    /// Every slab is in the source. All memory that the cache will ever need of its own is taken here, with a stub for each of the
    /// `limit` moves that may be pending at once.
    pub fn create(
        alloc: Global,
        kind: K,
        supply: Supply,
        slabs: u32,
        chunks: u32,
        limit: u32,
    ) -> Result<ObjectCache<K>, AllocError>
    where
        K: Drop,
        requires slabs { (0 < slabs) × (slabs ≤ 4096) }
        requires chunks { (0 < chunks) × (chunks ≤ 64) }
        requires buffers { slabs * chunks ≤ 65536 }
        requires limit { 1 ≤ limit }
        requires source { (supply.slabs ≡ slabs) × ((n : ℕ) → set.contains supply.held n ≡ nat_lt n slabs) }
        ensures state { IfOk result (λ c. c.state ≡ opening (sizes_of slabs chunks limit)) }
        ensures home { IfOk result (λ c. (length c.home.cells ≡ slabs * chunks) × (length c.home.moves ≡ limit)) }
    {
        Ok(ObjectCache {
            kind,
            stock: Stock::create(alloc, supply, slabs, chunks)?,
            moves: Moves::create(alloc, limit, slabs * chunks)?,
            scan: Scan {
                mode: Mode::Off,
                numerator: 1,
                found_fragmented: false,
                begun: false,
            },
        })
    }

    /// The kind, for tests to look at.
    #[cfg(test)]
    pub fn kind(&self) -> &K {
        &self.kind
    }

    /// Names this cache's cells, and the stubs of its moves.
    pub fn home(&self) -> Home
        ensures { result ≡ self.now.home }
    {
        self.stock.list().home(self.moves.stubs())
    }

    /// Tells what holds of the cache at every moment, also while moves are pending. It does nothing.
    pub fn law_whole(&self)
        ensures whole { IsWhole self.now.state }
        ensures few { length self.now.state.slabs * self.now.state.chunks ≤ 65536 }
    {
        let _stock = &self.stock;
    }

    /// The buffer of the first partial slab that is free and least, else the first of the source's least slab, else of the least dead one.
    /// Whichever it is, no slab is looked at but its own.
    pub fn alloc(&mut self) -> Result<Buf<K>, AllocRefused>
        ensures entry { IfOk result (λ buf. enter self.old.state (Alloc buf.number) ≡ Some self.new.state) }
        ensures ready { IfOk result (λ buf. K.constructed buf.object × IsBufferOf self.old.home.cells buf) }
        ensures full { (result ≡ Err AllocRefused.Full) ↔ MayEnter self.old.state Full }
        ensures full_entry { result ≡ Err AllocRefused.Full → enter self.old.state Full ≡ Some self.new.state }
        ensures memory { K.never_refuses ≡ true → result ≢ Err AllocRefused.NoMemory }
        ensures refused { OnErr result (self.new ≡ self.old) }
        ensures home { self.new.home ≡ self.old.home }
    {
        let Some(room) = self.stock.room() else {
            return Err(AllocRefused::Full);
        };
        match self.kind.construct() {
            Ok(object) => Ok(self.stock.take(room, object)),
            Err(_) => Err(AllocRefused::NoMemory),
        }
    }

    /// Where it was the last one out of its slab, the slab goes back to the source, or is dead while a move is pending.
    pub fn free(&mut self, buf: Buf<K>)
        requires of { IsBufferOf self.old.home.cells buf }
        requires constructed { K.constructed buf.object }
        ensures entry { enter self.old.state (Free buf.number) ≡ Some self.new.state }
        ensures home { self.new.home ≡ self.old.home }
    {
        let object = self.stock.give(buf, self.moves.is_any());
        self.kind.destruct(object);
    }

    /// How many slabs there are, listed or not.
    pub fn slabs(&self) -> u32
        ensures { result ≡ length self.now.state.slabs }
    {
        self.stock.list().slabs()
    }

    /// How many buffers each slab has.
    pub fn chunks(&self) -> u32
        ensures { result ≡ self.now.state.chunks }
    {
        self.stock.list().chunks()
    }

    /// How many slabs are listed; dead ones are not.
    pub fn slab_count(&self) -> u32
        ensures { result ≡ slab_count self.now.state }
    {
        self.stock.list().listed_count()
    }

    /// How many buffers are free on listed slabs.
    pub fn free_count(&self) -> u32
        ensures { result ≡ free_count self.now.state }
    {
        self.stock.list().free_count()
    }

    /// How many buffers are out.
    pub fn out_count(&self) -> u32
        ensures { result ≡ out_count self.now.state }
    {
        self.stock.list().out_count()
    }

    /// How many moves are pending.
    pub fn pending_count(&self) -> u32
        ensures { result ≡ pending_count self.now.state }
    {
        self.moves.count()
    }

    /// How many slabs are dead.
    pub fn dead_count(&self) -> u32
        ensures { result ≡ dead_count self.now.state }
    {
        self.stock.list().dead_count()
    }

    /// Whether every partial slab after the first has a mark. Two slabs are looked at.
    pub fn is_rest_marked(&self) -> bool
        ensures { result ≡ is_rest_marked self.now.state.slabs }
    {
        self.stock.list().is_rest_marked()
    }

    /// What the slab shows, or None where it isn't listed.
    pub fn line(&self, slab: u32) -> Option<SlabLine>
        requires { slab < length self.now.state.slabs }
        ensures none { IsNone result ↔ (is_listed (slab_at self.now.state.slabs slab) ≡ false) }
        ensures line { IfSome result (λ line.
            (line.used ≡ used (slab_at self.now.state.slabs slab)) × (line.stuck ≡ (slab_at self.now.state.slabs slab).stuck)) }
    {
        let list = self.stock.list();
        if !list.is_listed(slab) {
            return None;
        }
        Some(SlabLine {
            used: list.used(slab),
            stuck: stuck_index(list, slab),
        })
    }
}

fn stuck_index<K: Kind>(list: &SlabList<K>, slab: u32) -> Option<u32>
    requires { slab < length list.now.slabs }
    ensures { result ≡ (slab_at list.now.slabs slab).stuck }
{
    let first = slab * list.chunks();
    let number = list.stuck(slab)?;
    Some(number - first)
}
