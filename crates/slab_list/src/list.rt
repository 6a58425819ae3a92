//! The slabs of one cache.
ghost use Rattle.std.specs.Prelude.{◌≡◌, ◌≤◌, ◌<◌, ◌+◌, ◌*◌, ◌/◌, ◌%◌, ◌^◌, true, false, length, map, replicate, count_by, sum_by, option_map, slice_set, slice_index_or, IfOk, if◌then◌else◌};
ghost use Rattle.kmem_buf.specs.Homes.{IsBufferOf, stub_homes};
ghost use Rattle.kmem_model.specs.CacheState.{SlabState, slab_at, slab_in_source, is_listed, is_dead, used, free_buffers};
ghost use Rattle.kmem_model.specs.CacheOrder.{is_partial};
ghost use Rattle.kmem_model.specs.CacheEnter.{slab_listed, slab_taken, slab_freed, slab_later, slab_never, slab_given_back, unmarked};
ghost use Rattle.kmem_model.specs.declared.cache_state.Standing.TheVariants.{Source, Listed, Dead};
ghost use Rattle.number_set.specs.Places.{IsLeastFrom, IsLastBelow};
ghost use Rattle.slab_list.specs.Slabs.{IsListWhole, IsFree, slab_with, is_out_in, on_slab, on_buffer, fresh_slab, slab_left};
ghost use Rattle.slab_list.specs.Bins.{has_note, stands_at, IsSpent, IsLastUnspent};

use crate::index::Index;
use crate::table::SlabTable;
use kmem_buf::{Buf, Buffer, Home, Kind, Stub};
use kmem_model::Steps;
use std::alloc::{AllocError, Global};
use std::marker::Model;

/// The slabs of one cache, with the cells of all their buffers. Buffer `slab * chunks + index` lies on its slab at its index.
pub struct SlabList<K> {
    table: SlabTable<K>,
    index: Index,
}

impl<K> Model for SlabList<K> {
    ghost use Rattle.slab_list.specs.Slabs.{ListState};
    ghost use Rattle.slab_list.specs.Bins.{IsIndexOf};

    ghost Value = { ListState };

    ghost view = { λ s. s.table };

    ghost invariant = { λ s. IsIndexOf s.table.chunks s.table.slabs s.table.skip s.index };
}

impl<K> Drop for SlabList<K> {
    fn drop(self) {
        let Self { table: _, index: _ } = self;
    }
}

impl<K> SlabList<K> {
    /// Shows that the buffer is out. It asks nothing of the kind, so that a type with a list can be a `Cells` of every kind.
    pub fn meet<X>(&mut self, buf: &mut Buffer<X>)
        requires { IsBufferOf self.old.cells buf.old }
        ensures out { is_out_in self.old buf.old.number ≡ true }
        ensures list { self.new ≡ self.old }
        ensures buf { buf.new ≡ buf.old }
    {
        self.table.meet(buf);
    }
}

impl<K: Kind> SlabList<K> {
    /// How many slabs there are, listed or not.
    pub fn slabs(&self) -> u32
        ensures slabs { result ≡ length self.now.slabs }
        ensures whole { IsListWhole self.now }
    {
        self.table.slabs()
    }

    /// How many buffers a slab has.
    pub fn chunks(&self) -> u32
        ensures chunks { result ≡ self.now.chunks }
        ensures whole { IsListWhole self.now }
    {
        self.table.chunks()
    }

    /// Whether the slab is listed.
    pub fn is_listed(&self, slab: u32) -> bool
        requires { slab < length self.now.slabs }
        ensures { result ≡ is_listed (slab_at self.now.slabs slab) }
    {
        self.table.is_listed(slab)
    }

    /// Whether the slab is dead.
    pub fn is_dead(&self, slab: u32) -> bool
        requires { slab < length self.now.slabs }
        ensures { result ≡ is_dead (slab_at self.now.slabs slab) }
    {
        self.table.is_dead(slab)
    }

    /// How many buffers of the slab are out.
    pub fn used(&self, slab: u32) -> u32
        requires { slab < length self.now.slabs }
        ensures { result ≡ used (slab_at self.now.slabs slab) }
    {
        self.table.used(slab)
    }

    /// Whether the buffer is out.
    pub fn is_out(&self, number: u32) -> bool
        requires { number < length self.now.cells }
        ensures { result ≡ is_out_in self.now number }
    {
        self.table.is_out(number)
    }

    /// The number of the slab's stuck buffer. A slab has one exactly where it has the no-move mark.
    pub fn stuck(&self, slab: u32) -> Option<u32>
        requires { slab < length self.now.slabs }
        ensures { result ≡ option_map (λ k. slab * self.now.chunks + k) (slab_at self.now.slabs slab).stuck }
    {
        self.table.stuck(slab)
    }

    /// Names the homes of the cells, and of these stubs of the moves of one cache.
    pub fn home(&self, moves: &Vec<Stub>) -> Home
        ensures { result ≡ record { cells = self.now.cells; moves = stub_homes moves.now.items } }
    {
        self.table.home(moves)
    }

    /// Lists the slab.
    pub fn add(&mut self, slab: u32)
        requires range { slab < length self.old.slabs }
        requires apart { is_listed (slab_at self.old.slabs slab) ≡ false }
        ensures list { self.new ≡ on_slab self.old slab slab_listed }
        ensures fresh { slab_at self.new.slabs slab ≡ fresh_slab self.old.chunks }
    {
        self.index.leave(&self.table, slab);
        self.table.add(slab);
        self.index.enter(&self.table, slab);
    }

    /// Unlists the slab, which goes back to the source.
    pub fn remove(&mut self, slab: u32)
        requires listed { is_listed (slab_at self.old.slabs slab) ≡ true }
        requires idle { used (slab_at self.old.slabs slab) ≡ 0 }
        ensures { self.new ≡ on_slab self.old slab (slab_left Source) }
    {
        self.index.leave(&self.table, slab);
        self.table.remove(slab);
        self.index.enter(&self.table, slab);
    }

    /// Unlists the slab, which is dead from then on.
    pub fn retire(&mut self, slab: u32)
        requires listed { is_listed (slab_at self.old.slabs slab) ≡ true }
        requires idle { used (slab_at self.old.slabs slab) ≡ 0 }
        ensures { self.new ≡ on_slab self.old slab (slab_left Dead) }
    {
        self.index.leave(&self.table, slab);
        self.table.retire(slab);
        self.index.enter(&self.table, slab);
    }

    /// A dead slab goes back to the source.
    pub fn give_back(&mut self, slab: u32)
        requires { is_dead (slab_at self.old.slabs slab) ≡ true }
        ensures { self.new ≡ on_slab self.old slab slab_given_back }
    {
        self.index.leave(&self.table, slab);
        self.table.give_back(slab);
        self.index.enter(&self.table, slab);
    }

    /// Gives the buffer out with this object.
    pub fn take(&mut self, number: u32, object: K::Object) -> Buf<K>
        requires { IsFree self.old number }
        ensures list { self.new ≡ on_buffer self.old number slab_taken }
        ensures buf { (result.number ≡ number) × (result.object ≡ object) }
        ensures home { IsBufferOf self.old.cells result }
    {
        let slab = number / self.table.chunks();
        self.index.leave(&self.table, slab);
        let buf = self.table.take(number, object);
        self.index.enter(&self.table, slab);
        buf
    }

    /// Takes the buffer back, and answers its object. Its slab stays listed, also where no buffer of it is out any more.
    pub fn give(&mut self, buf: Buf<K>) -> K::Object
        requires { IsBufferOf self.old.cells buf }
        ensures was { (is_listed (slab_with self.old buf.number) ≡ true) × (is_out_in self.old buf.number ≡ true) }
        ensures list { self.new ≡ on_buffer self.old buf.number (slab_freed Listed) }
        ensures object { result ≡ buf.object }
    {
        let slab = buf.number() / self.table.chunks();
        self.index.leave(&self.table, slab);
        let object = self.table.give(buf);
        self.index.enter(&self.table, slab);
        object
    }

    /// A move of the buffer was put off.
    pub fn later(&mut self, number: u32)
        requires { is_out_in self.old number ≡ true }
        ensures { self.new ≡ on_buffer self.old number slab_later }
    {
        let slab = number / self.table.chunks();
        self.index.leave(&self.table, slab);
        self.table.later(number);
        self.index.enter(&self.table, slab);
    }

    /// The buffer can never be moved.
    pub fn never(&mut self, number: u32)
        requires { is_out_in self.old number ≡ true }
        ensures { self.new ≡ on_buffer self.old number slab_never }
    {
        let slab = number / self.table.chunks();
        self.index.leave(&self.table, slab);
        self.table.never(number);
        self.index.enter(&self.table, slab);
    }

    /// Whether a scan leaves the buffer out.
    pub(crate) fn is_left_out(&self, number: u32) -> bool
        requires { number < length self.now.cells }
        ensures { result ≡ slice_index_or self.now.skip number false }
    {
        self.table.law_whole();
        self.table.is_left_out(number)
    }

    /// A scan leaves the buffer out from then on, or doesn't.
    pub fn leave_out(&mut self, number: u32, left_out: bool)
        requires { number < length self.old.cells }
        ensures { self.new ≡ record self.old { skip = slice_set self.old.skip number left_out } }
    {
        let slab = number / self.table.chunks();
        self.index.leave(&self.table, slab);
        self.table.leave_out(number, left_out);
        self.index.enter(&self.table, slab);
    }

    /// Every count and mark goes.
    pub fn forget(&mut self)
        ensures { self.new ≡ record self.old { slabs = map unmarked self.old.slabs } }
    {
        while let Some(slab) = self.first_noted() {
            self.unmark(slab);
        }
    }

    fn first_noted(&self) -> Option<u32>
        ensures { IsLeastFrom (λ i. has_note (slab_at self.now.slabs i)) 0 result }
    {
        self.index.noted.least(&mut Steps::create())
    }

    fn unmark(&mut self, slab: u32)
        requires { slab < length self.old.slabs }
        ensures { self.new ≡ on_slab self.old slab unmarked }
    {
        self.index.leave(&self.table, slab);
        self.table.unmark(slab);
        self.index.enter(&self.table, slab);
    }

    /// Tells what holds of the list at every moment. It does nothing.
    pub(crate) fn law_whole(&self)
        ensures whole { IsListWhole self.now }
        ensures sizes { (self.now.chunks ≤ 64) × (length self.now.slabs ≤ 4096) }
    {
        let _index = &self.index;
        self.table.law_whole();
    }

    /// The least place at which a slab stands.
    pub(crate) fn first_place(&self, steps: &mut Steps) -> Option<u32>
        requires { steps.old < 2 ^ 62 }
        ensures place { IsLeastFrom (stands_at self.now) 0 result }
        ensures steps { steps.new ≤ steps.old + 4 }
    {
        self.index.places.least(steps)
    }

    /// The least place above this one at which a slab stands.
    pub(crate) fn place_after(&self, place: u32) -> Option<u32>
        requires { place < 532480 }
        ensures { IsLeastFrom (stands_at self.now) (place + 1) result }
    {
        self.index.places.after(place, &mut Steps::create())
    }

    /// The greatest place below this one at which a slab stands.
    pub(crate) fn place_before(&self, place: u32) -> Option<u32>
        requires { place ≤ 532480 }
        ensures { IsLastBelow (stands_at self.now) place result }
    {
        self.index.places.before(place, &mut Steps::create())
    }

    /// Of the slabs that stand below this place, the last one that may have a buffer left to ask about.
    pub(crate) fn unspent_before(&self, place: u32) -> Option<u32>
        requires { place ≤ 532480 }
        ensures { IsLastUnspent self.now place result }
    {
        self.index.unspent.before(place, &mut Steps::create())
    }

    /// The slab that stands at this place has no buffer left to ask about. It isn't looked at again before it changes.
    pub(crate) fn mark_spent(&mut self, place: u32)
        requires range { place < 532480 }
        requires spent { IsSpent self.old.chunks self.old.slabs self.old.skip (place % 4096) }
        ensures { self.new ≡ self.old }
    {
        self.index.unspent.remove(place);
    }

    /// How many slabs are listed; dead ones are not.
    pub fn listed_count(&self) -> u32
        ensures { result ≡ count_by is_listed self.now.slabs }
    {
        self.index.listed
    }

    /// How many slabs are dead.
    pub fn dead_count(&self) -> u32
        ensures { result ≡ count_by is_dead self.now.slabs }
    {
        self.index.dead
    }

    /// How many buffers are out.
    pub fn out_count(&self) -> u32
        ensures { result ≡ sum_by used self.now.slabs }
    {
        self.index.out
    }

    /// How many buffers are free on listed slabs.
    pub fn free_count(&self) -> u32
        ensures { result ≡ sum_by (λ slab. if is_listed slab then free_buffers slab else 0) self.now.slabs }
    {
        self.index.listed * self.table.chunks() - self.index.out
    }

    /// How many buffers are free on partial slabs.
    pub fn free_on_partial(&self) -> u32
        ensures { result ≡ sum_by (λ slab. if is_partial slab then free_buffers slab else 0) self.now.slabs }
    {
        (self.index.listed - self.index.unused) * self.table.chunks() - self.index.out
    }

    /// No slab is listed. All memory that the list will ever need is taken here.
    pub fn create(alloc: Global, slabs: u32, chunks: u32) -> Result<SlabList<K>, AllocError>
        requires slabs { (0 < slabs) × (slabs ≤ 4096) }
        requires chunks { (0 < chunks) × (chunks ≤ 64) }
        requires buffers { slabs * chunks ≤ 65536 }
        ensures slabs { IfOk result (λ s. s.slabs ≡ replicate slabs (slab_in_source chunks)) }
        ensures chunks { IfOk result (λ s. s.chunks ≡ chunks) }
        ensures cells { IfOk result (λ s. length s.cells ≡ slabs * chunks) }
        ensures skip { IfOk result (λ s. s.skip ≡ replicate (slabs * chunks) false) }
    {
        Ok(SlabList {
            table: SlabTable::create(alloc, slabs, chunks)?,
            index: Index::create(alloc)?,
        })
    }
}
