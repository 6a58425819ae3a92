//! The slabs of a cache, with the source that they come from.
ghost use Rattle.std.specs.Prelude.{◌≡◌, ◌≤◌, ◌<◌, ◌*◌, ◌/◌, ◌%◌, ℕ, true, false, Some, None, nat_lt, length, replicate, IfOk, IfSome, IsNone, All, map, slice_set, slice_index_or};
ghost use Rattle.std.specs.FinSet as set;
ghost use Rattle.kmem_buf.specs.Homes.{IsBufferOf};
ghost use Rattle.kmem_model.specs.CacheState.{slab_at, slab_in_source, is_listed, free_buffers};
ghost use Rattle.kmem_model.specs.CacheOrder.{wanted, first_partial, first_partial_free, last_reclaimable};
ghost use Rattle.kmem_model.specs.CacheEnter.{is_full, slab_taken, slab_freed, slab_listed, slab_answered, slab_given_back, unmarked};
ghost use Rattle.slab_list.specs.Slabs.{IsFree, is_out_in, on_slab, on_buffer, fresh_slab, mode_of};
ghost use Rattle.kmem_answers.specs.Words.{said_of};
ghost use Rattle.object_cache.specs.Stock.{bare, AreHeld, OthersAreUsed, IsStocked, IsRoom, emptied_to, slab_closed};

use kmem_buf::{Buf, Buffer, Kind, Verdict};
use kmem_model::{Steps, law_order};
use slab_list::SlabList;
use slab_source::Supply;
use std::alloc::{AllocError, Global};
use std::marker::Model;

/// Where the buffer lies that is taken next.
#[derive(Clone, Copy)]
pub enum Room {
    /// This buffer, of a listed slab.
    Listed(u32),
    /// The first one of the slab that the source gives next.
    Source,
    /// This buffer, of a dead slab.
    Dead(u32),
}

/// All slabs of a cache. Those that stand in the source are the ones that the supply holds.
#[derive(Drop)]
pub struct Stock<K> {
    list: SlabList<K>,
    supply: Supply,
}

impl<K> Model for Stock<K> {
    ghost use Rattle.slab_list.specs.Slabs.{ListState};
    ghost use Rattle.object_cache.specs.Stock.{IsStocked};

    ghost Value = { ListState };

    ghost view = { λ s. s.list };

    ghost invariant = { λ s. IsStocked s.list.slabs s.supply };
}

impl<K> Stock<K> {
    /// Shows that the buffer is out.
    pub fn meet<X>(&mut self, buf: &mut Buffer<X>)
        requires { IsBufferOf self.old.cells buf.old }
        ensures out { is_out_in self.old buf.old.number ≡ true }
        ensures list { self.new ≡ self.old }
        ensures buf { buf.new ≡ buf.old }
    {
        self.list.meet(buf);
    }
}

impl<K: Kind> Stock<K> {
    /// All slabs are in the source. All memory that they will ever need is taken here.
    pub fn create(
        alloc: Global,
        supply: Supply,
        slabs: u32,
        chunks: u32,
    ) -> Result<Stock<K>, AllocError>
        requires slabs { (0 < slabs) × (slabs ≤ 4096) }
        requires chunks { (0 < chunks) × (chunks ≤ 64) }
        requires buffers { slabs * chunks ≤ 65536 }
        requires source { (supply.slabs ≡ slabs) × ((n : ℕ) → set.contains supply.held n ≡ nat_lt n slabs) }
        ensures slabs { IfOk result (λ s. s.slabs ≡ replicate slabs (slab_in_source chunks)) }
        ensures chunks { IfOk result (λ s. s.chunks ≡ chunks) }
        ensures cells { IfOk result (λ s. length s.cells ≡ slabs * chunks) }
        ensures skip { IfOk result (λ s. s.skip ≡ replicate (slabs * chunks) false) }
    {
        let list = SlabList::create(alloc, slabs, chunks)?;
        Ok(Stock { list, supply })
    }

    /// The slabs themselves, to be read.
    pub fn list(&self) -> &SlabList<K>
        ensures { result.now ≡ self.now }
    {
        &self.list
    }

    /// The free buffer of the first partial slab that is least.
    pub fn first_partial_free(&self) -> Option<u32>
        ensures first { result ≡ first_partial_free self.now.chunks self.now.slabs }
        ensures free { IfSome result (IsFree self.now) }
        ensures none { IsNone result → All (λ slab. is_listed slab ≡ true → free_buffers slab ≡ 0) self.now.slabs }
    {
        self.first_partial_free_on(self.list.first_partial(&mut Steps::create()))
    }

    /// The same, where the first partial slab was found already.
    pub fn first_partial_free_on(&self, first: Option<u32>) -> Option<u32>
        requires { first ≡ first_partial self.now.slabs }
        ensures first { result ≡ first_partial_free self.now.chunks self.now.slabs }
        ensures free { IfSome result (IsFree self.now) }
        ensures none { IsNone result → All (λ slab. is_listed slab ≡ true → free_buffers slab ≡ 0) self.now.slabs }
    {
        law_order();
        self.list.first_free_on(first)
    }

    /// The buffer that a scan asks about next, where the first partial slab was found already: see the list's.
    pub fn last_reclaimable(
        &mut self,
        first: Option<u32>,
        numer: u32,
        desperate: bool,
    ) -> Option<u32>
        requires first { first ≡ first_partial self.old.slabs }
        ensures choice { result ≡ last_reclaimable self.old.chunks numer (mode_of desperate)
            (λ b. slice_index_or self.old.skip b false) self.old.slabs }
        ensures out { IfSome result (λ b. (b < length self.old.cells) × (is_out_in self.old b ≡ true)) }
        ensures list { self.new ≡ self.old }
    {
        self.list.last_reclaimable(first, numer, desperate)
    }

    /// A scan leaves the buffer out from then on, or doesn't.
    pub fn leave_out(&mut self, number: u32, left_out: bool)
        requires { number < length self.old.cells }
        ensures { self.new ≡ record self.old { skip = slice_set self.old.skip number left_out } }
    {
        self.list.leave_out(number, left_out);
    }

    /// Where the buffer lies that is taken next, if one is free.
    pub fn room(&self) -> Option<Room>
        ensures some { IfSome result (λ room. IsRoom self.now room × (is_full (bare self.now) ≡ false)) }
        ensures none { IsNone result → is_full (bare self.now) ≡ true }
    {
        law_order();
        let chunks = self.list.chunks();
        if let Some(number) = self.first_partial_free() {
            return Some(Room::Listed(number));
        }
        if self.supply.left() > 0 {
            return Some(Room::Source);
        }
        let slab = self.list.first_dead()?;
        Some(Room::Dead(slab * chunks))
    }

    /// Gives out the buffer that is taken next.
    pub fn take(&mut self, room: Room, object: K::Object) -> Buf<K>
        requires { IsRoom self.old room }
        ensures wanted { wanted (bare self.old) ≡ Some result.number }
        ensures list { self.new ≡ on_buffer self.old result.number slab_taken }
        ensures buf { (result.object ≡ object) × IsBufferOf self.old.cells result }
    {
        let number = open(&mut self.list, &mut self.supply, room);
        self.list.take(number, object)
    }

    /// What the answer to a move of this buffer does to its slab, by count and mark.
    pub fn answer(&mut self, number: u32, verdict: Verdict)
        requires { is_out_in self.old number ≡ true }
        ensures { self.new ≡ on_buffer self.old number (slab_answered (said_of verdict)) }
    {
        match verdict {
            Verdict::No => self.list.never(number),
            Verdict::Later | Verdict::DontKnow => self.list.later(number),
            Verdict::Yes | Verdict::DontNeed => {}
        }
    }

    /// Every dead slab goes back to the source.
    pub fn give_back(&mut self)
        ensures { self.new ≡ record self.old { slabs = map slab_given_back self.old.slabs } }
    {
        give_back_all(&mut self.list, &mut self.supply);
    }

    /// Every count and mark goes.
    pub fn forget(&mut self)
        ensures { self.new ≡ record self.old { slabs = map unmarked self.old.slabs } }
    {
        self.list.forget();
    }

    /// Takes the buffer back, and answers its object. A slab with no buffer out any more is dead from then on where a move is
    /// pending, and else goes back to the source.
    pub fn give(&mut self, buf: Buf<K>, is_pending: bool) -> K::Object
        requires { IsBufferOf self.old.cells buf }
        ensures was { is_out_in self.old buf.number ≡ true }
        ensures list { self.new ≡ on_buffer self.old buf.number (slab_freed (emptied_to is_pending)) }
        ensures object { result ≡ buf.object }
    {
        let slab = buf.number() / self.list.chunks();
        let object = self.list.give(buf);
        close(&mut self.list, &mut self.supply, slab, is_pending);
        object
    }
}

// Lists the slab of the buffer that is taken next, where it isn't listed, and answers the buffer.
fn open<K: Kind>(list: &mut SlabList<K>, supply: &mut Supply, room: Room) -> u32
    requires stocked { IsStocked list.old.slabs supply.old }
    requires room { IsRoom list.old room }
    ensures wanted { wanted (bare list.old) ≡ Some result }
    ensures free { IsFree list.new result }
    ensures list { on_buffer list.new result slab_taken ≡ on_buffer list.old result slab_taken }
    ensures stocked { IsStocked (on_buffer list.old result slab_taken).slabs supply.new }
    ensures cells { list.new.cells ≡ list.old.cells }
{
    law_order();
    match room {
        Room::Listed(number) => number,
        Room::Source => match supply.take() {
            Some(slab) => list_slab(list, slab),
            None => unreachable!(),
        },
        Room::Dead(number) => {
            let slab = number / list.chunks();
            list_slab(list, slab)
        }
    }
}

// Lists the slab, and answers its first buffer.
fn list_slab<K: Kind>(list: &mut SlabList<K>, slab: u32) -> u32
    requires range { slab < length list.old.slabs }
    requires apart { is_listed (slab_at list.old.slabs slab) ≡ false }
    ensures first { result ≡ slab * list.old.chunks }
    ensures place { (result / list.old.chunks ≡ slab) × (result % list.old.chunks ≡ 0) }
    ensures free { IsFree list.new result }
    ensures list { list.new ≡ on_slab list.old slab slab_listed }
    ensures fresh { slab_at list.new.slabs slab ≡ fresh_slab list.old.chunks }
    ensures some { 0 < list.old.chunks }
{
    list.add(slab);
    slab * list.chunks()
}

// Where none of the slab's buffers is out any more, unlists it.
fn close<K: Kind>(list: &mut SlabList<K>, supply: &mut Supply, slab: u32, is_pending: bool)
    requires listed { is_listed (slab_at list.old.slabs slab) ≡ true }
    requires held { AreHeld list.old.slabs supply.old }
    requires used { OthersAreUsed slab list.old.slabs }
    ensures list { list.new ≡ on_slab list.old slab (slab_closed (emptied_to is_pending)) }
    ensures stocked { IsStocked list.new.slabs supply.new }
{
    if list.used(slab) > 0 {
        return;
    }
    if is_pending {
        list.retire(slab);
    } else {
        list.remove(slab);
        supply.give(slab);
    }
}

fn give_back_all<K: Kind>(list: &mut SlabList<K>, supply: &mut Supply)
    requires { IsStocked list.old.slabs supply.old }
    ensures list { list.new ≡ record list.old { slabs = map slab_given_back list.old.slabs } }
    ensures stocked { IsStocked list.new.slabs supply.new }
{
    law_order();
    while let Some(slab) = list.first_dead() {
        give_back_one(list, supply, slab);
    }
}

fn give_back_one<K: Kind>(list: &mut SlabList<K>, supply: &mut Supply, slab: u32)
    requires range { slab < length list.old.slabs }
    requires stocked { IsStocked list.old.slabs supply.old }
    ensures list { list.new ≡ on_slab list.old slab slab_given_back }
    ensures stocked { IsStocked list.new.slabs supply.new }
{
    if list.is_dead(slab) {
        list.give_back(slab);
        supply.give(slab);
    }
}
