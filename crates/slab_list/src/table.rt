//! The slabs of one cache, each by its number, with the cells of all their buffers.
ghost use Rattle.std.specs.Prelude.{◌≡◌, ◌≤◌, ◌<◌, ◌+◌, ◌*◌, ◌/◌, ◌%◌, true, false, length, map, replicate, option_map, slice_set, slice_index_or, IfOk};
ghost use Rattle.kmem_buf.specs.Homes.{IsBufferOf, stub_homes};
ghost use Rattle.kmem_model.specs.CacheState.{SlabState, slab_at, slab_in_source, is_same_standing, is_listed, is_dead, used};
ghost use Rattle.kmem_model.specs.CacheEnter.{slab_listed, slab_taken, slab_freed, slab_later, slab_never, slab_given_back, unmarked};
ghost use Rattle.kmem_model.specs.declared.cache_state.Standing.TheVariants.{Source, Listed, Dead};
ghost use Rattle.slab_list.specs.Slabs.{IsListWhole, IsFree, slab_with, is_out_in, on_slab, on_buffer, fresh_slab, slab_left};
ghost use Rattle.slab_list.specs.Lines.{AreCellsFree};

use crate::line::Line;
use kmem_buf::{Buf, Buffer, Cell, Home, Kind, Stub};
use kmem_model::Standing;
use std::alloc::{AllocError, Global};
use std::marker::{Model, PhantomData};

/// The slabs of one cache, with the cells of all their buffers, and nothing that tells them apart but their numbers. Buffer `slab * chunks + index` lies on its slab at its index.
pub struct SlabTable<K> {
    chunks: u32,
    cells: Vec<Cell>,
    lines: Vec<Line>,
    // For each buffer whether a scan leaves it out.
    skip: Vec<bool>,
    kind: PhantomData<K>,
}

impl<K> Model for SlabTable<K> {
    ghost use Rattle.kmem_buf.specs.Homes.{cell_homes};
    ghost use Rattle.slab_list.specs.Slabs.{ListState};
    ghost use Rattle.slab_list.specs.Lines.{slabs_of, IsListKept};

    ghost Value = { ListState };

    ghost view = { λ s. record {
      chunks = s.chunks;
      slabs = slabs_of s.chunks s.cells.items s.lines.items;
      cells = cell_homes s.cells.items;
      skip = s.skip.items;
    } };

    ghost invariant = { λ s. IsListKept s.chunks s.cells.items s.lines.items };
}

impl<K> Drop for SlabTable<K> {
    fn drop(self) {
        let Self {
            chunks: _,
            cells: _,
            lines: _,
            skip: _,
            kind: _,
        } = self;
    }
}

impl<K> SlabTable<K> {
    /// Shows that the buffer is out. It asks nothing of the kind, so that a type with a list can be a `Cells` of every kind.
    pub fn meet<X>(&mut self, buf: &mut Buffer<X>)
        requires { IsBufferOf self.old.cells buf.old }
        ensures out { is_out_in self.old buf.old.number ≡ true }
        ensures list { self.new ≡ self.old }
        ensures buf { buf.new ≡ buf.old }
    {
        let cell = &mut self.cells[buf.number() as usize];
        cell.meet(buf);
    }
}

impl<K: Kind> SlabTable<K> {
    /// How many slabs there are, listed or not.
    pub fn slabs(&self) -> u32
        ensures slabs { result ≡ length self.now.slabs }
        ensures whole { IsListWhole self.now }
    {
        self.lines.len() as u32
    }

    /// How many buffers a slab has.
    pub fn chunks(&self) -> u32
        ensures chunks { result ≡ self.now.chunks }
        ensures whole { IsListWhole self.now }
    {
        self.chunks
    }

    /// Tells what holds of the table at every moment. It does nothing.
    pub fn law_whole(&self)
        ensures { IsListWhole self.now }
    {
        let _lines = &self.lines;
    }

    /// Whether the slab is listed.
    pub fn is_listed(&self, slab: u32) -> bool
        requires { slab < length self.now.slabs }
        ensures { result ≡ is_listed (slab_at self.now.slabs slab) }
    {
        self.standing(slab) == Standing::Listed
    }

    /// Whether the slab is dead.
    pub fn is_dead(&self, slab: u32) -> bool
        requires { slab < length self.now.slabs }
        ensures { result ≡ is_dead (slab_at self.now.slabs slab) }
    {
        self.standing(slab) == Standing::Dead
    }

    /// What is kept of the slab beside its cells.
    pub fn line(&self, slab: u32) -> Line
        requires { slab < length self.now.slabs }
        ensures standing { result.standing ≡ (slab_at self.now.slabs slab).standing }
        ensures used { result.used ≡ used (slab_at self.now.slabs slab) }
        ensures later { result.later ≡ (slab_at self.now.slabs slab).later }
        ensures stuck { result.stuck ≡ (slab_at self.now.slabs slab).stuck }
        ensures whole { IsListWhole self.now }
    {
        self.lines[slab as usize]
    }

    fn standing(&self, slab: u32) -> Standing
        requires { slab < length self.now.slabs }
        ensures { result ≡ (slab_at self.now.slabs slab).standing }
    {
        self.lines[slab as usize].standing
    }

    /// How many buffers of the slab are out.
    pub fn used(&self, slab: u32) -> u32
        requires { slab < length self.now.slabs }
        ensures { result ≡ used (slab_at self.now.slabs slab) }
    {
        self.lines[slab as usize].used
    }

    /// Whether the buffer is out.
    pub fn is_out(&self, number: u32) -> bool
        requires { number < length self.now.cells }
        ensures { result ≡ is_out_in self.now number }
    {
        let cell = &self.cells[number as usize];
        cell.is_out()
    }

    /// Whether a scan leaves the buffer out.
    pub fn is_left_out(&self, number: u32) -> bool
        requires { number < length self.now.skip }
        ensures { result ≡ slice_index_or self.now.skip number false }
    {
        self.skip[number as usize]
    }

    /// A scan leaves the buffer out from then on, or doesn't.
    pub fn leave_out(&mut self, number: u32, left_out: bool)
        requires { number < length self.old.skip }
        ensures { self.new ≡ record self.old { skip = slice_set self.old.skip number left_out } }
    {
        self.skip[number as usize] = left_out;
    }

    /// The number of the slab's stuck buffer. A slab has one exactly where it has the no-move mark.
    pub fn stuck(&self, slab: u32) -> Option<u32>
        requires { slab < length self.now.slabs }
        ensures { result ≡ option_map (λ k. slab * self.now.chunks + k) (slab_at self.now.slabs slab).stuck }
    {
        let index = self.lines[slab as usize].stuck?;
        Some(slab * self.chunks + index)
    }

    /// Names the homes of the cells, and of these stubs of the moves of one cache.
    pub fn home(&self, moves: &Vec<Stub>) -> Home
        ensures { result ≡ record { cells = self.now.cells; moves = stub_homes moves.now.items } }
    {
        Home::of(&self.cells, moves)
    }

    /// Lists the slab.
    pub fn add(&mut self, slab: u32)
        requires range { slab < length self.old.slabs }
        requires apart { is_listed (slab_at self.old.slabs slab) ≡ false }
        ensures list { self.new ≡ on_slab self.old slab slab_listed }
        ensures fresh { slab_at self.new.slabs slab ≡ fresh_slab self.old.chunks }
    {
        let line = &mut self.lines[slab as usize];
        line.standing = Standing::Listed;
    }

    /// Unlists the slab, which goes back to the source.
    pub fn remove(&mut self, slab: u32)
        requires listed { is_listed (slab_at self.old.slabs slab) ≡ true }
        requires idle { used (slab_at self.old.slabs slab) ≡ 0 }
        ensures { self.new ≡ on_slab self.old slab (slab_left Source) }
    {
        let line = &mut self.lines[slab as usize];
        line.unmark();
        line.standing = Standing::Source;
    }

    /// Unlists the slab, which is dead from then on.
    pub fn retire(&mut self, slab: u32)
        requires listed { is_listed (slab_at self.old.slabs slab) ≡ true }
        requires idle { used (slab_at self.old.slabs slab) ≡ 0 }
        ensures { self.new ≡ on_slab self.old slab (slab_left Dead) }
    {
        let line = &mut self.lines[slab as usize];
        line.unmark();
        line.standing = Standing::Dead;
    }

    /// A dead slab goes back to the source.
    pub fn give_back(&mut self, slab: u32)
        requires { is_dead (slab_at self.old.slabs slab) ≡ true }
        ensures { self.new ≡ on_slab self.old slab slab_given_back }
    {
        let line = &mut self.lines[slab as usize];
        line.standing = Standing::Source;
    }

    /// Gives the buffer out with this object.
    pub fn take(&mut self, number: u32, object: K::Object) -> Buf<K>
        requires { IsFree self.old number }
        ensures list { self.new ≡ on_buffer self.old number slab_taken }
        ensures buf { (result.number ≡ number) × (result.object ≡ object) }
        ensures home { IsBufferOf self.old.cells result }
    {
        let line = &mut self.lines[(number / self.chunks) as usize];
        line.used += 1;
        let cell = &mut self.cells[number as usize];
        cell.take(object)
    }

    /// Takes the buffer back, and answers its object. Its slab stays listed, also where no buffer of it is out any more.
    pub fn give(&mut self, buf: Buf<K>) -> K::Object
        requires { IsBufferOf self.old.cells buf }
        ensures was { (is_listed (slab_with self.old buf.number) ≡ true) × (is_out_in self.old buf.number ≡ true) }
        ensures list { self.new ≡ on_buffer self.old buf.number (slab_freed Listed) }
        ensures object { result ≡ buf.object }
    {
        let number = buf.number();
        let cell = &mut self.cells[number as usize];
        let object = cell.give(buf);
        let line = &mut self.lines[(number / self.chunks) as usize];
        line.free(number % self.chunks);
        object
    }

    /// A move of the buffer was put off.
    pub fn later(&mut self, number: u32)
        requires { is_out_in self.old number ≡ true }
        ensures { self.new ≡ on_buffer self.old number slab_later }
    {
        let line = &mut self.lines[(number / self.chunks) as usize];
        line.put_off(number % self.chunks);
    }

    /// The buffer can never be moved.
    pub fn never(&mut self, number: u32)
        requires { is_out_in self.old number ≡ true }
        ensures { self.new ≡ on_buffer self.old number slab_never }
    {
        let line = &mut self.lines[(number / self.chunks) as usize];
        line.fix(number % self.chunks);
    }

    /// Count and mark of the slab go.
    pub fn unmark(&mut self, slab: u32)
        requires { slab < length self.old.slabs }
        ensures { self.new ≡ on_slab self.old slab unmarked }
    {
        let line = &mut self.lines[slab as usize];
        line.unmark();
    }

    /// No slab is listed. All memory that the list will ever need is taken here.
    pub fn create(alloc: Global, slabs: u32, chunks: u32) -> Result<SlabTable<K>, AllocError>
        requires slabs { (0 < slabs) × (slabs ≤ 4096) }
        requires chunks { (0 < chunks) × (chunks ≤ 64) }
        requires buffers { slabs * chunks ≤ 65536 }
        ensures slabs { IfOk result (λ s. s.slabs ≡ replicate slabs (slab_in_source chunks)) }
        ensures chunks { IfOk result (λ s. s.chunks ≡ chunks) }
        ensures cells { IfOk result (λ s. length s.cells ≡ slabs * chunks) }
        ensures skip { IfOk result (λ s. s.skip ≡ replicate (slabs * chunks) false) }
    {
        Ok(SlabTable {
            chunks,
            cells: free_cells(alloc, slabs * chunks)?,
            lines: Vec::from_elem(alloc, Line::in_source(), slabs as usize)?,
            skip: Vec::from_elem(alloc, false, (slabs * chunks) as usize)?,
            kind: PhantomData,
        })
    }
}

// Cells that are numbered from 0, all free.
fn free_cells(alloc: Global, count: u32) -> Result<Vec<Cell>, AllocError>
    ensures count { IfOk result (λ cells. length cells.items ≡ count) }
    ensures free { IfOk result (λ cells. AreCellsFree cells.items) }
{
    let mut cells = Vec::with_capacity(alloc, count as usize)?;
    for number in 0..count {
        cells.push(Cell::create(alloc, number)?)?;
    }
    Ok(cells)
}
