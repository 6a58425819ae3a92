//! Objects in buffers, by number.
ghost use Rattle.std.specs.Prelude.{◌≡◌, ◌≤◌, ◌<◌, true, Some, None, is_some, length, replicate, slice_set, slice_index_or, IfOk, IfSome};
ghost use Rattle.kmem_buf.specs.Homes.{IsBufferOf};
ghost use Rattle.kmem_model.specs.CacheOrder.{least_below};
ghost use Rattle.kmem_model.specs.Heap.{is_leftover};

use crate::cell::{RecordCell, RecordKind};
use crate::rack::Rack;
use kmem_buf::{Buf, Cells, Home};
use kmem_model::{Steps, law_order};
use number_set::NumberSet;
use std::alloc::{AllocError, Global};
use std::marker::Model;

/// The objects of a heap, each in its buffer. To contracts it is the object at each number, and the homes of their cache.
#[derive(Drop)]
pub struct Shelf {
    rack: Rack,
    // The numbers at which there is an object of no record, so that the least is found without a look at the others.
    leftovers: NumberSet,
}

impl Model for Shelf {
    ghost use Rattle.record_heap.specs.Shelves.{ShelfState, AreLeftovers};

    ghost Value = { ShelfState };

    ghost view = { λ s. s.rack };

    ghost invariant = { λ s. AreLeftovers s.rack.objects s.leftovers };
}

impl Shelf {
    /// No object. All memory that the shelf will ever need is taken here.
    pub fn create(alloc: Global, home: Home, buffers: u32) -> Result<Shelf, AllocError>
        requires size { buffers ≡ length home.cells }
        requires few { buffers ≤ 65536 }
        ensures { IfOk result (λ s. s ≡ record { objects = replicate buffers None; home = home }) }
    {
        Ok(Shelf {
            rack: Rack::create(alloc, home, buffers)?,
            leftovers: NumberSet::create(alloc, 3, buffers.max(1))?,
        })
    }

    /// Whether there is an object at the number.
    pub fn lists(&self, b: u32) -> bool
        requires { b < length self.now.objects }
        ensures { result ≡ is_some (slice_index_or self.now.objects b None) }
    {
        self.rack.lists(b)
    }

    /// The object at the number.
    pub fn look(&self, b: u32) -> &RecordCell
        requires { is_some (slice_index_or self.now.objects b None) ≡ true }
        ensures { slice_index_or self.now.objects b None ≡ Some result.now }
    {
        self.rack.look(b)
    }

    /// The least number at which there is an object of no record.
    pub fn first_leftover(&self) -> Option<u32>
        ensures least { result ≡ least_below (length self.now.objects) (λ b. is_leftover (slice_index_or self.now.objects b None)) }
        ensures found { IfSome result (λ b. is_leftover (slice_index_or self.now.objects b None) ≡ true) }
    {
        law_order();
        self.leftovers.least(&mut Steps::create())
    }

    /// Puts the buffer at its number, where there is none: no two buffers of one number are out.
    pub fn put(&mut self, buf: Buf<RecordKind>)
        requires { IsBufferOf self.old.home.cells buf }
        ensures range { buf.number < length self.old.objects }
        ensures empty { slice_index_or self.old.objects buf.number None ≡ None }
        ensures shelf { self.new ≡ record self.old { objects = slice_set self.old.objects buf.number (Some buf.object) } }
    {
        let number = buf.number();
        let has_record = buf.object().value().is_some();
        self.rack.put(buf);
        if has_record {
            self.leftovers.remove(number);
        } else {
            self.leftovers.insert(number);
        }
    }

    /// Takes the buffer of the number.
    pub fn take(&mut self, b: u32) -> Buf<RecordKind>
        requires { is_some (slice_index_or self.old.objects b None) ≡ true }
        ensures object { slice_index_or self.old.objects b None ≡ Some result.object }
        ensures number { result.number ≡ b }
        ensures of { IsBufferOf self.old.home.cells result }
        ensures shelf { self.new ≡ record self.old { objects = slice_set self.old.objects b None } }
    {
        self.leftovers.remove(b);
        self.rack.take(b)
    }

    /// Shows that the buffer of the number is out.
    pub fn meet<M: Cells<RecordKind>>(&mut self, b: u32, cells: &mut M)
        requires object { is_some (slice_index_or self.old.objects b None) ≡ true }
        requires cells { M.cells cells.old ≡ self.old.home.cells }
        ensures out { M.is_out cells.old b ≡ true }
        ensures shelf { self.new ≡ self.old }
        ensures cells { cells.new ≡ cells.old }
    {
        let mut buf = self.take(b);
        cells.meet(&mut buf);
        self.put(buf);
    }
}
