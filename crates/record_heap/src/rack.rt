//! Buffers, by number.
ghost use Rattle.std.specs.Prelude.{◌≡◌, ◌≤◌, ◌<◌, true, Some, None, is_some, length, replicate, slice_set, slice_index_or, IfOk};
ghost use Rattle.kmem_buf.specs.Homes.{IsBufferOf};

use crate::cell::{RecordCell, RecordKind};
use kmem_buf::{Buf, Home};
use std::alloc::{AllocError, Global};
use std::marker::Model;

/// The buffers that are in the heap. To contracts it is the object at each number, and the homes of their cache.
#[derive(Drop)]
pub struct Rack {
    home: Home,
    bufs: Vec<Option<Buf<RecordKind>>>,
}

impl Model for Rack {
    ghost use Rattle.record_heap.specs.Shelves.{ShelfState, AreShelved, objects_of};

    ghost Value = { ShelfState };

    ghost view = { λ s. record { objects = objects_of s.bufs.items; home = s.home } };

    ghost invariant = { λ s. AreShelved s.home.cells s.bufs.items };
}

impl Rack {
    /// No object. All memory that the rack will ever need is taken here.
    pub fn create(alloc: Global, home: Home, buffers: u32) -> Result<Rack, AllocError>
        requires size { buffers ≡ length home.cells }
        requires few { buffers ≤ 65536 }
        ensures { IfOk result (λ s. s ≡ record { objects = replicate buffers None; home = home }) }
    {
        let mut bufs = Vec::with_capacity(alloc, buffers as usize)?;
        for _ in 0..buffers {
            bufs.push(None)?;
        }
        Ok(Rack { home, bufs })
    }

    /// Whether there is an object at the number.
    pub fn lists(&self, b: u32) -> bool
        requires { b < length self.now.objects }
        ensures { result ≡ is_some (slice_index_or self.now.objects b None) }
    {
        self.bufs[b as usize].is_some()
    }

    /// The object at the number.
    pub fn look(&self, b: u32) -> &RecordCell
        requires { is_some (slice_index_or self.now.objects b None) ≡ true }
        ensures { slice_index_or self.now.objects b None ≡ Some result.now }
    {
        match &self.bufs[b as usize] {
            Some(buf) => buf.object(),
            None => unreachable!(),
        }
    }

    /// Puts the buffer at its number, where there is none: no two buffers of one number are out.
    pub fn put(&mut self, buf: Buf<RecordKind>)
        requires { IsBufferOf self.old.home.cells buf }
        ensures range { buf.number < length self.old.objects }
        ensures empty { slice_index_or self.old.objects buf.number None ≡ None }
        ensures shelf { self.new ≡ record self.old { objects = slice_set self.old.objects buf.number (Some buf.object) } }
    {
        let number = buf.number() as usize;
        match self.bufs[number].take() {
            None => self.bufs[number] = Some(buf),
            Some(other) => buf.clash(other),
        }
    }

    /// Takes the buffer of the number.
    pub fn take(&mut self, b: u32) -> Buf<RecordKind>
        requires { is_some (slice_index_or self.old.objects b None) ≡ true }
        ensures object { slice_index_or self.old.objects b None ≡ Some result.object }
        ensures number { result.number ≡ b }
        ensures of { IsBufferOf self.old.home.cells result }
        ensures shelf { self.new ≡ record self.old { objects = slice_set self.old.objects b None } }
    {
        match self.bufs[b as usize].take() {
            Some(buf) => buf,
            None => unreachable!(),
        }
    }
}
