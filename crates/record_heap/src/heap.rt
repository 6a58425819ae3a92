//! The record heap.
ghost use Rattle.std.specs.Prelude.{◌≡◌, ◌≤◌, ◌<◌, ◌*◌, ◌+◌, ◌^◌, ◌&&◌, nat_le, option_map, ℕ, true, false, List, [], Some, None, is_some, length, replicate, IfOk, IfSome};
ghost use Rattle.kmem_model.specs.CacheOrder.{least_below};
ghost use Rattle.kmem_model.specs.Records.{RecordMap, no_records, id_of, least_name, present_count, live_count, tag_place};
ghost use Rattle.kmem_model.specs.RecordStep.{stays, get_step, at_step};
ghost use Rattle.kmem_model.specs.Heap.{StandsFor, address_of, hold_at, object_at, kept_count, leftover_count};
ghost use Rattle.record_heap.specs.View.{IsReplyBy};

mod holds;
mod moving;
mod names;
mod owner;
mod put;

use crate::cell::RecordKind;
use crate::parts::Parts;
use kmem_buf::{Cells, Home};
use kmem_model::{Steps, law_step};
use kmem_text::{NameId, Reply};
pub use owner::{RecordMeaning, RecordTenant};
pub use put::{Offer, PutEnd};
use std::alloc::{AllocError, Global};
use std::marker::Model;

/// Records in buffers of a cache, found by name or by tag. To contracts it is a heap state, with the homes of its cache and of the stubs
/// of its tags. After `create` no call takes memory. `get`, `put`, `del` and `link` look at one name and one object, `first` and `next` at no
/// name but the one that they find, and the search for a leftover at no object.
#[derive(Drop)]
pub struct RecordHeap {
    parts: Parts,
    // How many names are present, how many objects have a record, and how many have none.
    present: u32,
    records: u32,
    leftovers: u32,
}

impl Model for RecordHeap {
    ghost use Rattle.record_heap.specs.View.{HeapView};
    ghost use Rattle.record_heap.specs.Kept.{IsHeapKept};

    ghost Value = { HeapView };

    ghost view = { λ h. h.parts };

    ghost invariant = { λ h. IsHeapKept h.parts.heap h.present h.records h.leftovers };
}

impl RecordHeap {
    /// No name is present and no tag is in use. `home` names the cache whose buffers the heap takes.
    pub fn create(
        alloc: Global,
        home: Home,
        names: u32,
        buffers: u32,
        workers: u32,
    ) -> Result<RecordHeap, AllocError>
        requires names { names ≤ 262144 }
        requires buffers { (buffers ≡ length home.cells) × (buffers ≤ 65536) }
        requires workers { (1 ≤ workers) × (workers ≤ 16) }
        ensures heap { IfOk result (λ h. (h.heap ≡
            record { names = replicate names None; tags = replicate (8 * workers) None; objects = replicate buffers None }) ×
            (h.home ≡ home)) }
        ensures holds { IfOk result (λ h. length h.holds ≡ 8 * workers) }
        ensures stands { IfOk result (λ h. StandsFor (no_records names workers) [] h.heap) }
    {
        law_step();
        Ok(RecordHeap {
            parts: Parts::create(alloc, home, names, buffers, workers)?,
            present: 0,
            records: 0,
            leftovers: 0,
        })
    }

    /// Shows that the buffer of the number is out.
    pub fn meet<M: Cells<RecordKind>>(&mut self, b: u32, cells: &mut M)
        requires object { is_some (object_at self.old.heap b) ≡ true }
        requires cells { M.cells cells.old ≡ self.old.home.cells }
        ensures out { M.is_out cells.old b ≡ true }
        ensures heap { self.new ≡ self.old }
        ensures cells { cells.new ≡ cells.old }
    {
        self.parts.meet(b, cells);
    }

    /// The address of a name that is present.
    pub fn address(&self, name: NameId) -> Option<u32>
        requires { name.0 < length self.now.heap.names }
        ensures { result ≡ address_of self.now.heap name.0 }
    {
        self.parts.address(name)
    }

    /// Whether the heap has an object at the number.
    pub fn lists(&self, b: u32) -> bool
        requires { b < length self.now.heap.objects }
        ensures { result ≡ is_some (object_at self.now.heap b) }
    {
        self.parts.lists(b)
    }

    /// The value of a name.
    pub fn get(&self, name: NameId) -> Reply
        requires { name.0 < length self.now.heap.names }
        ensures reply { IsReplyBy self.now.heap (λ m. (get_step m (id_of m name.0)).reply) result }
    {
        match self.parts.address(name) {
            Some(b) => Reply::Val(self.parts.value(b)),
            None => Reply::Absent,
        }
    }

    /// The least name, with its value.
    pub fn first(&self) -> Reply
        ensures reply { IsReplyBy self.now.heap (λ m. (at_step m (least_name m 0)).reply) result }
    {
        self.at(self.parts.least_name(&mut Steps::create()))
    }

    /// The least name that is greater, with its value.
    pub fn next(&self, name: NameId) -> Reply
        requires { name.0 < length self.now.heap.names }
        ensures reply { IsReplyBy self.now.heap (λ m. (at_step m (least_name m (name.0 + 1))).reply) result }
    {
        self.at(self.parts.name_after(name, &mut Steps::create()))
    }

    /// The least name that is present, by at most three steps.
    pub fn least(&self, steps: &mut Steps) -> Option<NameId>
        requires { steps.old < 2 ^ 62 }
        ensures least { option_map (λ name. name.0) result ≡ least_below (length self.now.heap.names) (λ name. nat_le 0 name
            && is_some (address_of self.now.heap name)) }
        ensures steps { steps.new ≤ steps.old + 3 }
    {
        Some(NameId(self.parts.least_name(steps)?))
    }

    /// The least name above this one that is present, by at most five steps.
    pub fn after(&self, name: NameId, steps: &mut Steps) -> Option<NameId>
        requires name { name.0 < length self.now.heap.names }
        requires steps { steps.old < 2 ^ 62 }
        ensures least { option_map (λ other. other.0) result ≡ least_below (length self.now.heap.names) (λ other. nat_le (name.0 + 1) other
            && is_some (address_of self.now.heap other)) }
        ensures steps { steps.new ≤ steps.old + 5 }
    {
        Some(NameId(self.parts.name_after(name, steps)?))
    }

    fn at(&self, name: Option<u32>) -> Reply
        requires { IfSome name (λ n. (n < length self.now.heap.names) × (is_some (address_of self.now.heap n) ≡ true)) }
        ensures { IsReplyBy self.now.heap (λ m. (at_step m name).reply) result }
    {
        let Some(name) = name else {
            return Reply::Absent;
        };
        match self.parts.address(NameId(name)) {
            Some(b) => Reply::At(NameId(name), self.parts.value(b)),
            None => unreachable!(),
        }
    }

    /// How many names are present.
    pub fn count(&self) -> Reply
        ensures reply { IsReplyBy self.now.heap (λ m. (stays m (Reply.Number (present_count m))).reply) result }
    {
        Reply::Number(self.present)
    }

    /// How many objects have a record.
    pub fn live(&self) -> u32
        ensures kept { result ≡ kept_count self.now.heap }
        ensures live { (m : RecordMap) (addresses : List ℕ) → StandsFor m addresses self.now.heap → result ≡ live_count m }
    {
        self.records
    }

    /// How many objects have none.
    pub fn leftovers(&self) -> u32
        ensures { result ≡ leftover_count self.now.heap }
    {
        self.leftovers
    }
}
