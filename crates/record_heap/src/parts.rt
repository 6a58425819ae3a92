//! The parts of a heap: each call is one change of names, tags and objects, or one look at them.
ghost use Rattle.std.specs.Prelude.{◌≡◌, ◌≤◌, ◌<◌, ◌+◌, ◌*◌, ◌^◌, ◌==◌, ◌&&◌, ℕ, Bool, true, false, Some, None, is_some, nat_le, nat_lt, option_map, length, map, replicate, slice_index_or, slice_set, if◌then◌else◌, IfOk, IfSome};
ghost use Rattle.std.specs.List.{list_any};
ghost use Rattle.kmem_buf.specs.Homes.{IsBufferOf};
ghost use Rattle.kmem_model.specs.CacheOrder.{is_the, least_below};
ghost use Rattle.kmem_model.specs.Records.{tag_place};
ghost use Rattle.kmem_model.specs.Heap.{least_left_in, Object, blank, address_of, hold_at, object_at, is_leftover};
ghost use Rattle.kmem_model.specs.Says.{says, relocated};
ghost use Rattle.record_heap.specs.Objects.{held_less, is_unused};
ghost use Rattle.record_heap.specs.View.{IsHoldAt};
ghost use Rattle.record_heap.specs.Changes.{value_in, names_in, holds_in, with_object, changed_at, with_tag, valued, fixed_at, linked, unlinked, tagged, made};
ghost use Rattle.kmem_answers.specs.Words.{said_of};

use crate::addresses::Addresses;
use crate::cell::{RecordCell, RecordKind};
use crate::hold::{Hold, Tags, place_of};
use crate::shelf::Shelf;
use kmem_buf::{Buf, Cells, Home, Verdict};
use kmem_model::{Steps, law_order};
use kmem_text::{NameId, Tag, Value};
use std::alloc::{AllocError, Global};
use std::marker::Model;
use std::mem::swap;

#[derive(Drop)]
pub struct Parts {
    names: Addresses,
    tags: Tags,
    shelf: Shelf,
}

impl Model for Parts {
    ghost use Rattle.record_heap.specs.View.{HeapView};

    ghost Value = { HeapView };

    ghost view = { λ p. record {
      heap = record { names = p.names; tags = p.tags.tags; objects = p.shelf.objects };
      home = p.shelf.home;
      holds = p.tags.stubs;
    } };
}

impl Parts {
    /// No name, no tag in use, and no object.
    pub fn create(
        alloc: Global,
        home: Home,
        names: u32,
        buffers: u32,
        workers: u32,
    ) -> Result<Parts, AllocError>
        requires names { names ≤ 262144 }
        requires buffers { (buffers ≡ length home.cells) × (buffers ≤ 65536) }
        requires workers { workers ≤ 16 }
        ensures heap { IfOk result (λ p. p.heap ≡
            record { names = replicate names None; tags = replicate (8 * workers) None; objects = replicate buffers None }) }
        ensures home { IfOk result (λ p. p.home ≡ home) }
        ensures holds { IfOk result (λ p. length p.holds ≡ 8 * workers) }
    {
        Ok(Parts {
            names: Addresses::create(alloc, names)?,
            tags: Tags::create(alloc, workers)?,
            shelf: Shelf::create(alloc, home, buffers)?,
        })
    }

    // Names

    pub fn address(&self, name: NameId) -> Option<u32>
        requires { name.0 < length self.now.heap.names }
        ensures { result ≡ address_of self.now.heap name.0 }
    {
        self.names.at(name.0)
    }

    /// The least name that is present.
    pub fn least_name(&self, steps: &mut Steps) -> Option<u32>
        requires { steps.old < 2 ^ 62 }
        ensures least { result ≡ least_below (length self.now.heap.names) (λ name. nat_le 0 name && is_some (address_of self.now.heap name)) }
        ensures found { IfSome result (λ name. (name < length self.now.heap.names) × (is_some (address_of self.now.heap name) ≡ true)) }
        ensures steps { steps.new ≤ steps.old + 3 }
    {
        law_order();
        self.names.least(steps)
    }

    /// The least name above this one that is present.
    pub fn name_after(&self, name: NameId, steps: &mut Steps) -> Option<u32>
        requires name { name.0 < length self.now.heap.names }
        requires steps { steps.old < 2 ^ 62 }
        ensures least { result ≡ least_below (length self.now.heap.names) (λ other. nat_le (name.0 + 1) other
            && is_some (address_of self.now.heap other)) }
        ensures found { IfSome result (λ other. (other < length self.now.heap.names) × (is_some (address_of self.now.heap other) ≡ true)) }
        ensures steps { steps.new ≤ steps.old + 5 }
    {
        law_order();
        self.names.after(name.0, steps)
    }

    // Objects

    pub fn lists(&self, b: u32) -> bool
        requires { b < length self.now.heap.objects }
        ensures { result ≡ is_some (object_at self.now.heap b) }
    {
        self.shelf.lists(b)
    }

    /// The value of the record at the address.
    pub fn value(&self, b: u32) -> Value
        requires { is_some (value_in self.now.heap b) ≡ true }
        ensures { value_in self.now.heap b ≡ Some result }
    {
        match self.shelf.look(b).value() {
            Some(value) => value,
            None => unreachable!(),
        }
    }

    /// Whether no name and no tag leads to the object at the address.
    pub fn is_unused(&self, b: u32) -> bool
        requires { is_some (object_at self.now.heap b) ≡ true }
        ensures { option_map is_unused (object_at self.now.heap b) ≡ Some result }
    {
        self.shelf.look(b).is_unused()
    }

    /// Whether the record at the address has as many names as a record may have.
    pub fn is_full(&self, b: u32) -> bool
        requires { is_some (object_at self.now.heap b) ≡ true }
        ensures full { result ≡ (length (names_in self.now.heap b) == 8) }
        ensures fits { length (names_in self.now.heap b) ≤ 8 }
    {
        self.shelf.look(b).is_full()
    }

    /// The answer about the object at the address.
    pub fn verdict(&self, b: u32) -> Verdict
        requires { b < length self.now.heap.objects }
        ensures { said_of result ≡ says self.now.heap true b }
    {
        if self.shelf.lists(b) {
            self.shelf.look(b).verdict()
        } else {
            Verdict::DontKnow
        }
    }

    /// The least address of a leftover.
    pub fn first_leftover(&self) -> Option<u32>
        ensures least { result ≡ least_left_in self.now.heap }
        ensures found { IfSome result (λ b. is_leftover (object_at self.now.heap b) ≡ true) }
    {
        self.shelf.first_leftover()
    }

    /// Shows that the buffer of the number is out.
    pub fn meet<M: Cells<RecordKind>>(&mut self, b: u32, cells: &mut M)
        requires object { is_some (object_at self.old.heap b) ≡ true }
        requires cells { M.cells cells.old ≡ self.old.home.cells }
        ensures out { M.is_out cells.old b ≡ true }
        ensures parts { self.new ≡ self.old }
        ensures cells { cells.new ≡ cells.old }
    {
        self.shelf.meet(b, cells);
    }

    /// Shows that there is no object at the number of the buffer.
    pub fn show_empty(&mut self, buf: Buf<RecordKind>) -> Buf<RecordKind>
        requires { IsBufferOf self.old.home.cells buf }
        ensures range { buf.number < length self.old.heap.objects }
        ensures empty { object_at self.old.heap buf.number ≡ None }
        ensures buf { result ≡ buf }
        ensures parts { self.new ≡ self.old }
    {
        let number = buf.number();
        self.shelf.put(buf);
        self.shelf.take(number)
    }

    pub fn set_value(&mut self, b: u32, value: Value)
        requires { is_some (object_at self.old.heap b) ≡ true }
        ensures { self.new ≡ record self.old { heap = valued self.old.heap b value } }
    {
        let mut buf = self.shelf.take(b);
        buf.object_mut().set_value(value);
        self.shelf.put(buf);
    }

    pub fn set_fixed(&mut self, b: u32, fixed: bool)
        requires { is_some (object_at self.old.heap b) ≡ true }
        ensures { self.new ≡ record self.old { heap = fixed_at self.old.heap b fixed } }
    {
        let mut buf = self.shelf.take(b);
        buf.object_mut().set_fixed(fixed);
        self.shelf.put(buf);
    }

    /// The record at the address has this name too.
    pub fn link(&mut self, name: NameId, b: u32)
        requires name { name.0 < length self.old.heap.names }
        requires object { is_some (object_at self.old.heap b) ≡ true }
        requires room { length (names_in self.old.heap b) < 8 }
        ensures { self.new ≡ record self.old { heap = linked self.old.heap name.0 b } }
    {
        self.names.lead(name.0, b);
        let mut buf = self.shelf.take(b);
        buf.object_mut().add_name(name);
        self.shelf.put(buf);
    }

    /// The record at the address doesn't have this name any more.
    pub fn unlink(&mut self, name: NameId, b: u32)
        requires name { name.0 < length self.old.heap.names }
        requires object { is_some (object_at self.old.heap b) ≡ true }
        ensures { self.new ≡ record self.old { heap = unlinked self.old.heap name.0 b } }
    {
        self.names.clear(name.0);
        let mut buf = self.shelf.take(b);
        buf.object_mut().remove_name(name);
        self.shelf.put(buf);
    }

    /// A new record with this name and value is in the buffer, whose place was empty.
    pub fn make(&mut self, name: NameId, value: Value, buf: Buf<RecordKind>)
        requires name { name.0 < length self.old.heap.names }
        requires buf { IsBufferOf self.old.home.cells buf × (buf.object ≡ blank) }
        ensures range { buf.number < length self.old.heap.objects }
        ensures empty { object_at self.old.heap buf.number ≡ None }
        ensures parts { self.new ≡ record self.old { heap = made self.old.heap name.0 buf.number value } }
    {
        let mut buf = buf;
        self.names.lead(name.0, buf.number());
        buf.object_mut().set_value(value);
        buf.object_mut().add_name(name);
        self.shelf.put(buf);
    }

    /// A new record with this name and value is where there was an object of no record.
    pub fn reuse(&mut self, name: NameId, value: Value, b: u32)
        requires name { name.0 < length self.old.heap.names }
        requires object { object_at self.old.heap b ≡ Some blank }
        ensures { self.new ≡ record self.old { heap = made self.old.heap name.0 b value } }
    {
        let buf = self.shelf.take(b);
        self.make(name, value, buf);
    }

    /// Takes the buffer at the address, with its object.
    pub fn take_out(&mut self, b: u32) -> Buf<RecordKind>
        requires { is_some (object_at self.old.heap b) ≡ true }
        ensures parts { self.new ≡ record self.old { heap = with_object self.old.heap b None } }
        ensures buf { (result.number ≡ b) × IsBufferOf self.old.home.cells result }
        ensures object { object_at self.old.heap b ≡ Some result.object }
    {
        self.shelf.take(b)
    }

    /// Takes the buffer at the address, without what its object says.
    pub fn end(&mut self, b: u32) -> Buf<RecordKind>
        requires { is_some (object_at self.old.heap b) ≡ true }
        ensures parts { self.new ≡ record self.old { heap = with_object self.old.heap b None } }
        ensures buf { (result.number ≡ b) × IsBufferOf self.old.home.cells result }
        ensures object { result.object ≡ blank }
    {
        let mut buf = self.shelf.take(b);
        *buf.object_mut() = RecordCell::blank();
        buf
    }

    /// Takes away what the object at the address says.
    pub fn leave(&mut self, b: u32)
        requires { is_some (object_at self.old.heap b) ≡ true }
        ensures { self.new ≡ record self.old { heap = with_object self.old.heap b (Some blank) } }
    {
        let mut buf = self.shelf.take(b);
        buf.object_mut().clear();
        self.shelf.put(buf);
    }

    /// Moves the object at the address into the buffer, and lets its names lead there. The old buffer comes back.
    pub fn relocate(&mut self, from: u32, to: Buf<RecordKind>) -> Buf<RecordKind>
        requires object { is_some (object_at self.old.heap from) ≡ true }
        requires names { (name : ℕ) → list_any (λ other. other == name) (names_in self.old.heap from) ≡
            is_the (address_of self.old.heap name) from }
        requires to { IsBufferOf self.old.home.cells to × (to.object ≡ blank) }
        ensures empty { object_at self.old.heap to.number ≡ None }
        ensures parts { self.new ≡ record self.old { heap = relocated self.old.heap from to.number } }
        ensures buf { (result.number ≡ from) × IsBufferOf self.old.home.cells result × (result.object ≡ blank) }
    {
        let mut to = self.show_empty(to);
        let mut old = self.shelf.take(from);
        swap(old.object_mut(), to.object_mut());
        rename(&mut self.names, to.object().names(), to.number());
        self.shelf.put(to);
        old
    }

    // Tags

    /// Whether the worker's tag is in use.
    pub fn is_used(&self, worker: u32, tag: Tag) -> bool
        requires { (1 ≤ worker) × (8 * worker ≤ length self.now.heap.tags) }
        ensures used { result ≡ is_some (hold_at self.now.heap (tag_place worker tag)) }
        ensures low { tag_place worker tag < 8 * worker }
    {
        self.tags.at(place_of(worker, tag)).is_some()
    }

    /// The worker's tag holds the record at the address from then on.
    pub fn hold(&mut self, worker: u32, tag: Tag, b: u32) -> Hold
        requires worker { 1 ≤ worker }
        requires range { tag_place worker tag < length self.old.heap.tags }
        requires idle { hold_at self.old.heap (tag_place worker tag) ≡ None }
        requires object { is_some (object_at self.old.heap b) ≡ true }
        requires few { holds_in self.old.heap b + 1 < 2 ^ 32 }
        ensures parts { self.new ≡ record self.old { heap = tagged self.old.heap (tag_place worker tag) b } }
        ensures hold { (result.worker ≡ worker) × (result.tag ≡ tag) × (result.address ≡ b) × IsHoldAt self.old.holds result }
    {
        let hold = self.tags.hold(worker, tag, b);
        let mut buf = self.shelf.take(b);
        buf.object_mut().add_hold();
        self.shelf.put(buf);
        hold
    }

    /// The address of the hold, which its tag holds.
    pub fn meet_hold(&mut self, hold: &mut Hold) -> u32
        requires { IsHoldAt self.old.holds hold.old }
        ensures held { hold_at self.old.heap (tag_place hold.old.worker hold.old.tag) ≡ Some hold.old.address }
        ensures address { result ≡ hold.old.address }
        ensures parts { self.new ≡ self.old }
        ensures hold { hold.new ≡ hold.old }
    {
        self.tags.meet(hold);
        hold.address()
    }

    /// The hold's tag isn't in use any more. It held the address that is answered.
    pub fn end_hold(&mut self, hold: Hold) -> u32
        requires { IsHoldAt self.old.holds hold }
        ensures held { hold_at self.old.heap (tag_place hold.worker hold.tag) ≡ Some hold.address }
        ensures address { result ≡ hold.address }
        ensures parts { self.new ≡ record self.old { heap = with_tag self.old.heap (tag_place hold.worker hold.tag) None } }
    {
        let b = hold.address();
        self.tags.end(hold);
        b
    }

    /// The record at the address is held by one tag less.
    pub fn hold_less(&mut self, b: u32)
        requires object { is_some (object_at self.old.heap b) ≡ true }
        requires some { 0 < holds_in self.old.heap b }
        ensures { self.new ≡ record self.old { heap = changed_at self.old.heap b held_less } }
    {
        let mut buf = self.shelf.take(b);
        buf.object_mut().remove_hold();
        self.shelf.put(buf);
    }
}

// Lets each of the names lead to the address.
fn rename(names: &mut Addresses, moved: &[u32], to: u32)
    requires { (name : ℕ) → list_any (λ other. other == name) moved.now ≡ true → name < length names.old }
    ensures size { length names.new ≡ length names.old }
    ensures names { (name : ℕ) → slice_index_or names.new name None ≡
        (if list_any (λ other. other == name) moved.now then Some to else slice_index_or names.old name None) }
{
    for name in moved {
        names.lead(*name, to);
    }
}
