//! Commands on tags.
ghost use Rattle.std.specs.Prelude.{◌≡◌, ◌≤◌, ◌<◌, ◌*◌, ◌↔◌, ℕ, Some, None, IsSome, IfSome, length};
ghost use Rattle.kmem_model.specs.Records.{RecordMap, id_of, held_at, tag_place};
ghost use Rattle.kmem_model.specs.RecordStep.{hold_step, read_step, write_step, drop_step};
ghost use Rattle.kmem_model.specs.Heap.{address_of, hold_at, places_of, StandsFor};
ghost use Rattle.record_heap.specs.View.{IsReplyBy, IsStepBy, IsFrame, IsHoldOf};

use super::RecordHeap;
use crate::hold::Hold;
use kmem_model::law_step;
use kmem_text::{NameId, Reply, Tag, Value};

impl RecordHeap {
    /// Lets a worker's tag hold the record of a name.
    pub fn hold(&mut self, worker: u32, tag: Tag, name: NameId) -> (Reply, Option<Hold>)
        requires worker { (1 ≤ worker) × (8 * worker ≤ length self.old.heap.tags) }
        requires name { name.0 < length self.old.heap.names }
        ensures reply { IsReplyBy self.old.heap (λ m.
            (hold_step m (tag_place worker tag) (held_at m (tag_place worker tag)) (id_of m name.0)).reply) result.0 }
        ensures stands { IsStepBy self.old.heap self.new.heap (λ m.
            (hold_step m (tag_place worker tag) (held_at m (tag_place worker tag)) (id_of m name.0)).map) }
        ensures done { (result.0 ≡ Reply.Done) ↔ IsSome result.1 }
        ensures hold { IfSome result.1 (λ h. IsHoldOf self.new h × (h.worker ≡ worker) × (h.tag ≡ tag)) }
        ensures address { IfSome result.1 (λ h. (hold_at self.new.heap (tag_place worker tag) ≡ Some h.address) ×
            (address_of self.old.heap name.0 ≡ Some h.address)) }
        ensures places { places_of self.new.heap.objects ≡ places_of self.old.heap.objects }
        ensures frame { IsFrame self.old self.new }
    {
        law_step();
        if self.parts.is_used(worker, tag) {
            return (Reply::Used, None);
        }
        let Some(b) = self.parts.address(name) else {
            return (Reply::Absent, None);
        };
        (Reply::Done, Some(self.parts.hold(worker, tag, b)))
    }

    /// The value of the record that the hold's tag holds.
    pub fn read(&mut self, hold: &mut Hold) -> Reply
        requires { IsHoldOf self.old hold.old }
        ensures held { hold_at self.old.heap (tag_place hold.old.worker hold.old.tag) ≡ Some hold.old.address }
        ensures reply { IsReplyBy self.old.heap (λ m. (read_step m (held_at m (tag_place hold.old.worker hold.old.tag))).reply) result }
        ensures heap { self.new ≡ self.old }
        ensures hold { hold.new ≡ hold.old }
    {
        let b = self.parts.meet_hold(hold);
        Reply::Val(self.parts.value(b))
    }

    /// Gives the record that the hold's tag holds a value.
    pub fn write(&mut self, hold: &mut Hold, value: Value) -> Reply
        requires { IsHoldOf self.old hold.old }
        ensures held { hold_at self.old.heap (tag_place hold.old.worker hold.old.tag) ≡ Some hold.old.address }
        ensures reply { IsReplyBy self.old.heap (λ m.
            (write_step m value (held_at m (tag_place hold.old.worker hold.old.tag))).reply) result }
        ensures stands { IsStepBy self.old.heap self.new.heap (λ m.
            (write_step m value (held_at m (tag_place hold.old.worker hold.old.tag))).map) }
        ensures places { places_of self.new.heap.objects ≡ places_of self.old.heap.objects }
        ensures frame { IsFrame self.old self.new }
        ensures hold { hold.new ≡ hold.old }
    {
        law_step();
        let b = self.parts.meet_hold(hold);
        let old = self.parts.value(b);
        self.parts.set_value(b, value);
        Reply::Was(old)
    }

    /// The hold's tag isn't in use any more. Where its record has no name and no other tag the record ends, and its object is a leftover.
    pub fn release(&mut self, hold: Hold) -> Reply
        requires { IsHoldOf self.old hold }
        ensures held { hold_at self.old.heap (tag_place hold.worker hold.tag) ≡ Some hold.address }
        ensures reply { IsReplyBy self.old.heap (λ m.
            (drop_step m (tag_place hold.worker hold.tag) (held_at m (tag_place hold.worker hold.tag))).reply) result }
        ensures stands { IsStepBy self.old.heap self.new.heap (λ m.
            (drop_step m (tag_place hold.worker hold.tag) (held_at m (tag_place hold.worker hold.tag))).map) }
        ensures places { places_of self.new.heap.objects ≡ places_of self.old.heap.objects }
        ensures frame { IsFrame self.old self.new }
    {
        law_step();
        let b = self.parts.end_hold(hold);
        self.parts.hold_less(b);
        if self.parts.is_unused(b) {
            self.parts.leave(b);
            self.records -= 1;
            self.leftovers += 1;
        }
        Reply::Done
    }

    /// What is said of a tag that isn't in use, whichever it is.
    pub fn idle(&self) -> Reply
        ensures reply { result ≡ Reply.Idle }
        ensures step { (place : ℕ) → hold_at self.now.heap place ≡ None →
            IsReplyBy self.now.heap (λ m. (read_step m (held_at m place)).reply) result }
    {
        Reply::Idle
    }
}
