//! Commands on names.
ghost use Rattle.std.specs.Prelude.{◌≡◌, ◌<◌, ℕ, true, false, List, Some, IfSome, IfNone, slice_set, length};
ghost use Rattle.kmem_buf.specs.Homes.{IsBufferOf};
ghost use Rattle.kmem_model.specs.Records.{RecordMap, id_of, is_live};
ghost use Rattle.kmem_model.specs.RecordStep.{del_step, link_step, fix_step};
ghost use Rattle.kmem_model.specs.Heap.{blank, places_of, StandsFor, address_of};
ghost use Rattle.record_heap.specs.View.{IsReplyBy, IsStepBy, IsFrame, IsHandedOut, IsKeptOn};

use super::RecordHeap;
use crate::cell::RecordKind;
use kmem_buf::Buf;
use kmem_model::law_step;
use kmem_text::{NameId, Reply};

impl RecordHeap {
    /// Takes a name out. Where its record has no other name and no tag the record ends, and its buffer is handed out.
    pub fn del(&mut self, name: NameId) -> (Reply, Option<Buf<RecordKind>>)
        requires { name.0 < length self.old.heap.names }
        ensures reply { IsReplyBy self.old.heap (λ m. (del_step m name.0 (id_of m name.0)).reply) result.0 }
        ensures stands { IsStepBy self.old.heap self.new.heap (λ m. (del_step m name.0 (id_of m name.0)).map) }
        ensures out { IfSome result.1 (λ buf. IsHandedOut self.old name.0 buf self.new) }
        ensures kept { IfNone result.1 (IsKeptOn self.old name.0 self.new) }
        ensures frame { IsFrame self.old self.new }
    {
        law_step();
        let Some(b) = self.parts.address(name) else {
            return (Reply::Absent, None);
        };
        let value = self.parts.value(b);
        self.parts.unlink(name, b);
        self.present -= 1;
        if !self.parts.is_unused(b) {
            return (Reply::Gone(value), None);
        }
        self.records -= 1;
        (Reply::Gone(value), Some(self.parts.end(b)))
    }

    /// Gives the record of a name another name too.
    pub fn link(&mut self, name: NameId, other: NameId) -> Reply
        requires { (name.0 < length self.old.heap.names) × (other.0 < length self.old.heap.names) }
        ensures reply { IsReplyBy self.old.heap (λ m. (link_step m other.0 (id_of m name.0)).reply) result }
        ensures stands { IsStepBy self.old.heap self.new.heap (λ m. (link_step m other.0 (id_of m name.0)).map) }
        ensures places { places_of self.new.heap.objects ≡ places_of self.old.heap.objects }
        ensures frame { IsFrame self.old self.new }
    {
        law_step();
        let Some(b) = self.parts.address(name) else {
            return Reply::Absent;
        };
        if self.parts.address(other).is_some() {
            return Reply::Taken;
        }
        if self.parts.is_full(b) {
            return Reply::Many;
        }
        self.parts.link(other, b);
        self.present += 1;
        Reply::Done
    }

    /// The record of a name is never moved from then on.
    pub fn fix(&mut self, name: NameId) -> Reply
        requires { name.0 < length self.old.heap.names }
        ensures reply { IsReplyBy self.old.heap (λ m. (fix_step m true (id_of m name.0)).reply) result }
        ensures stands { IsStepBy self.old.heap self.new.heap (λ m. (fix_step m true (id_of m name.0)).map) }
        ensures places { places_of self.new.heap.objects ≡ places_of self.old.heap.objects }
        ensures frame { IsFrame self.old self.new }
    {
        self.set_fixed(name, true)
    }

    /// The record of a name may be moved from then on.
    pub fn loose(&mut self, name: NameId) -> Reply
        requires { name.0 < length self.old.heap.names }
        ensures reply { IsReplyBy self.old.heap (λ m. (fix_step m false (id_of m name.0)).reply) result }
        ensures stands { IsStepBy self.old.heap self.new.heap (λ m. (fix_step m false (id_of m name.0)).map) }
        ensures places { places_of self.new.heap.objects ≡ places_of self.old.heap.objects }
        ensures frame { IsFrame self.old self.new }
    {
        self.set_fixed(name, false)
    }

    fn set_fixed(&mut self, name: NameId, fixed: bool) -> Reply
        requires { name.0 < length self.old.heap.names }
        ensures reply { IsReplyBy self.old.heap (λ m. (fix_step m fixed (id_of m name.0)).reply) result }
        ensures stands { IsStepBy self.old.heap self.new.heap (λ m. (fix_step m fixed (id_of m name.0)).map) }
        ensures places { places_of self.new.heap.objects ≡ places_of self.old.heap.objects }
        ensures frame { IsFrame self.old self.new }
    {
        law_step();
        let Some(b) = self.parts.address(name) else {
            return Reply::Absent;
        };
        self.parts.set_fixed(b, fixed);
        Reply::Done
    }
}
