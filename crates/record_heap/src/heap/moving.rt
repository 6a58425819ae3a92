//! Moves, and leftovers that go.
ghost use Rattle.std.specs.Prelude.{◌≡◌, ◌≤◌, ◌<◌, ℕ, true, false, List, Some, None, IfSome, IfNone, slice_set, length};
ghost use Rattle.kmem_buf.specs.Homes.{IsBufferOf};
ghost use Rattle.kmem_buf.specs.Answers.{IsAnswerTo, verdict_of};
ghost use Rattle.kmem_model.specs.Records.{RecordMap};
ghost use Rattle.kmem_model.specs.Heap.{least_left_in, blank, places_of, StandsFor, object_at, is_leftover};
ghost use Rattle.kmem_model.specs.Says.{says, heap_after, addresses_after};
ghost use Rattle.record_heap.specs.View.{IsFrame};
ghost use Rattle.kmem_answers.specs.Words.{said_of};

use super::RecordHeap;
use crate::cell::RecordKind;
use kmem_buf::{Answer, Buf, Verdict};
use kmem_model::law_relocation;

impl RecordHeap {
    /// Answers whether the object of the number could move to the buffer, and moves it where the answer is yes: with its value, its names
    /// and its flag, and every name of the record leads to the new address.
    pub fn answer_move(&mut self, from: u32, to: Buf<RecordKind>) -> Answer<RecordKind>
        requires from { from < length self.old.heap.objects }
        requires to { IsBufferOf self.old.home.cells to × (to.object ≡ blank) }
        ensures answer { said_of (verdict_of result) ≡ says self.old.heap true from }
        ensures buffers { IsAnswerTo (λ o. o ≡ blank) self.old.home.cells from to.number result }
        ensures heap { self.new.heap ≡ heap_after self.old.heap from to.number (says self.old.heap true from) }
        ensures stands { (m : RecordMap) (addresses : List ℕ) → StandsFor m addresses self.old.heap →
            StandsFor m (addresses_after addresses from to.number (says self.old.heap true from)) self.new.heap }
        ensures empty { object_at self.old.heap to.number ≡ None }
        ensures frame { IsFrame self.old self.new }
    {
        law_relocation();
        let to = self.parts.show_empty(to);
        match self.parts.verdict(from) {
            Verdict::Yes => Answer::Yes(self.parts.relocate(from, to)),
            Verdict::No => Answer::No(to),
            Verdict::Later => Answer::Later(to),
            Verdict::DontNeed => {
                self.leftovers -= 1;
                Answer::DontNeed(self.parts.take_out(from), to)
            }
            Verdict::DontKnow => Answer::DontKnow(to),
        }
    }

    /// Takes the leftover with the least address, if there is one.
    pub fn take_leftover(&mut self) -> Option<Buf<RecordKind>>
        ensures none { IfNone result (least_left_in self.old.heap ≡ None) }
        ensures buf { IfSome result (λ buf. (least_left_in self.old.heap ≡ Some buf.number) × (buf.object ≡ blank) ×
            IsBufferOf self.old.home.cells buf) }
        ensures stays { IfNone result (self.new ≡ self.old) }
        ensures stands { (m : RecordMap) (addresses : List ℕ) → StandsFor m addresses self.old.heap → StandsFor m addresses self.new.heap }
        ensures places { IfSome result (λ buf. places_of self.new.heap.objects ≡
            slice_set (places_of self.old.heap.objects) buf.number false) }
        ensures frame { IsFrame self.old self.new }
    {
        let b = self.first_leftover()?;
        self.leftovers -= 1;
        Some(self.parts.take_out(b))
    }

    /// The least address of a leftover. Where there is none, no object is looked at.
    pub(crate) fn first_leftover(&self) -> Option<u32>
        ensures least { result ≡ least_left_in self.now.heap }
        ensures found { IfSome result (λ b. is_leftover (object_at self.now.heap b) ≡ true) }
    {
        if self.leftovers == 0 {
            return None;
        }
        self.parts.first_leftover()
    }
}
