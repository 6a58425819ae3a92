//! The command `put`.
ghost use Rattle.std.specs.Prelude.{◌≡◌, ◌<◌, ℕ, true, Some, None, length, slice_set};
ghost use Rattle.kmem_buf.specs.Homes.{IsBufferOf};
ghost use Rattle.kmem_model.specs.Heap.{blank, address_of, object_at, is_leftover, places_of};
ghost use Rattle.record_heap.specs.View.{IsFrame, IsNew};
ghost use Rattle.record_heap.specs.Puts.{IsReadyOffer, IsReplaced, IsPutNew, offered};

use super::RecordHeap;
use crate::cell::RecordKind;
use kmem_buf::{Buf, FullNote};
use kmem_model::law_step;
use kmem_text::{NameId, Reply, Value};

/// What a put may take for a new record.
#[derive(Drop)]
pub enum Offer {
    /// The cache wasn't asked yet.
    Nothing,
    /// A buffer of the cache.
    Fresh(Buf<RecordKind>),
    /// The cache has no buffer.
    Refused(FullNote),
}

/// What a put comes to.
#[derive(Drop)]
pub enum PutEnd {
    /// It is answered, and a buffer that it doesn't need comes back.
    Replied(Reply, Option<Buf<RecordKind>>),
    /// It wants a buffer.
    Wanting,
}

impl RecordHeap {
    /// Gives a name a value: its record's new one where it is there, and else that of a new record, in the buffer that is offered, or in
    /// the least leftover where the cache has none.
    pub fn decide_put(&mut self, name: NameId, value: Value, offer: Offer) -> PutEnd
        requires name { name.0 < length self.old.heap.names }
        requires offer { IsReadyOffer self.old.home.cells offer }
        ensures present { (b : ℕ) → address_of self.old.heap name.0 ≡ Some b → IsReplaced self.old name.0 value offer result self.new }
        ensures absent { address_of self.old.heap name.0 ≡ None → IsPutNew self.old name.0 value offer result self.new }
        ensures frame { IsFrame self.old self.new }
    {
        match self.parts.address(name) {
            Some(b) => self.replace(name, b, value, offer),
            None => self.put_new(name, value, offer),
        }
    }

    // The record at the address, to which the name leads, has the value.
    fn replace(&mut self, name: NameId, b: u32, value: Value, offer: Offer) -> PutEnd
        requires { address_of self.old.heap name.0 ≡ Some b }
        ensures put { IsReplaced self.old name.0 value offer result self.new }
        ensures frame { IsFrame self.old self.new }
    {
        law_step();
        let _ = name;
        let old = self.parts.value(b);
        self.parts.set_value(b, value);
        PutEnd::Replied(Reply::Was(old), offered(offer))
    }

    // A put of a name that is absent.
    fn put_new(&mut self, name: NameId, value: Value, offer: Offer) -> PutEnd
        requires name { name.0 < length self.old.heap.names }
        requires absent { address_of self.old.heap name.0 ≡ None }
        requires offer { IsReadyOffer self.old.home.cells offer }
        ensures put { IsPutNew self.old name.0 value offer result self.new }
        ensures frame { IsFrame self.old self.new }
    {
        match offer {
            Offer::Nothing => PutEnd::Wanting,
            Offer::Fresh(buf) => {
                self.make(name, value, buf);
                PutEnd::Replied(Reply::New, None)
            }
            Offer::Refused(_) => match self.first_leftover() {
                Some(b) => {
                    self.reuse(name, value, b);
                    PutEnd::Replied(Reply::New, None)
                }
                None => PutEnd::Replied(Reply::Full, None),
            },
        }
    }

    fn make(&mut self, name: NameId, value: Value, buf: Buf<RecordKind>)
        requires name { name.0 < length self.old.heap.names }
        requires absent { address_of self.old.heap name.0 ≡ None }
        requires buf { IsBufferOf self.old.home.cells buf × (buf.object ≡ blank) }
        ensures empty { object_at self.old.heap buf.number ≡ None }
        ensures new { IsNew self.old name.0 value buf.number self.new }
        ensures places { places_of self.new.heap.objects ≡ slice_set (places_of self.old.heap.objects) buf.number true }
        ensures frame { IsFrame self.old self.new }
    {
        law_step();
        self.parts.make(name, value, buf);
        self.present += 1;
        self.records += 1;
    }

    fn reuse(&mut self, name: NameId, value: Value, b: u32)
        requires name { name.0 < length self.old.heap.names }
        requires absent { address_of self.old.heap name.0 ≡ None }
        requires leftover { is_leftover (object_at self.old.heap b) ≡ true }
        ensures new { IsNew self.old name.0 value b self.new }
        ensures places { places_of self.new.heap.objects ≡ places_of self.old.heap.objects }
        ensures frame { IsFrame self.old self.new }
    {
        law_step();
        self.parts.reuse(name, value, b);
        self.present += 1;
        self.records += 1;
        self.leftovers -= 1;
    }
}

fn offered(offer: Offer) -> Option<Buf<RecordKind>>
    ensures { result ≡ offered offer }
{
    match offer {
        Offer::Nothing | Offer::Refused(_) => None,
        Offer::Fresh(buf) => Some(buf),
    }
}
