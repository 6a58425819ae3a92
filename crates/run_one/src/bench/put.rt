//! Commands that make, change and end records.

ghost use Rattle.std.specs.Prelude.{◌≡◌, ℕ, true, Some, None, is_some, length};
ghost use Rattle.kmem_text.specs.Grammar.{IsWithinNames};
ghost use Rattle.kmem_text.specs.declared.command.Command.TheVariants.{Put, Del, Link, Fix, Loose};
ghost use Rattle.kmem_model.specs.Heap.{address_of};
ghost use Rattle.run_one.specs.Bench.{Stands, IsOfBench, CarriesOut, reply_in};

use super::Bench;
use kmem_buf::FullNote;
use kmem_model::{law_one_step, law_step};
use kmem_text::{NameId, Reply, Value};
use object_cache::AllocRefused;
use record_heap::{Offer, PutEnd};

impl Bench {
    /// Gives a name a value. The cache is asked for a buffer only where the name is absent.
    pub fn put(&mut self, worker: u32, name: NameId, value: Value) -> Reply
        requires stands { Stands self.old }
        requires command { IsOfBench self.old worker (Put name value) }
        ensures carried_out { CarriesOut self.old worker (Put name value) result self.new }
    {
        law_one_step();
        law_step();
        let end = self.heap.decide_put(name, value, Offer::Nothing);
        match reply_in(&end) {
            Some(reply) => reply,
            None => self.put_new(worker, name, value),
        }
    }

    // A put of an absent name.
    fn put_new(&mut self, worker: u32, name: NameId, value: Value) -> Reply
        requires stands { Stands self.old }
        requires command { IsOfBench self.old worker (Put name value) }
        requires absent { address_of self.old.heap.heap name.0 ≡ None }
        ensures carried_out { CarriesOut self.old worker (Put name value) result self.new }
    {
        law_one_step();
        law_step();
        match self.cache.alloc() {
            Ok(buf) => { reply_of(self.heap.decide_put(name, value, Offer::Fresh(buf))) }
            Err(AllocRefused::Full) => {
                self.refusals = self.refusals.saturating_add(1);
                let note = FullNote { at: self.refusals };
                reply_of(self.heap.decide_put(name, value, Offer::Refused(note)))
            }
            Err(AllocRefused::NoMemory) => unreachable!(),
        }
    }

    /// Takes a name out. Where its record ends, its buffer is freed at once.
    pub fn del(&mut self, worker: u32, name: NameId) -> Reply
        requires stands { Stands self.old }
        requires command { IsOfBench self.old worker (Del name) }
        ensures carried_out { CarriesOut self.old worker (Del name) result self.new }
    {
        law_one_step();
        law_step();
        let (reply, ended) = self.heap.del(name);
        if let Some(buf) = ended {
            self.cache.free(buf);
        }
        reply
    }

    pub fn link(&mut self, name: NameId, other: NameId) -> Reply
        requires stands { Stands self.old }
        requires names { IsWithinNames (length self.old.heap.heap.names) (Link name other) }
        ensures carried_out { (worker : ℕ) → CarriesOut self.old worker (Link name other) result self.new }
    {
        law_one_step();
        law_step();
        self.heap.link(name, other)
    }

    pub fn fix(&mut self, name: NameId) -> Reply
        requires stands { Stands self.old }
        requires names { IsWithinNames (length self.old.heap.heap.names) (Fix name) }
        ensures carried_out { (worker : ℕ) → CarriesOut self.old worker (Fix name) result self.new }
    {
        law_one_step();
        law_step();
        self.heap.fix(name)
    }

    pub fn loose(&mut self, name: NameId) -> Reply
        requires stands { Stands self.old }
        requires names { IsWithinNames (length self.old.heap.heap.names) (Loose name) }
        ensures carried_out { (worker : ℕ) → CarriesOut self.old worker (Loose name) result self.new }
    {
        law_one_step();
        law_step();
        self.heap.loose(name)
    }
}

// The reply of a put that was answered.
fn reply_of(end: PutEnd) -> Reply
    requires { is_some (reply_in end) ≡ true }
    ensures { reply_in end ≡ Some result }
{
    match reply_in(&end) {
        Some(reply) => reply,
        None => unreachable!(),
    }
}

// The reply of a put, if it was answered.
fn reply_in(end: &PutEnd) -> Option<Reply>
    ensures { result ≡ reply_in end.now }
{
    match end {
        PutEnd::Replied(reply, _) => Some(*reply),
        PutEnd::Wanting => None,
    }
}
