//! Commands on tags.

ghost use Rattle.std.specs.Prelude.{◌≡◌, ◌<◌, ◌≤◌, length};
ghost use Rattle.kmem_text.specs.declared.command.Command.TheVariants.{Hold, Read, Write, Drop};
ghost use Rattle.kmem_model.specs.Records.{tag_place};
ghost use Rattle.run_one.specs.Bench.{Stands, IsOfBench, CarriesOut};

use super::Bench;
use kmem_model::{law_one_step, law_step};
use kmem_text::{NameId, Reply, Tag, Value};

impl Bench {
    /// Lets a worker's tag hold the record of a name.
    pub fn hold(&mut self, worker: u32, tag: Tag, name: NameId) -> Reply
        requires stands { Stands self.old }
        requires command { IsOfBench self.old worker (Hold tag name) }
        ensures carried_out { CarriesOut self.old worker (Hold tag name) result self.new }
    {
        law_one_step();
        law_step();
        let (reply, hold) = self.heap.hold(worker, tag, name);
        if let Some(hold) = hold {
            self.holds[place_of(worker, tag)] = Some(hold);
        }
        reply
    }

    /// The value of the record that a worker's tag holds.
    pub fn read(&mut self, worker: u32, tag: Tag) -> Reply
        requires stands { Stands self.old }
        requires command { IsOfBench self.old worker (Read tag) }
        ensures carried_out { CarriesOut self.old worker (Read tag) result self.new }
    {
        law_one_step();
        law_step();
        match &mut self.holds[place_of(worker, tag)] {
            Some(hold) => self.heap.read(hold),
            None => self.heap.idle(),
        }
    }

    /// Gives the record that a worker's tag holds a value.
    pub fn write(&mut self, worker: u32, tag: Tag, value: Value) -> Reply
        requires stands { Stands self.old }
        requires command { IsOfBench self.old worker (Write tag value) }
        ensures carried_out { CarriesOut self.old worker (Write tag value) result self.new }
    {
        law_one_step();
        law_step();
        match &mut self.holds[place_of(worker, tag)] {
            Some(hold) => self.heap.write(hold, value),
            None => self.heap.idle(),
        }
    }

    /// Lets the record go that a worker's tag holds.
    pub fn release(&mut self, worker: u32, tag: Tag) -> Reply
        requires stands { Stands self.old }
        requires command { IsOfBench self.old worker (Drop tag) }
        ensures carried_out { CarriesOut self.old worker (Drop tag) result self.new }
    {
        law_one_step();
        law_step();
        match self.holds[place_of(worker, tag)].take() {
            Some(hold) => self.heap.release(hold),
            None => self.heap.idle(),
        }
    }
}

// The place of a worker's tag.
fn place_of(worker: u32, tag: Tag) -> usize
    requires worker { (0 < worker) × (worker ≤ 16) }
    ensures place { result ≡ tag_place worker tag }
    ensures within { result < 128 }
{
    8 * (worker as usize - 1) + usize::from(tag.number())
}
