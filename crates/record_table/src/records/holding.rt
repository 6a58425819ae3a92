//! Tags: what holds a record, whatever its names.
ghost use Rattle.std.specs.Prelude.{◌≡◌, ◌<◌, ◌↔◌, ℕ, List, IsSome, IfSome};
ghost use Rattle.kmem_text.specs.declared.command.Command.TheVariants as command;
ghost use Rattle.record_table.specs.Tables.{home_of, IsStandingFor};
ghost use Rattle.record_table.specs.Turns.{entry_of, HasEntered};
ghost use Rattle.record_table.specs.Holds.{IsHeldBy, IsHoldThere, IsIdleAsk};
ghost use Rattle.kmem_model.specs.declared.record_entry.RecordEntry.{RecordEntry};

use super::Records;
use kmem_text::{Command, NameId, Reply, Tag, Value};
use record_heap::Hold;

impl Records {
    /// Lets a worker's tag hold the record of a name.
    pub fn hold(&mut self, who: u32, tag: Tag, name: NameId) -> (Reply, Option<Hold>)
        requires worker { who < self.old.workers }
        requires named { name.0 < self.old.names }
        ensures home { home_of self.new ≡ home_of self.old }
        ensures entered { (number : ℕ) → HasEntered self.old self.new who (entry_of number (command.Hold tag name) result.0) }
        ensures done { (result.0 ≡ Reply.Done) ↔ IsSome result.1 }
        ensures given { IfSome result.1 (IsHeldBy (home_of self.old) who tag) }
    {
        let _ = tag.number();
        self.heap.hold(who + 1, tag, name)
    }

    /// The value of the record that the hold's tag holds.
    pub fn read(&mut self, who: u32, hold: &mut Hold) -> Reply
        requires worker { who < self.old.workers }
        requires held { IsHeldBy (home_of self.old) who hold.old.tag hold.old }
        ensures home { home_of self.new ≡ home_of self.old }
        ensures entered { (number : ℕ) → HasEntered self.old self.new who (entry_of number (command.Read hold.old.tag) result) }
        ensures there { IsHoldThere self.old hold.old }
        ensures hold { hold.new ≡ hold.old }
    {
        let _ = who;
        let _ = hold.tag().number();
        self.heap.read(hold)
    }

    /// Gives the record that the hold's tag holds a value.
    pub fn write(&mut self, who: u32, hold: &mut Hold, value: Value) -> Reply
        requires worker { who < self.old.workers }
        requires held { IsHeldBy (home_of self.old) who hold.old.tag hold.old }
        ensures home { home_of self.new ≡ home_of self.old }
        ensures entered { (number : ℕ) → HasEntered self.old self.new who (entry_of number (command.Write hold.old.tag value) result) }
        ensures there { IsHoldThere self.old hold.old }
        ensures hold { hold.new ≡ hold.old }
    {
        let _ = who;
        let _ = hold.tag().number();
        self.heap.write(hold, value)
    }

    /// The hold's tag isn't in use any more.
    pub fn release(&mut self, who: u32, hold: Hold) -> Reply
        requires worker { who < self.old.workers }
        requires held { IsHeldBy (home_of self.old) who hold.tag hold }
        ensures home { home_of self.new ≡ home_of self.old }
        ensures entered { (number : ℕ) → HasEntered self.old self.new who (entry_of number (command.Drop hold.tag) result) }
        ensures there { IsHoldThere self.old hold }
        ensures done { (h : List (ℕ × RecordEntry)) → IsStandingFor self.old h → result ≡ Reply.Done }
    {
        let _ = who;
        let _ = hold.tag().number();
        self.heap.release(hold)
    }

    /// What is said of a tag that isn't in use.
    pub fn idle(&self, who: u32, command: &Command) -> Reply
        requires ask { (h : List (ℕ × RecordEntry)) × IsStandingFor self.now h × IsIdleAsk (home_of self.now) who command.now h }
        ensures entered { (number : ℕ) → HasEntered self.now self.now who (entry_of number command.now result) }
        ensures idle { result ≡ Reply.Idle }
    {
        let _ = who;
        let _ = command;
        Reply::Idle
    }
}
