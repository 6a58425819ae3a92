//! A command on the plain map, and whether a reply is right.

ghost use Rattle.std.specs.Prelude.{◌≡◌, ◌≢◌, ◌+◌, ◌<◌, ◌≤◌, ◌^◌, length, OnOk, IfOk, true, false};
ghost use Rattle.kmem_text.specs.Grammar.{IsWithinNames};
ghost use Rattle.kmem_model.specs.Records.{tag_place};
ghost use Rattle.kmem_model.specs.RecordStep.{IsInRange};
ghost use Rattle.kmem_model.specs.History.{is_put_of_absent, is_refusal};
ghost use Rattle.run_check.specs.PlainMaps.{step_kept};
ghost use Rattle.run_check.specs.Replays.{IsTaken, IsWrong};
ghost use Rattle.run_check.specs.Kept.{kept_map, IsKept};

use crate::plain_map::PlainMap;
use crate::told::Told;
use kmem_text::{Command, Reply, Tag};
use std::alloc::AllocError;

impl PlainMap {
    /// Carries out a worker's command.
    pub fn step(&mut self, worker: u32, command: &Command) -> Result<Reply, AllocError>
        requires kept { IsKept self.old }
        requires range { IsInRange (kept_map self.old) worker command.now }
        requires few { (length self.old.names.items < 2 ^ 31) × (length self.old.values.items < 2 ^ 31) }
        requires worker { worker ≤ 16 }
        ensures kept { OnOk result (IsKept self.new) }
        ensures map { OnOk result (kept_map self.new ≡ (step_kept (kept_map self.old) worker command.now).map) }
        ensures reply { IfOk result (λ reply. reply ≡ (step_kept (kept_map self.old) worker command.now).reply) }
    {
        match command {
            Command::Put(name, value) => self.put(*name, value),
            Command::Get(name) => Ok(self.get(*name)),
            Command::Del(name) => Ok(self.del(*name)),
            Command::First => Ok(self.next(0)),
            Command::Next(name) => Ok(self.next(name.0 + 1)),
            Command::Count => Ok(Reply::Number(self.count)),
            Command::Link(name, other) => self.link(*name, *other),
            Command::Hold(tag, name) => Ok(self.hold(tag_place(worker, *tag), *name)),
            Command::Read(tag) => Ok(self.read(tag_place(worker, *tag))),
            Command::Write(tag, value) => Ok(self.write(tag_place(worker, *tag), value)),
            Command::Drop(tag) => Ok(self.release(tag_place(worker, *tag))),
            Command::Fix(name) | Command::Loose(name) => Ok(self.fix(*name)),
        }
    }

    /// Whether a reply is right, and if so, goes on by it.
    pub fn takes(&mut self, worker: u32, told: &Told) -> Result<bool, AllocError>
        requires kept { IsKept self.old }
        requires range { IsInRange (kept_map self.old) worker told.now.command }
        requires few { (length self.old.names.items < 2 ^ 31) × (length self.old.values.items < 2 ^ 31) }
        requires worker { worker ≤ 16 }
        ensures kept { IfOk result (λ right. right ≡ true → IsKept self.new) }
        ensures right { IfOk result (λ right. right ≡ true →
            IsTaken (kept_map self.old) worker told.now.command told.now.reply (kept_map self.new)) }
        ensures wrong { IfOk result (λ right. right ≡ false → IsWrong (kept_map self.old) worker told.now.command told.now.reply) }
    {
        if is_refusal(&told.reply) {
            return Ok(self.is_put_of_absent(&told.command));
        }
        let reply = self.step(worker, &told.command)?;
        Ok(is_same(&told.reply, &reply))
    }

    /// A put of a name that is absent.
    pub fn is_put_of_absent(&self, command: &Command) -> bool
        requires { IsWithinNames (length self.now.names.items) command.now }
        ensures { result ≡ is_put_of_absent (kept_map self.now) command.now }
    {
        match command {
            Command::Put(name, _) => self.names[name.0 as usize].is_none(),
            _ => false,
        }
    }
}

/// The place of a worker's tag.
fn tag_place(worker: u32, tag: Tag) -> usize
    requires { (1 ≤ worker) × (worker ≤ 16) }
    ensures { result ≡ tag_place worker tag }
{
    8 * (worker as usize - 1) + tag.number() as usize
}

/// The reply says that there is no room.
fn is_refusal(reply: &Reply) -> bool
    ensures value { result ≡ is_refusal reply.now }
    ensures full { result ≡ true → reply.now ≡ Reply.Full }
{
    matches!(reply, Reply::Full)
}

/// Two replies are the same.
fn is_same(reply: &Reply, other: &Reply) -> bool
    ensures same { result ≡ true → reply.now ≡ other.now }
    ensures different { result ≡ false → reply.now ≢ other.now }
{
    reply == other
}
