//! Commands on tags.
ghost use Rattle.std.specs.Prelude.{◌≡◌, ◌<◌, None, slice_index_or, slice_set, vec_len};
ghost use Rattle.kmem_text.specs.declared.command.Command.TheVariants as command;
ghost use Rattle.record_table.specs.Sessions.{kept_at};
ghost use Rattle.record_table.specs.Runs.{CanRun, HasCarriedOutAlone};

use super::Session;
use super::steps::{run_drop, run_hold, run_idle, run_read, run_write};
use crate::table::RecordTable;
use kmem_text::{Command, NameId, Reply, Tag, Value};
use record_heap::Hold;
use std::mem::replace;
use std::sync::Wait;

// The tag's hold, which is the tag's no more.
fn take(holds: &mut Vec<Option<Hold>>, tag: Tag) -> Option<Hold>
    requires { tag < vec_len holds.old }
    ensures taken { result ≡ slice_index_or holds.old.items tag None }
    ensures left { holds.new.items ≡ slice_set holds.old.items tag None }
{
    let place = &mut holds[usize::from(tag.number())];
    replace(place, None)
}

// The hold, if there is one, is the tag's.
fn keep(holds: &mut Vec<Option<Hold>>, tag: Tag, hold: Option<Hold>)
    requires { tag < vec_len holds.old }
    ensures { holds.new.items ≡ kept_at holds.old.items tag hold }
{
    match hold {
        Some(hold) => holds[usize::from(tag.number())] = Some(hold),
        None => {}
    }
}

impl Session {
    pub(crate) fn hold<R: Wait>(
        &mut self,
        rt: &R,
        table: &RecordTable,
        tag: Tag,
        name: NameId,
    ) -> Reply
        requires can { CanRun table.now self.old (command.Hold tag name) }
        ensures done { HasCarriedOutAlone (command.Hold tag name) result self.old self.new }
    {
        let number = self.made + 1;
        let (reply, hold) = run_hold(rt, table, &mut self.pass, number, tag, name);
        keep(&mut self.holds, tag, hold);
        self.made = number;
        reply
    }

    pub(crate) fn read<R: Wait>(&mut self, rt: &R, table: &RecordTable, tag: Tag) -> Reply
        requires can { CanRun table.now self.old (command.Read tag) }
        ensures done { HasCarriedOutAlone (command.Read tag) result self.old self.new }
    {
        let number = self.made + 1;
        match take(&mut self.holds, tag) {
            Some(hold) => {
                let (reply, hold) = run_read(rt, table, &mut self.pass, number, hold);
                keep(&mut self.holds, tag, Some(hold));
                self.made = number;
                reply
            }
            None => {
                let reply = run_idle(rt, table, &mut self.pass, number, &Command::Read(tag));
                self.made = number;
                reply
            }
        }
    }

    pub(crate) fn write<R: Wait>(
        &mut self,
        rt: &R,
        table: &RecordTable,
        tag: Tag,
        value: Value,
    ) -> Reply
        requires can { CanRun table.now self.old (command.Write tag value) }
        ensures done { HasCarriedOutAlone (command.Write tag value) result self.old self.new }
    {
        let number = self.made + 1;
        match take(&mut self.holds, tag) {
            Some(hold) => {
                let (reply, hold) = run_write(rt, table, &mut self.pass, number, hold, value);
                keep(&mut self.holds, tag, Some(hold));
                self.made = number;
                reply
            }
            None => {
                let command = Command::Write(tag, value);
                let reply = run_idle(rt, table, &mut self.pass, number, &command);
                self.made = number;
                reply
            }
        }
    }

    pub(crate) fn let_go<R: Wait>(&mut self, rt: &R, table: &RecordTable, tag: Tag) -> Reply
        requires can { CanRun table.now self.old (command.Drop tag) }
        ensures done { HasCarriedOutAlone (command.Drop tag) result self.old self.new }
    {
        let number = self.made + 1;
        match take(&mut self.holds, tag) {
            Some(hold) => {
                let reply = run_drop(rt, table, &mut self.pass, number, hold);
                self.made = number;
                reply
            }
            None => {
                let reply = run_idle(rt, table, &mut self.pass, number, &Command::Drop(tag));
                self.made = number;
                reply
            }
        }
    }
}
