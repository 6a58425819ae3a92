//! Commands that ask the cache for no buffer.
ghost use Rattle.std.specs.Prelude.{◌≡◌, true};
ghost use Rattle.kmem_text.specs.declared.command.Command.TheVariants as command;
ghost use Rattle.record_table.specs.Turns.{is_plain};
ghost use Rattle.record_table.specs.Runs.{CanRun, CanCarryOut, HasCarriedOut, HasCarriedOutAlone};

use super::Session;
use super::steps::{run_del, run_plain};
use crate::table::RecordTable;
use kmem_cache::{Cache, CacheSeat};
use kmem_text::{Command, NameId, Reply};
use record_heap::RecordKind;
use std::mem::replace;
use std::sync::Wait;

impl Session {
    // A command that needs no buffer and no hold, and gives none.
    pub(crate) fn plain<R: Wait>(&mut self, rt: &R, table: &RecordTable, command: &Command) -> Reply
        requires plain { is_plain command.now ≡ true }
        requires can { CanRun table.now self.old command.now }
        ensures done { HasCarriedOutAlone command.now result self.old self.new }
    {
        let number = self.made + 1;
        let reply = run_plain(rt, table, &mut self.pass, number, command);
        self.made = number;
        reply
    }

    // A deletion. The buffer of a record that ended is freed.
    pub(crate) fn del<R: Wait>(
        &mut self,
        rt: &R,
        table: &RecordTable,
        cache: &Cache<RecordKind>,
        seat: &mut CacheSeat<RecordKind>,
        name: NameId,
    ) -> Reply
        requires can { CanCarryOut table.now cache.now self.old seat.old (command.Del name) }
        ensures done { HasCarriedOut cache.now (command.Del name) result self.old self.new seat.old seat.new }
    {
        let number = self.made + 1;
        let Some(share) = replace(&mut self.share, None) else {
            unreachable!()
        };
        let (reply, out, share) = run_del(rt, table, &mut self.pass, number, name, share);
        self.share = Some(share);
        self.made = number;
        match out {
            Some(buf) => {
                cache.free(rt, seat, buf);
                reply
            }
            None => reply,
        }
    }
}
