//! How the scans of a run are spread over its commands.

ghost use Rattle.std.specs.Prelude.{◌≡◌};
ghost use Rattle.run_movers.specs.Movers.{share_of};

use consolidator::Pace;
use record_heap::RecordKind;
use record_table::Asker;
use std::sync::Wait;

/// The commands of a run, and the scans of both its movers. Scan k of SCANS begins once k * COMMANDS / (SCANS + 1) commands, rounded
/// down, are carried out: so the last one begins while commands are left, or just after them.
#[derive(Clone, Copy, Debug, PartialEq, Eq)]
pub struct Shares {
    pub commands: u32,
    pub scans: u32,
}

impl Shares {
    // How many commands are carried out before this scan begins.
    fn share(&self, scan: u32) -> u32
        ensures { result ≡ share_of self.now scan }
    {
        let commands = u64::from(self.commands);
        let share = u64::from(scan) * commands / (u64::from(self.scans) + 1);
        share.min(commands) as u32
    }
}

impl<'a> Pace<RecordKind, Asker<'a>> for Shares {
    ghost use Rattle.std.specs.Prelude.{length};
    ghost use Rattle.run_movers.specs.Movers.{share_of};

    ghost share = { share_of };

    ghost seen = { λ a. length a.mover.now.pass.seen };

    fn await_share<R: Wait>(&self, rt: &R, client: &mut Asker<'a>, scan: u32) {
        client.table.await_count(rt, client.mover, self.share(scan));
    }
}
