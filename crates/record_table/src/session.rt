//! A session: a worker's commands on a table.
ghost use Rattle.std.specs.Prelude.{◌≡◌};
ghost use Rattle.kmem_cache.specs.Seats.{CacheSeatState};
ghost use Rattle.record_table.specs.Runs.{CanCarryOut, HasCarriedOut};

mod adding;
mod holding;
mod putting;
mod steps;

use crate::records::Records;
use crate::shares::Share;
use crate::table::RecordTable;
use hist_lock::Pass;
use kmem_cache::{Cache, CacheSeat};
use kmem_text::{Command, Reply};
use record_heap::{Hold, RecordKind};
use std::marker::Model;
use std::sync::Wait;

/// The right to carry out a worker's commands on a table, for one thread, with the worker's holds. Where one was dropped, the table can't be
/// closed.
#[derive(Drop)]
pub struct Session {
    pub(crate) pass: Pass<Records>,
    pub(crate) made: u32,
    pub(crate) holds: Vec<Option<Hold>>,
    // It is there between any two calls.
    pub(crate) share: Option<Share>,
}

impl Model for Session {
    ghost use Rattle.std.specs.Prelude.{is_some};
    ghost use Rattle.record_table.specs.Sessions.{SessionState, IsSession, session_of};

    ghost Value = { SessionState };

    ghost view = { λ s. session_of s.pass s.made s.holds.items s.share };

    ghost invariant = { λ s. IsSession (session_of s.pass s.made s.holds.items s.share) (is_some s.share) };
}

impl Session {
    /// How many commands it may still carry out.
    pub fn left(&self) -> u32
        ensures { result ≡ self.now.pass.left }
    {
        self.pass.left()
    }

    /// How many commands it has carried out.
    pub fn made(&self) -> u32
        ensures { result ≡ self.now.made }
    {
        self.made
    }

    /// Carries out one command, in one turn that makes its entry. A put whose seat has no buffer at hand makes a turn before it where the name is
    /// absent, and then asks the cache. It may wait for other turns, of the table and of the cache.
    pub fn run<R: Wait>(
        &mut self,
        rt: &R,
        table: &RecordTable,
        cache: &Cache<RecordKind>,
        seat: &mut CacheSeat<RecordKind>,
        command: &Command,
    ) -> Reply
        requires can { CanCarryOut table.now cache.now self.old seat.old command.now }
        ensures done { HasCarriedOut cache.now command.now result self.old self.new seat.old seat.new }
    {
        match command {
            Command::Put(name, value) => self.put(rt, table, cache, seat, *name, *value),
            Command::Del(name) => self.del(rt, table, cache, seat, *name),
            Command::Hold(tag, name) => self.hold(rt, table, *tag, *name),
            Command::Read(tag) => self.read(rt, table, *tag),
            Command::Write(tag, value) => self.write(rt, table, *tag, *value),
            Command::Drop(tag) => self.let_go(rt, table, *tag),
            _ => self.plain(rt, table, command),
        }
    }
}
