//! One worker.

ghost use Rattle.std.specs.Prelude.{◌≡◌};
ghost use Rattle.kmem_cache.specs.Seats.{buffers_at};
ghost use Rattle.run_workers.specs.Workers.{IsReady, HasWorked};

use kmem_cache::{Cache, CacheSeat};
use kmem_io::Gate;
use kmem_text::Command;
use record_heap::RecordKind;
use record_table::{RecordTable, Session};
use std::sync::Wait;

/// A worker with its commands, its session and its seat of the cache. Workers are counted from 1.
#[derive(Drop)]
pub struct Worker {
    pub number: u32,
    pub commands: Vec<Command>,
    pub session: Session,
    pub seat: CacheSeat<RecordKind>,
}

impl Worker {
    /// Carries out all its commands, in their order. The gate is called before each of them, with the worker's number and the command's.
    pub fn work<R: Wait, G: Gate>(
        &mut self,
        rt: &R,
        gate: &G,
        table: &RecordTable,
        cache: &Cache<RecordKind>,
    )
        requires home { buffers_at cache.now ≡ table.now.home.cache }
        requires ready { IsReady table.now cache.now self.old }
        ensures worked { HasWorked cache.now self.old self.new }
    {
        for index in 0..self.commands.len() {
            gate.before(self.number, index as u32 + 1);
            let command = self.commands[index];
            self.session.run(rt, table, cache, &mut self.seat, &command);
        }
    }
}
