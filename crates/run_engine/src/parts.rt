//! What the workers and movers of a run are made of, once it is over.

ghost use Rattle.std.specs.Prelude.{◌≤◌, IfOk};
ghost use Rattle.run_engine.specs.Opened.{IsRoomy};

use crate::plan::RunPlan;
use kmem_cache::CacheSeat;
use move_queue::{QueueLog, QueueSeat};
use record_heap::RecordKind;
use record_table::{Mover, Session};
use std::alloc::{AllocError, Global};

/// Sessions, movers, their seats, and what the queue's seats came to. The room for them is taken before the run.
#[derive(Drop)]
pub struct Parts {
    pub sessions: Vec<Session>,
    pub movers: Vec<Mover>,
    pub seats: Vec<CacheSeat<RecordKind>>,
    pub places: Vec<QueueSeat<RecordKind>>,
    pub moves: Vec<QueueLog>,
}

impl Parts {
    /// Room for those of a run of this plan.
    pub fn create(alloc: Global, plan: &RunPlan) -> Result<Parts, AllocError>
        requires { plan.now.workers ≤ 16 }
        ensures { IfOk result (λ parts. IsRoomy plan.now parts) }
    {
        let workers = plan.workers as usize;
        Ok(Parts {
            sessions: Vec::with_capacity(alloc, workers)?,
            movers: Vec::with_capacity(alloc, 2)?,
            seats: Vec::with_capacity(alloc, workers + 2)?,
            places: Vec::with_capacity(alloc, 2)?,
            moves: Vec::with_capacity(alloc, 2)?,
        })
    }
}
