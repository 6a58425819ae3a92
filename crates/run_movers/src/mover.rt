//! One mover.

ghost use Rattle.std.specs.Prelude.{◌≡◌};
ghost use Rattle.kmem_cache.specs.Seats.{buffers_at};
ghost use Rattle.run_movers.specs.Movers.{IsReadyMover, HasMoved, IsPaced};

use crate::shares::Shares;
use consolidator::{MoverPlan, drive, law_notes};
use kmem_cache::{Cache, CacheSeat};
use kmem_io::Gate;
use move_queue::{MoveQueue, QueueSeat};
use object_cache::Tally;
use record_heap::RecordKind;
use record_table::{Asker, Mover, RecordTable};
use std::sync::Wait;

/// A mover with its plan, its right to ask the records, its seats of the cache and of the queue, and its tally of moves.
#[derive(Drop)]
pub struct MoverTask {
    pub plan: MoverPlan,
    pub mover: Mover,
    pub seat: CacheSeat<RecordKind>,
    pub place: QueueSeat<RecordKind>,
    pub tally: Tally,
}

impl MoverTask {
    /// Makes all its scans, each once its share of the commands is carried out, and after each carries jobs until none comes. The gate
    /// is called before each scan, with the mover's number and the scan's.
    pub fn carry_out<R: Wait, G: Gate>(
        &mut self,
        rt: &R,
        gate: &G,
        shares: &Shares,
        table: &RecordTable,
        cache: &Cache<RecordKind>,
        queue: &MoveQueue<RecordKind>,
    )
        requires homes { (buffers_at cache.now ≡ table.now.home.cache) × (queue.now.terms.home ≡ buffers_at cache.now) }
        requires ready { IsReadyMover table.now cache.now queue.now self.old }
        ensures moved { HasMoved table.now cache.now queue.now self.old self.new }
        ensures paced { IsPaced shares.now self.old }
    {
        law_notes();
        let mut asker = Asker {
            table,
            mover: &mut self.mover,
        };
        drive(
            rt,
            gate,
            shares,
            cache,
            &mut self.seat,
            queue,
            &mut self.place,
            &mut asker,
            &self.plan,
            &mut self.tally,
        );
        let Asker { table: _, mover: _ } = asker;
    }
}
