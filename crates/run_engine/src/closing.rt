//! How a run is closed.

ghost use Rattle.std.specs.Prelude.{◌≡◌, ◌+◌, ◌<◌, ◌≤◌, ◌++◌, ◌∷◌, [], length, map, reverse, vec_capacity};
ghost use Rattle.kmem_text.specs.Scripts.{plain, IsScript};
ghost use Rattle.run_engine.specs.Quotas.{IsInPlan};
ghost use Rattle.run_engine.specs.Opened.{IsShared, IsRoomy};
ghost use Rattle.run_engine.specs.Done.{IsCrewDone};
ghost use Rattle.run_engine.specs.Closed.{log_of, ArePartsOf, IsClosed};
ghost use Rattle.consolidator.specs.Tallies.{tally_sum};

use crate::crew::Crew;
use crate::parts::Parts;
use crate::plan::RunPlan;
use crate::ran::Ran;
use crate::shared::Shared;
use consolidator::{add, law_notes};
use kmem_model::{law_counts, law_follows, law_one_step, law_step, law_whole};
use kmem_text::Script;
use object_cache::{ObjectCache, Tally};
use record_heap::{RecordHeap, RecordKind};
use run_movers::{MoverTask, law_movers};
use run_workers::{Worker, law_shared};
use std::sync::Wait;

/// A run that is over: what it hands out, its heap and its cache, which isn't settled yet, and what its moves came to.
#[derive(Drop)]
pub struct Closed {
    pub ran: Ran,
    pub heap: RecordHeap,
    pub slabs: ObjectCache<RecordKind>,
    pub tally: Tally,
}

// Takes a mover apart, and answers what its moves came to.
fn part_mover(task: MoverTask, parts: &mut Parts) -> Tally
    requires movers { length parts.old.movers.items < vec_capacity parts.old.movers }
    requires seats { length parts.old.seats.items < vec_capacity parts.old.seats }
    requires places { length parts.old.places.items < vec_capacity parts.old.places }
    requires moves { length parts.old.moves.items < vec_capacity parts.old.moves }
    ensures movers { parts.new.movers.items ≡ parts.old.movers.items ++ task.mover ∷ [] }
    ensures seats { parts.new.seats.items ≡ parts.old.seats.items ++ task.seat ∷ [] }
    ensures places { parts.new.places.items ≡ parts.old.places.items ++ task.place ∷ [] }
    ensures moves { parts.new.moves.items ≡ parts.old.moves.items ++ log_of task.place ∷ [] }
    ensures sessions { parts.new.sessions ≡ parts.old.sessions }
    ensures room { (vec_capacity parts.new.movers ≡ vec_capacity parts.old.movers) × (vec_capacity parts.new.seats ≡ vec_capacity parts.old.seats) ×
        (vec_capacity parts.new.places ≡ vec_capacity parts.old.places) × (vec_capacity parts.new.moves ≡ vec_capacity parts.old.moves) }
    ensures tally { result ≡ task.tally }
{
    let MoverTask {
        plan: _,
        mover,
        seat,
        place,
        tally,
    } = task;
    parts.moves.push_reserved(place.log());
    parts.movers.push_reserved(mover);
    parts.seats.push_reserved(seat);
    parts.places.push_reserved(place);
    tally
}

// Takes all workers apart, the last one first.
fn part_workers(mut workers: Vec<Worker>, parts: &mut Parts)
    requires sessions { length parts.old.sessions.items + length workers.items ≤ vec_capacity parts.old.sessions }
    requires seats { length parts.old.seats.items + length workers.items ≤ vec_capacity parts.old.seats }
    ensures sessions { parts.new.sessions.items ≡ parts.old.sessions.items ++ map (λ w. w.session) (reverse workers.items) }
    ensures seats { parts.new.seats.items ≡ parts.old.seats.items ++ map (λ w. w.seat) (reverse workers.items) }
    ensures rest { (parts.new.movers ≡ parts.old.movers) × (parts.new.places ≡ parts.old.places) × (parts.new.moves ≡ parts.old.moves) }
{
    while let Some(worker) = workers.pop() {
        let Worker {
            number: _,
            commands: _,
            session,
            seat,
        } = worker;
        parts.sessions.push_reserved(session);
        parts.seats.push_reserved(seat);
    }
}

// Takes all of a crew apart, and answers what the moves of both movers came to.
fn part_crew(plan: &RunPlan, crew: Crew, parts: &mut Parts) -> Tally
    requires roomy { IsRoomy plan.now parts.old }
    requires workers { length crew.workers.items ≡ plan.now.workers }
    ensures parts { ArePartsOf crew parts.new }
    ensures tally { result ≡ tally_sum crew.first.tally crew.second.tally }
{
    let _ = plan;
    let Crew {
        workers,
        first,
        second,
    } = crew;
    let mut tally = part_mover(first, parts);
    let more = part_mover(second, parts);
    add(&mut tally, &more);
    part_workers(workers, parts);
    tally
}

/// Closes the records, the queue of moves and the cache, whose magazines it flushes. Takes no memory.
pub fn close_all<R: Wait>(
    rt: &R,
    plan: &RunPlan,
    script: &Script,
    shared: Shared,
    crew: Crew,
    mut parts: Parts,
) -> Closed
    requires plan { IsInPlan plan.now }
    requires script { IsScript plan.now.workers (plain script.now) }
    requires shared { IsShared plan.now (length script.now.names.items) shared }
    requires done { IsCrewDone plan.now script.now.lines.items shared crew }
    requires roomy { IsRoomy plan.now parts }
    ensures { IsClosed plan.now (plain script.now) result }
{
    law_counts();
    law_follows();
    law_whole();
    law_step();
    law_one_step();
    law_notes();
    law_movers();
    law_shared();
    let _ = script;
    let Shared {
        cache,
        table,
        queue,
    } = shared;
    let tally = part_crew(plan, crew, &mut parts);
    let Parts {
        sessions,
        movers,
        seats,
        places,
        moves,
    } = parts;
    let (heap, records) = table.close(sessions, movers);
    let _ = queue.close(rt, places);
    let (slabs, cache) = cache.close(seats);
    let ran = Ran {
        records,
        cache,
        moves,
    };
    Closed {
        ran,
        heap,
        slabs,
        tally,
    }
}
