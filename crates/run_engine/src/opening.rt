//! How a run is opened.

ghost use Rattle.std.specs.Prelude.{◌≡◌, ◌+◌, ◌*◌, ◌≤◌, ◌<◌, ◌++◌, ◌∷◌, ℕ, [], All, length, map, sum, IfOk};
ghost use Rattle.std.specs.List.{range_with_len};
ghost use Rattle.kmem_text.specs.Scripts.{plain, IsScript};
ghost use Rattle.kmem_text.specs.Grammar.{IsWithinNames};
ghost use Rattle.kmem_text.specs.declared.command.Line.{Line};
ghost use Rattle.kmem_model.specs.History.{commands_of};
ghost use Rattle.consolidator.specs.Tallies.{tally_of};
ghost use Rattle.run_engine.specs.Quotas.{IsInPlan, command_counts};
ghost use Rattle.run_engine.specs.Opened.{IsShared, IsStarting, pass_of, IsReadyCrew};
ghost use Rattle.run_engine.specs.Openings.{AreDealt, HasDealt};

use crate::crew::Crew;
use crate::open_run::OpenRun;
use crate::parts::Parts;
use crate::plan::{RunPlan, first_plan, second_plan};
use crate::quotas::{cache_quotas, command_counts};
use crate::shared::Shared;
use consolidator::{MoverPlan, no_moves};
use kmem_cache::{Cache, CacheSeat};
use kmem_text::{Command, Line, Script};
use move_queue::{MoveQueue, QueueSeat};
use object_cache::ObjectCache;
use record_heap::RecordKind;
use record_table::{Mover, RecordTable, Session};
use run_movers::MoverTask;
use run_print::Page;
use run_workers::Worker;
use slab_source::Supply;
use std::alloc::{AllocError, Global};

/// The most moves that may be pending at once, and the room of the queue of moves.
const LIMIT: u32 = 64;

// The commands of a worker, in their order.
fn commands_of(alloc: Global, lines: &[Line], worker: u32) -> Result<Vec<Command>, AllocError>
    ensures { IfOk result (λ commands. commands.items ≡ commands_of worker lines.now) }
{
    lines
        .iter()
        .filter(|line| line.worker == worker)
        .map(|line| line.command)
        .collect(alloc)
}

// A worker with its commands.
fn worker_of(
    alloc: Global,
    lines: &[Line],
    number: u32,
    session: Session,
    seat: CacheSeat<RecordKind>,
) -> Result<Worker, AllocError>
    ensures { IfOk result (λ w. (w.number ≡ number) × (w.commands.items ≡ commands_of number lines.now) × (w.session ≡ session) × (w.seat ≡ seat)) }
{
    let commands = commands_of(alloc, lines, number)?;
    Ok(Worker {
        number,
        commands,
        session,
        seat,
    })
}

// A worker for each number of commands, the last one first, and then in order.
fn all_workers(
    alloc: Global,
    shared: &Shared,
    lines: &[Line],
    mut counts: Vec<u32>,
    mut sessions: Vec<Session>,
    mut seats: Vec<CacheSeat<RecordKind>>,
) -> Result<Vec<Worker>, AllocError>
    requires names { All (λ (line : Line). IsWithinNames shared.now.table.home.names line.command) lines.now }
    requires few { length lines.now ≤ 100000 }
    requires many { length counts.items ≤ 16 }
    requires counts { counts.items ≡ command_counts (length counts.items) lines.now }
    requires dealt { AreDealt shared.now counts.items sessions.items seats.items }
    ensures workers { IfOk result (λ workers. All (IsStarting shared.now lines.now) workers.items) }
    ensures passes { IfOk result (λ workers. map pass_of workers.items ≡ range_with_len 0 (length counts.items)) }
{
    let _ = shared;
    let mut workers = Vec::with_capacity(alloc, counts.len())?;
    while let Some(count) = counts.pop() {
        let _ = count;
        let Some(session) = sessions.pop() else {
            unreachable!()
        };
        let Some(seat) = seats.pop() else {
            unreachable!()
        };
        let number = counts.len() as u32 + 1;
        workers.push_reserved(worker_of(alloc, lines, number, session, seat)?);
    }
    workers.reverse();
    Ok(workers)
}

// A mover with the last of these.
fn last_mover(
    plan: MoverPlan,
    movers: &mut Vec<Mover>,
    seats: &mut Vec<CacheSeat<RecordKind>>,
    places: &mut Vec<QueueSeat<RecordKind>>,
) -> MoverTask
    requires some { (0 < length movers.old.items) × (0 < length seats.old.items) × (0 < length places.old.items) }
    ensures plan { (result.plan ≡ plan) × (result.tally ≡ tally_of []) }
    ensures movers { movers.old.items ≡ movers.new.items ++ result.mover ∷ [] }
    ensures seats { seats.old.items ≡ seats.new.items ++ result.seat ∷ [] }
    ensures places { places.old.items ≡ places.new.items ++ result.place ∷ [] }
{
    let (Some(mover), Some(seat), Some(place)) = (movers.pop(), seats.pop(), places.pop()) else {
        unreachable!()
    };
    MoverTask {
        plan,
        mover,
        seat,
        place,
        tally: no_moves(),
    }
}

// What a run shares, and what it deals to its workers and movers.
struct Dealt {
    shared: Shared,
    sessions: Vec<Session>,
    movers: Vec<Mover>,
    seats: Vec<CacheSeat<RecordKind>>,
    places: Vec<QueueSeat<RecordKind>>,
}

// Opens the cache, the table and the queue.
fn open_shared(
    alloc: Global,
    plan: &RunPlan,
    names: u32,
    counts: &[u32],
) -> Result<Dealt, AllocError>
    requires plan { IsInPlan plan.now }
    requires names { names ≤ 262144 }
    requires few { All (λ n. n ≤ 100000) counts.now }
    requires all { sum counts.now ≤ 1600000 }
    requires many { length counts.now ≡ plan.now.workers }
    ensures shared { IfOk result (λ dealt. IsShared plan.now names dealt.shared) }
    ensures dealt { IfOk result (λ dealt. HasDealt plan.now counts.now dealt) }
{
    let supply = Supply::create(alloc, plan.slabs)?;
    let objects = ObjectCache::create(alloc, RecordKind, supply, plan.slabs, plan.chunks, LIMIT)?;
    let buffers = plan.slabs * plan.chunks;
    let (table, sessions, movers) = RecordTable::create(
        alloc,
        objects.home(),
        names,
        buffers,
        counts,
        2,
    )?;
    let pushes = [64 * first_plan(plan).scans, 64 * second_plan(plan).scans];
    let (queue, places) = MoveQueue::create(alloc, objects.home(), LIMIT, &pushes)?;
    let quotas = cache_quotas(alloc, plan, counts)?;
    let (cache, seats) = Cache::create(alloc, objects, 2 * plan.workers, &quotas)?;
    Ok(Dealt {
        shared: Shared {
            cache,
            table,
            queue,
        },
        sessions,
        movers,
        seats,
        places,
    })
}

// Gives each worker and mover what is its.
fn crew_of(
    alloc: Global,
    plan: &RunPlan,
    lines: &[Line],
    counts: Vec<u32>,
    dealt: Dealt,
) -> Result<(Shared, Crew), AllocError>
    requires plan { IsInPlan plan.now }
    requires names { All (λ (line : Line). IsWithinNames dealt.shared.table.home.names line.command) lines.now }
    requires few { length lines.now ≤ 100000 }
    requires many { length counts.items ≡ plan.now.workers }
    requires counts { counts.items ≡ command_counts plan.now.workers lines.now }
    requires shared { (names : ℕ) × IsShared plan.now names dealt.shared }
    requires dealt { HasDealt plan.now counts.items dealt }
    ensures shared { IfOk result (λ r. r.0 ≡ dealt.shared) }
    ensures crew { IfOk result (λ r. IsReadyCrew plan.now lines.now r.0 r.1) }
{
    let Dealt {
        shared,
        sessions,
        mut movers,
        mut seats,
        mut places,
    } = dealt;
    let second = last_mover(second_plan(plan), &mut movers, &mut seats, &mut places);
    let first = last_mover(first_plan(plan), &mut movers, &mut seats, &mut places);
    let workers = all_workers(alloc, &shared, lines, counts, sessions, seats)?;
    let crew = Crew {
        workers,
        first,
        second,
    };
    Ok((shared, crew))
}

// Opens everything that the threads need.
fn open_all(alloc: Global, plan: &RunPlan, script: &Script) -> Result<(Shared, Crew), AllocError>
    requires plan { IsInPlan plan.now }
    requires script { IsScript plan.now.workers (plain script.now) }
    ensures shared { IfOk result (λ r. IsShared plan.now (length script.now.names.items) r.0) }
    ensures crew { IfOk result (λ r. IsReadyCrew plan.now script.now.lines.items r.0 r.1) }
{
    let counts = command_counts(alloc, &script.lines, plan.workers)?;
    let dealt = open_shared(alloc, plan, script.names.len() as u32, &counts)?;
    crew_of(alloc, plan, &script.lines, counts, dealt)
}

impl OpenRun {
    /// Opens a run of this plan over this script: all memory that it will need is taken here, and none is taken once it goes.
    pub fn create(alloc: Global, plan: RunPlan, script: Script) -> Result<OpenRun, AllocError>
        requires plan { IsInPlan plan }
        requires script { IsScript plan.workers (plain script) }
        ensures plan { IfOk result (λ run. run.plan ≡ plan) }
        ensures script { IfOk result (λ run. run.script ≡ plain script) }
    {
        let parts = Parts::create(alloc, &plan)?;
        let page = Page::create(alloc)?;
        let (shared, crew) = open_all(alloc, &plan, &script)?;
        Ok(OpenRun {
            plan,
            script,
            shared,
            crew,
            parts,
            page,
        })
    }
}
