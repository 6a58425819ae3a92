//! All threads of a run.

ghost use Rattle.std.specs.Prelude.{◌≡◌, ◌+◌, ◌<◌, ◌≤◌, ℕ, All, length, map};
ghost use Rattle.kmem_cache.specs.Seats.{buffers_at};
ghost use Rattle.run_engine.specs.Opened.{IsShared, IsReadyCrew, IsStarting, IsWaiting, pass_of};
ghost use Rattle.run_engine.specs.Quotas.{IsInPlan, first_plan, second_plan};
ghost use Rattle.run_engine.specs.Done.{IsWorkerDone, IsMoverDone, IsCrewDone};

use crate::crew::Crew;
use crate::plan::RunPlan;
use crate::shared::Shared;
use kmem_io::Gate;
use kmem_text::Line;
use run_movers::{MoverTask, Shares, run_movers};
use run_workers::{Worker, run_workers};
use std::sync::Wait;
use std::thread::{Threads, join};

// All workers, once they have carried out their commands.
fn worked<R: Threads + Wait + Sync, G: Gate>(
    rt: &R,
    gate: &G,
    lines: &[Line],
    shared: &Shared,
    mut workers: Vec<Worker>,
) -> Vec<Worker>
    requires home { buffers_at shared.now.cache ≡ shared.now.table.home.cache }
    requires some { 0 < length workers.items }
    requires starting { All (IsStarting shared.now lines.now) workers.items }
    ensures done { All (IsWorkerDone shared.now lines.now) result.items }
    ensures passes { map pass_of result.items ≡ map pass_of workers.items }
{
    let _ = lines;
    run_workers(rt, gate, &shared.table, &shared.cache, &mut workers);
    workers
}

// Both movers, once they have gone by their plans, with their scans spread over so many commands.
fn moved<R: Threads + Wait + Sync, G: Gate>(
    rt: &R,
    gate: &G,
    plan: &RunPlan,
    commands: usize,
    shared: &Shared,
    first: MoverTask,
    second: MoverTask,
) -> (MoverTask, MoverTask)
    requires few { commands ≤ 100000 }
    requires shared { (names : ℕ) × IsShared plan.now names shared.now }
    requires first { IsWaiting shared.now plan.now.workers (first_plan plan.now) first }
    requires second { IsWaiting shared.now (plan.now.workers + 1) (second_plan plan.now) second }
    ensures first { IsMoverDone shared.now plan.now.workers (first_plan plan.now) result.0 }
    ensures second { IsMoverDone shared.now (plan.now.workers + 1) (second_plan plan.now) result.1 }
{
    let shares = Shares {
        commands: commands as u32,
        scans: plan.scans,
    };
    run_movers(
        rt,
        gate,
        &shares,
        &shared.table,
        &shared.cache,
        &shared.queue,
        first,
        second,
    )
}

/// Lets all workers carry out their commands while the movers make their scans, each in a thread of its own where one can be started.
/// Else the workers come first, since movers wait for commands and no worker waits for a mover.
pub fn run_all<R: Threads + Wait + Sync, G: Gate>(
    rt: &R,
    gate: &G,
    plan: &RunPlan,
    lines: &[Line],
    shared: &Shared,
    crew: Crew,
) -> Crew
    requires plan { IsInPlan plan.now }
    requires few { length lines.now ≤ 100000 }
    requires shared { (names : ℕ) × IsShared plan.now names shared.now }
    requires ready { IsReadyCrew plan.now lines.now shared.now crew }
    ensures done { IsCrewDone plan.now lines.now shared.now result }
{
    let Crew {
        workers,
        first,
        second,
    } = crew;
    let commands = lines.len();
    // Where no thread can be started, the second comes before the first.
    let ((first, second), workers) = join(
        rt,
        move || -> (MoverTask, MoverTask)
            requires { (commands ≤ 100000) × ((names : ℕ) × IsShared plan.now names shared.now) × IsWaiting shared.now plan.now.workers (first_plan plan.now) first ×
                IsWaiting shared.now (plan.now.workers + 1) (second_plan plan.now) second }
            ensures { IsMoverDone shared.entry.now plan.entry.now.workers (first_plan plan.entry.now) result.0 ×
                IsMoverDone shared.entry.now (plan.entry.now.workers + 1) (second_plan plan.entry.now) result.1 }
        { moved(rt, gate, plan, commands, shared, first, second) },
        move || -> Vec<Worker>
            requires { (buffers_at shared.now.cache ≡ shared.now.table.home.cache) × (0 < length workers.items) ×
                All (IsStarting shared.now lines.now) workers.items }
            ensures { All (IsWorkerDone shared.entry.now lines.entry.now) result.items × (map pass_of result.items ≡ map pass_of workers.items) }
        { worked(rt, gate, lines, shared, workers) },
    );
    Crew {
        workers,
        first,
        second,
    }
}
