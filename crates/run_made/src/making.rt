//! A script that is made from a seed, run on threads and summed up.

ghost use Rattle.std.specs.Prelude.{◌≡◌, ◌≢◌, ◌<◌, ◌≤◌, ◌↔◌, All, false, length, IfOk, OnOk, IfErr, IsErrOf};
ghost use Rattle.std.specs.Io.KnownBytes.{Appends, Keeps};
ghost use Rattle.kmem_io.specs.Streams.{CanRise, AppendsFront};
ghost use Rattle.kmem_text.specs.Scripts.{IsScript};
ghost use Rattle.generator.specs.Made.{made};
ghost use Rattle.run_workers.specs.Workers.{is_refused};
ghost use Rattle.run_engine.specs.Ran.{IsRan};
ghost use Rattle.run_made.specs.Making.{made_plan, alone_records, summary_of, IsSummaryFront};

use generator::generate;
use kmem_io::{Failed, Gate, Sink};
use run_check::Fault;
use run_engine::{OpenRun, Ran, RunPlan};
use run_summary::write_summary;
use std::alloc::Global;
use std::sync::Wait;
use std::thread::Threads;

/// Makes the script of a seed, runs it on threads over 4,096 slabs of 16 buffers with 16 scans, and prints the summary of its history. Nothing is
/// written before all memory is taken.
pub fn made<T: Wait + Threads + Sync, W: Sink, G: Gate>(
    rt: &T,
    alloc: Global,
    seed: u64,
    workers: u32,
    commands: u32,
    out: &mut W,
    gate: &G,
) -> Result<Ran, Fault>
    requires workers { (1 ≤ workers) × (workers ≤ 16) }
    requires commands { commands ≤ 60000 }
    requires out { CanRise (W.faults out.old) }

    // What is handed out and written: the history of a run of the seed's script, in which nothing is refused, with an entry for
    // each command, and its summary.
    ensures ran { IfOk result (λ ran. IsRan (made_plan workers) (made seed workers commands) ran) }
    ensures text { IfOk result (λ ran. Appends (W.written out.old) (W.written out.new)
        (summary_of workers (made seed workers commands) ran.records.entries)) }
    ensures many { IfOk result (λ ran. length ran.records.entries ≡ commands) }
    ensures roomy { IfOk result (λ ran. All (λ e. is_refused e.1 ≡ false) ran.records.entries) }
    // With one worker there is but one such history.
    ensures alone { workers ≡ 1 → IfOk result (λ ran. ran.records.entries ≡ alone_records (made seed 1 commands)) }

    // When each fault comes, and what it leaves.
    ensures write { IsErrOf result Fault.Write ↔ (W.faults out.old < W.faults out.new) }
    ensures fault { IfErr result (λ fault. fault ≢ Fault.Write → fault ≡ Fault.NoMemory) }
    ensures front { IsErrOf result Fault.Write → IsSummaryFront workers (made seed workers commands) (W.written out.old) (W.written out.new) }
    ensures untouched { IfErr result (λ fault. fault ≢ Fault.Write → Keeps (W.written out.old) (W.written out.new)) }
{
    let run = open_made(alloc, seed, workers, commands)?;
    let over = run.carry_out(rt, gate);
    match write_summary(over.entries(), over.live(), out) {
        Ok(()) => Ok(over.into_ran()),
        Err(Failed) => Err(Fault::Write),
    }
}

// Takes all memory of a run of the seed's script.
fn open_made(alloc: Global, seed: u64, workers: u32, commands: u32) -> Result<OpenRun, Fault>
    requires workers { (1 ≤ workers) × (workers ≤ 16) }
    requires commands { commands ≤ 60000 }
    ensures plan { IfOk result (λ run. run.plan ≡ made_plan workers) }
    ensures script { IfOk result (λ run. run.script ≡ made seed workers commands) }
    ensures whole { OnOk result (IsScript workers (made seed workers commands)) }
    ensures fault { IfErr result (λ fault. fault ≡ Fault.NoMemory) }
{
    let plan = RunPlan {
        slabs: 4096,
        chunks: 16,
        workers,
        scans: 16,
        desperate: false,
    };
    let Ok(script) = generate(alloc, seed, workers, commands) else {
        return Err(Fault::NoMemory);
    };
    match OpenRun::create(alloc, plan, script) {
        Ok(run) => Ok(run),
        Err(_) => Err(Fault::NoMemory),
    }
}
