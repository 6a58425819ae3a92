//! `run`: a script is read to its end, run on threads and printed.

ghost use Rattle.std.specs.Prelude.{◌≡◌, ◌≢◌, ◌<◌, ◌≤◌, ◌↔◌, ℕ, length, IfOk, OnOk, IfErr, IfSome, IsErrOf};
ghost use Rattle.std.specs.Io.KnownBytes.{Keeps, IsAtEnd};
ghost use Rattle.kmem_io.specs.Streams.{CanRise};
ghost use Rattle.kmem_text.specs.Grammar.{script_of};
ghost use Rattle.run_check.specs.Verdicts.{IsCounted};
ghost use Rattle.run_engine.specs.Quotas.{IsInPlan};
ghost use Rattle.run_engine.specs.Ran.{IsRan, IsPrinted, IsPrintedFront};
ghost use Rattle.run_serve.specs.Served.{HasGoodScript, IsInputFault, IsInputOrFree, IsDueAt, IsServed};

use kmem_io::{Failed, Gate, Sink, Source};
use run_check::{Fault, read_input, script_in};
use run_engine::{OpenRun, Ran, RunPlan};
use std::alloc::Global;
use std::sync::Wait;
use std::thread::Threads;

/// Reads a script to its end, runs it on threads and prints the replies by worker, the history and the report. Nothing is written before all
/// memory is taken.
pub fn serve<T: Wait + Threads + Sync, R: Source, W: Sink, G: Gate>(
    rt: &T,
    alloc: Global,
    plan: RunPlan,
    input: &mut R,
    out: &mut W,
    gate: &G,
) -> Result<Ran, Fault>
    requires plan { IsInPlan plan }
    requires input { CanRise (R.faults input.old) }
    requires out { CanRise (W.faults out.old) }

    // What is handed out and written for the bytes that were left, all of which are read: the history of a run of their script, and its text.
    ensures ran { IfOk result (λ ran. IfSome (R.left input.old) (λ bytes. HasGoodScript plan.workers bytes ×
        IsRan plan (script_of plan.workers bytes) ran)) }
    ensures text { IfOk result (λ ran. IfSome (R.left input.old) (λ bytes.
        IsPrinted plan (script_of plan.workers bytes) ran (W.written out.old) (W.written out.new))) }
    ensures end { OnOk result (IsAtEnd (R.left input.new)) }

    // When each fault comes.
    ensures read { IsErrOf result Fault.Read ↔ (R.faults input.old < R.faults input.new) }
    ensures write { IsErrOf result Fault.Write ↔ (W.faults out.old < W.faults out.new) }
    ensures fault { IfErr result (λ fault. fault ≢ Fault.Read → fault ≢ Fault.Write →
        IfSome (R.left input.old) (λ bytes. IsInputOrFree plan.workers bytes fault)) }
    ensures counted { IfErr result IsCounted }
    ensures none_illegal { IfErr result (λ fault. (line : ℕ) → fault ≢ Fault.Illegal line) }
    ensures due { IfSome (R.left input.old) (λ bytes. (due : Fault) → IsInputFault plan.workers bytes due → IsDueAt result due) }
    ensures fine { IfSome (R.left input.old) (λ bytes. HasGoodScript plan.workers bytes → IsServed result) }

    // What a fault leaves.
    ensures front { IsErrOf result Fault.Write → IfSome (R.left input.old) (λ bytes. HasGoodScript plan.workers bytes ×
        IsPrintedFront plan (script_of plan.workers bytes) (W.written out.old) (W.written out.new)) }
    ensures untouched { IfErr result (λ fault. fault ≢ Fault.Write → Keeps (W.written out.old) (W.written out.new)) }
{
    let bytes = read_input(alloc, input)?;
    let run = open_run(alloc, plan, &bytes)?;
    match run.go(rt, out, gate) {
        Ok(ran) => Ok(ran),
        Err(Failed) => Err(Fault::Write),
    }
}

// Takes all memory of a run of the script that these bytes spell.
fn open_run(alloc: Global, plan: RunPlan, bytes: &[u8]) -> Result<OpenRun, Fault>
    requires plan { IsInPlan plan }
    requires size { length bytes.now ≤ 16777216 }
    ensures plan { IfOk result (λ run. run.plan ≡ plan) }
    ensures script { IfOk result (λ run. run.script ≡ script_of plan.workers bytes.now) }
    ensures good { OnOk result (HasGoodScript plan.workers bytes.now) }
    ensures fault { IfErr result (λ fault. IsInputOrFree plan.workers bytes.now fault) }
    ensures counted { IfErr result IsCounted }
    ensures none_illegal { IfErr result (λ fault. (line : ℕ) → fault ≢ Fault.Illegal line) }
{
    let script = script_in(alloc, plan.workers, bytes)?;
    match OpenRun::create(alloc, plan, script) {
        Ok(run) => Ok(run),
        Err(_) => Err(Fault::NoMemory),
    }
}
