//! The top call: words and an input to an output, a line on standard error, and a status.

ghost use Rattle.std.specs.Prelude.{◌≡◌, ◌<◌, ◌≤◌, ◌*◌, map, Some, None, IfSome};
ghost use Rattle.kmem_io.specs.Streams.{CanRise};
ghost use Rattle.kmem_model.specs.Words.{IsInRange};
ghost use Rattle.command_line.specs.Programs.{program_of, IsInRangeOf};
ghost use Rattle.run_engine.specs.Quotas.{IsInPlan};
ghost use Rattle.kmemrun.specs.Endings.{ending_status};
ghost use Rattle.kmemrun.specs.Runs.{stream, Ends, HandsOut, Tells, IsRun, IsRunOrWanting};

use crate::status::{Ended, Ending, Status};
use command_line::{Program, program_of};
use kmem_io::{Gate, Sink, Source};
use kmem_model::Plan;
use run_check::check;
use run_engine::{Ran, RunPlan};
use run_made::made;
use run_one::serve_one;
use run_serve::serve;
use std::alloc::Global;
use std::sync::Wait;
use std::thread::Threads;

/// Carries out the words, which leave the program's name out. For `run` the gate is called before each command of a worker and before each scan
/// of a mover.
pub fn top<T: Wait + Threads + Sync, R: Source, W: Sink, E: Sink, G: Gate>(
    rt: &T,
    alloc: Global,
    words: &[&str],
    input: &mut R,
    out: &mut W,
    err: &mut E,
    gate: &G,
) -> Ended
    requires input { CanRise (R.faults input.old) }
    requires out { CanRise (W.faults out.old) }
    requires err { CanRise (E.faults err.old) }

    // What is read, written, told and handed out, and when each status comes; or memory for the words was wanting first.
    ensures { IsRunOrWanting (program_of (map (λ word. word.now) words.now))
        (stream R.left R.faults input.old input.new) (stream W.written W.faults out.old out.new)
        (stream E.written E.faults err.old err.new) result.status result.ran }
{
    match program_of(alloc, words) {
        Ok(program) => run_program(rt, alloc, program, input, out, err, gate),
        Err(error) => Ended {
            status: answer(Ending::from(error), err),
            ran: None,
        },
    }
}

/// Tells an ending, and answers its status.
pub fn answer<E: Sink>(ending: Ending, err: &mut E) -> Status
    requires { CanRise (E.faults err.old) }
    ensures status { result ≡ ending_status ending }
    ensures told { Tells (stream E.written E.faults err.old err.new) ending }
{
    ending.tell(err);
    ending.status()
}

/// Carries out what the words ask for, if they ask for something, and tells how that ended.
fn run_program<T: Wait + Threads + Sync, R: Source, W: Sink, E: Sink, G: Gate>(
    rt: &T,
    alloc: Global,
    program: Option<Program>,
    input: &mut R,
    out: &mut W,
    err: &mut E,
    gate: &G,
) -> Ended
    requires input { CanRise (R.faults input.old) }
    requires out { CanRise (W.faults out.old) }
    requires err { CanRise (E.faults err.old) }
    requires ranges { IfSome program IsInRangeOf }
    ensures { IsRun program (stream R.left R.faults input.old input.new) (stream W.written W.faults out.old out.new)
        (stream E.written E.faults err.old err.new) result.status result.ran }
{
    let Outcome { ending, ran } = carry_out(rt, alloc, program, input, out, gate);
    Ended {
        status: answer(ending, err),
        ran,
    }
}

/// How a program ended, and the histories of a run on threads that ended well.
#[derive(Drop)]
struct Outcome {
    ending: Ending,
    ran: Option<Ran>,
}

/// Carries out what the words ask for, if they ask for something.
fn carry_out<T: Wait + Threads + Sync, R: Source, W: Sink, G: Gate>(
    rt: &T,
    alloc: Global,
    program: Option<Program>,
    input: &mut R,
    out: &mut W,
    gate: &G,
) -> Outcome
    requires input { CanRise (R.faults input.old) }
    requires out { CanRise (W.faults out.old) }
    requires ranges { IfSome program IsInRangeOf }
    ensures ends { Ends program (stream R.left R.faults input.old input.new) (stream W.written W.faults out.old out.new) result.ending }
    ensures hands { HandsOut program (stream R.left R.faults input.old input.new) (stream W.written W.faults out.old out.new) result.ending result.ran }
{
    match program {
        None => Outcome {
            ending: Ending::Usage,
            ran: None,
        },
        Some(Program::Plain(plan)) => Outcome {
            ending: carry_out_plain(alloc, plan, input, out),
            ran: None,
        },
        Some(
            Program::Run {
                slabs,
                chunks,
                workers,
                scans,
                desperate,
            },
        ) => {
            let plan = RunPlan {
                slabs,
                chunks,
                workers,
                scans,
                desperate,
            };
            carry_out_run(rt, alloc, plan, input, out, gate)
        }
        Some(
            Program::Gen {
                seed,
                workers,
                commands,
            },
        ) => carry_out_made(rt, alloc, seed, workers, commands, input, out, gate),
    }
}

/// Carries out a plan that runs no threads.
fn carry_out_plain<R: Source, W: Sink>(
    alloc: Global,
    plan: Plan,
    input: &mut R,
    out: &mut W,
) -> Ending
    requires input { CanRise (R.faults input.old) }
    requires out { CanRise (W.faults out.old) }
    requires ranges { IsInRange plan }
    ensures { Ends (Some (Program.Plain plan)) (stream R.left R.faults input.old input.new) (stream W.written W.faults out.old out.new) result }
{
    match plan {
        Plan::One(slabs, chunks, every) => carry_out_one(alloc, slabs, chunks, every, input, out),
        Plan::Check(workers) => carry_out_check(alloc, workers, input, out),
    }
}

/// Runs a script on threads.
fn carry_out_run<T: Wait + Threads + Sync, R: Source, W: Sink, G: Gate>(
    rt: &T,
    alloc: Global,
    plan: RunPlan,
    input: &mut R,
    out: &mut W,
    gate: &G,
) -> Outcome
    requires input { CanRise (R.faults input.old) }
    requires out { CanRise (W.faults out.old) }
    requires plan { IsInPlan plan }
    ensures ends { Ends (Some (Program.Run plan.slabs plan.chunks plan.workers plan.scans plan.desperate))
        (stream R.left R.faults input.old input.new) (stream W.written W.faults out.old out.new) result.ending }
    ensures hands { HandsOut (Some (Program.Run plan.slabs plan.chunks plan.workers plan.scans plan.desperate))
        (stream R.left R.faults input.old input.new) (stream W.written W.faults out.old out.new) result.ending result.ran }
{
    match serve(rt, alloc, plan, input, out, gate) {
        Ok(ran) => Outcome {
            ending: Ending::Fine,
            ran: Some(ran),
        },
        Err(fault) => Outcome {
            ending: Ending::Failed(fault),
            ran: None,
        },
    }
}

/// Runs a script that is made from a seed. Reads nothing.
fn carry_out_made<T: Wait + Threads + Sync, R: Source, W: Sink, G: Gate>(
    rt: &T,
    alloc: Global,
    seed: u32,
    workers: u32,
    commands: u32,
    input: &mut R,
    out: &mut W,
    gate: &G,
) -> Outcome
    requires workers { (1 ≤ workers) × (workers ≤ 16) }
    requires commands { commands ≤ 60000 }
    requires out { CanRise (W.faults out.old) }
    ensures ends { Ends (Some (Program.Gen seed workers commands))
        (stream R.left R.faults input.old input.new) (stream W.written W.faults out.old out.new) result.ending }
    ensures hands { HandsOut (Some (Program.Gen seed workers commands))
        (stream R.left R.faults input.old input.new) (stream W.written W.faults out.old out.new) result.ending result.ran }
{
    let _ = input;
    match made(rt, alloc, u64::from(seed), workers, commands, out, gate) {
        Ok(ran) => Outcome {
            ending: Ending::Fine,
            ran: Some(ran),
        },
        Err(fault) => Outcome {
            ending: Ending::Failed(fault),
            ran: None,
        },
    }
}

fn carry_out_one<R: Source, W: Sink>(
    alloc: Global,
    slabs: u32,
    chunks: u32,
    every: Option<u32>,
    input: &mut R,
    out: &mut W,
) -> Ending
    requires slabs { (0 < slabs) × (slabs ≤ 4096) }
    requires chunks { (0 < chunks) × (chunks ≤ 64) }
    requires buffers { slabs * chunks ≤ 65536 }
    requires input { CanRise (R.faults input.old) }
    requires out { CanRise (W.faults out.old) }
    ensures { Ends (Some (Program.Plain (Plan.One slabs chunks every)))
        (stream R.left R.faults input.old input.new) (stream W.written W.faults out.old out.new) result }
{
    match serve_one(alloc, slabs, chunks, every, input, out) {
        Ok(()) => Ending::Fine,
        Err(fault) => Ending::Failed(fault),
    }
}

fn carry_out_check<R: Source, W: Sink>(
    alloc: Global,
    workers: u32,
    input: &mut R,
    out: &mut W,
) -> Ending
    requires workers { workers ≤ 16 }
    requires input { CanRise (R.faults input.old) }
    requires out { CanRise (W.faults out.old) }
    ensures { Ends (Some (Program.Plain (Plan.Check workers)))
        (stream R.left R.faults input.old input.new) (stream W.written W.faults out.old out.new) result }
{
    if let Err(fault) = check(alloc, workers, input, out) {
        return Ending::Failed(fault);
    }
    Ending::Fine
}
