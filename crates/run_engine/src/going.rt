//! A run, from its first command to its settle.

ghost use Rattle.std.specs.Prelude.{◌≡◌, ◌≤◌, [], IfOk};
ghost use Rattle.kmem_io.specs.Streams.{CanRise, CountsFaults};
ghost use Rattle.kmem_text.specs.Scripts.{plain};
ghost use Rattle.run_engine.specs.Ran.{IsRan, IsPrinted, IsPrintedFront};
ghost use Rattle.run_engine.specs.Closed.{IsClosed};

use crate::closing::{Closed, close_all};
use crate::open_run::OpenRun;
use crate::over_run::{Counts, OverRun};
use crate::plan::RunPlan;
use crate::ran::Ran;
use crate::running::run_all;
use consolidator::law_tally;
use kmem_io::{Failed, Gate, Sink};
use kmem_model::law_taken;
use kmem_text::Script;
use run_end::wind_up;
use run_print::Page;
use std::sync::Wait;
use std::thread::Threads;

impl OpenRun {
    /// Carries out all commands, each worker's in a thread of its own where one can be started, while two movers make the scans. Then everything
    /// is closed, leftovers are freed, and the cache is settled once. Takes no memory.
    pub fn carry_out<R: Threads + Wait + Sync, G: Gate>(self, rt: &R, gate: &G) -> OverRun
        ensures plan { result.plan ≡ self.plan }
        ensures script { result.script ≡ self.script }
        ensures ran { IsRan self.plan self.script result.ran }
    {
        let OpenRun {
            plan,
            script,
            shared,
            crew,
            parts,
            page,
        } = self;
        let crew = run_all(rt, gate, &plan, &script.lines, &shared, crew);
        let closed = close_all(rt, &plan, &script, shared, crew, parts);
        settle_run(plan, script, closed, page)
    }

    /// Carries it out, and prints what came of it.
    pub fn go<R: Threads + Wait + Sync, W: Sink, G: Gate>(
        self,
        rt: &R,
        out: &mut W,
        gate: &G,
    ) -> Result<Ran, Failed>
        requires out { CanRise (W.faults out.old) }
        ensures ran { IfOk result (λ ran. IsRan self.plan self.script ran) }
        ensures text { IfOk result (λ ran. IsPrinted self.plan self.script ran (W.written out.old) (W.written out.new)) }
        ensures front { IsPrintedFront self.plan self.script (W.written out.old) (W.written out.new) }
        ensures counted { CountsFaults (W.faults out.old) (W.faults out.new) result }
    {
        self.carry_out(rt, gate).print(out)
    }
}

// Frees the leftovers and settles the cache.
fn settle_run(plan: RunPlan, script: Script, closed: Closed, page: Page) -> OverRun
    requires plan { plan.workers ≤ 16 }
    requires closed { IsClosed plan (plain script) closed }
    requires page { page ≡ [] }
    ensures plan { result.plan ≡ plan }
    ensures script { result.script ≡ plain script }
    ensures ran { result.ran ≡ closed.ran }
{
    law_tally();
    law_taken();
    let Closed {
        ran,
        mut heap,
        mut slabs,
        tally,
    } = closed;
    slabs.law_whole();
    let settled = wind_up(&mut slabs, &mut heap);
    let counts = Counts {
        live: heap.live(),
        moves: tally,
        settled,
    };
    OverRun {
        plan,
        script,
        ran,
        slabs,
        counts,
        page,
    }
}
