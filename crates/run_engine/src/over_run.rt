//! A run that is over.

ghost use Rattle.std.specs.Prelude.{◌≡◌, ◌≤◌, [], length, IfOk, OnOk};
ghost use Rattle.std.specs.Io.KnownBytes.{Appends};
ghost use Rattle.kmem_io.specs.Streams.{CanRise, CountsFaults, AppendsFront};
ghost use Rattle.kmem_model.specs.Records.{live_count};
ghost use Rattle.kmem_model.specs.RunLines.{run_text};
ghost use Rattle.kmem_model.specs.Report.{report_text};
ghost use Rattle.kmem_report.specs.Reported.{reported};
ghost use Rattle.run_print.specs.Printed.{IsPrintable};
ghost use Rattle.run_engine.specs.Ran.{IsPrinted, IsPrintedFront, last_map};

use crate::plan::RunPlan;
use crate::ran::Ran;
use kmem_io::{Failed, Sink};
use kmem_model::RecordEntry;
use kmem_report::write_report;
use kmem_text::Script;
use object_cache::{ObjectCache, Tally};
use record_heap::RecordKind;
use run_print::{Page, print_run};
use std::marker::Model;

/// A run whose commands are carried out, and which is closed and settled. Nothing was printed of it yet.
#[derive(Drop)]
pub struct OverRun {
    pub(crate) plan: RunPlan,
    pub(crate) script: Script,
    pub(crate) ran: Ran,
    pub(crate) slabs: ObjectCache<RecordKind>,
    pub(crate) counts: Counts,
    pub(crate) page: Page,
}

/// How many records live at the end of a run, and how its moves ended and those of its settle.
#[derive(Drop)]
pub struct Counts {
    pub live: u32,
    pub moves: Tally,
    pub settled: Tally,
}

impl Model for OverRun {
    ghost use Rattle.kmem_text.specs.Scripts.{plain};
    ghost use Rattle.run_engine.specs.Over.{IsOver, OverView};

    ghost Value = { OverView };

    ghost view = { λ r. record { plan = r.plan; script = plain r.script; ran = r.ran } };

    ghost invariant = { λ r. IsOver r.plan (plain r.script) r.ran r.slabs r.counts r.page };
}

impl OverRun {
    /// The entries of the commands' history, each with the number of the pass that made it.
    pub fn entries(&self) -> &[(u32, RecordEntry)]
        ensures { result.now ≡ self.now.ran.records.entries }
    {
        self.ran.records.entries()
    }

    /// How many records live at its end.
    pub fn live(&self) -> u32
        ensures { result ≡ live_count (last_map self.now.plan self.now.script self.now.ran.records.entries) }
    {
        self.counts.live
    }

    /// The histories.
    pub fn into_ran(self) -> Ran
        ensures { result ≡ self.ran }
    {
        let OverRun {
            plan: _,
            script: _,
            ran,
            slabs: _,
            counts: _,
            page: _,
        } = self;
        ran
    }

    /// Prints the replies by worker, the history and the report, and hands out the histories. Takes no memory.
    pub fn print<W: Sink>(self, out: &mut W) -> Result<Ran, Failed>
        requires out { CanRise (W.faults out.old) }
        ensures ran { IfOk result (λ ran. ran ≡ self.ran) }
        ensures text { IfOk result (λ ran. IsPrinted self.plan self.script ran (W.written out.old) (W.written out.new)) }
        ensures front { IsPrintedFront self.plan self.script (W.written out.old) (W.written out.new) }
        ensures counted { CountsFaults (W.faults out.old) (W.faults out.new) result }
    {
        let OverRun {
            plan,
            script,
            ran,
            slabs,
            counts,
            mut page,
        } = self;
        print_all(&plan, &script, &ran, &counts, &slabs, &mut page, out)?;
        Ok(ran)
    }
}

// Prints the history and the report.
fn print_all<W: Sink>(
    plan: &RunPlan,
    script: &Script,
    ran: &Ran,
    counts: &Counts,
    slabs: &ObjectCache<RecordKind>,
    page: &mut Page,
    out: &mut W,
) -> Result<(), Failed>
    requires plan { plan.now.workers ≤ 16 }
    requires printable { IsPrintable (length script.now.names.items) ran.now.records.entries }
    requires page { page.old ≡ [] }
    requires out { CanRise (W.faults out.old) }
    ensures whole { OnOk result (Appends (W.written out.old) (W.written out.new)
        (run_text plan.now.workers script.now.names.items ran.now.records.entries
        (report_text (reported counts.now.live plan.now.scans counts.now.moves counts.now.settled slabs.now.state)))) }
    ensures front { AppendsFront (W.written out.old) (W.written out.new)
        (run_text plan.now.workers script.now.names.items ran.now.records.entries
        (report_text (reported counts.now.live plan.now.scans counts.now.moves counts.now.settled slabs.now.state))) }
    ensures counted { CountsFaults (W.faults out.old) (W.faults out.new) result }
{
    print_run(script, plan.workers, ran.records.entries(), page, out)?;
    let Counts {
        live,
        moves,
        settled,
    } = counts;
    write_report(*live, plan.scans, moves, settled, slabs, out)
}
