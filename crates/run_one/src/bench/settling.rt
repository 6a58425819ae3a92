//! Settles, the end of a run, and its report.

ghost use Rattle.std.specs.Prelude.{◌≡◌, true, length, OnOk};
ghost use Rattle.std.specs.Io.KnownBytes.{Appends};
ghost use Rattle.kmem_io.specs.Streams.{CanRise, CountsFaults, AppendsFront};
ghost use Rattle.kmem_model.specs.One.{OneState, buffers_of};
ghost use Rattle.kmem_model.specs.OneRun.{OneRun, settled_run, run_ended, without_leftovers, report_of};
ghost use Rattle.kmem_model.specs.Report.{report_text};
ghost use Rattle.run_one.specs.Bench.{Stands, StandsAt, RunsAt, FreesOne};

use super::Bench;
use consolidator::{add, law_tally, no_moves, settle_records};
use kmem_io::{Failed, Sink};
use kmem_model::{law_one_settle, law_room, law_stage};
use kmem_report::write_report;

impl Bench {
    /// Settles the cache with the heap, and counts the moves.
    pub fn settle(&mut self)
        requires stands { Stands self.old }
        ensures settled { (run : OneRun) → RunsAt run self.old → RunsAt (settled_run run) self.new }
        ensures stands { Stands self.new }
        ensures names { length self.new.heap.heap.names ≡ length self.old.heap.heap.names }
    {
        law_stage();
        law_one_settle();
        law_tally();
        let tally = settle_records(&mut self.cache, &mut self.heap);
        self.cache.law_whole();
        add(&mut self.settled, &tally);
    }

    /// Frees all leftovers, the least address first, and settles a last time.
    pub fn finish(&mut self)
        requires stands { Stands self.old }
        ensures ended { (run : OneRun) → RunsAt run self.old → RunsAt (run_ended run) self.new }
        ensures stands { Stands self.new }
    {
        self.free_leftovers();
        self.settle();
    }

    fn free_leftovers(&mut self)
        requires stands { Stands self.old }
        ensures freed { (s : OneState) → StandsAt s self.old → StandsAt (without_leftovers (buffers_of s.cache) s) self.new }
        ensures stands { Stands self.new }
        ensures settled { self.new.settled ≡ self.old.settled }
    {
        let mut more = true;
        'freeing: while more {
            more = self.free_one();
        }
    }

    // Frees the leftover with the least address, if there is one.
    fn free_one(&mut self) -> bool
        requires stands { Stands self.old }
        ensures freed { (s : OneState) → StandsAt s self.old → FreesOne s self.old result self.new }
        ensures stands { Stands self.new }
        ensures settled { self.new.settled ≡ self.old.settled }
    {
        law_one_settle();
        law_room();
        match self.heap.take_leftover() {
            Some(buf) => {
                self.cache.free(buf);
                true
            }
            None => false,
        }
    }

    /// Writes the report.
    pub fn report<W: Sink>(&self, out: &mut W) -> Result<(), Failed>
        requires stands { Stands self.now }
        requires out { CanRise (W.faults out.old) }
        ensures whole { OnOk result ((run : OneRun) → RunsAt run self.now →
            Appends (W.written out.old) (W.written out.new) (report_text (report_of run))) }
        ensures front { (run : OneRun) → RunsAt run self.now →
            AppendsFront (W.written out.old) (W.written out.new) (report_text (report_of run)) }
        ensures counted { CountsFaults (W.faults out.old) (W.faults out.new) result }
    {
        law_tally();
        let live = self.heap.live();
        write_report(live, 0, &no_moves(), &self.settled, &self.cache, out)
    }
}
