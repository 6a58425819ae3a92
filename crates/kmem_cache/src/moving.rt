//! Scans and moves of a shared cache, in one turn under its lock each.
ghost use Rattle.std.specs.Prelude.{◌≡◌, ◌+◌, ◌≤◌, Option, Some, OnOk, OnErr};
ghost use Rattle.kmem_buf.specs.Answers.{IsAnswerTo, verdict_of};
ghost use Rattle.kmem_answers.specs.Words.{said_of};
ghost use Rattle.kmem_model.specs.CacheCounts.{handed_by};
ghost use Rattle.kmem_model.specs.declared.cache_entry.CacheEntry.{CacheEntry};
ghost use Rattle.kmem_model.specs.declared.cache_entry.CacheEntry.TheVariants.{Scan, End};
ghost use Rattle.object_cache.specs.Moves.{IsMoveOf, IsJobOf};
ghost use Rattle.kmem_cache.specs.Seats.{buffers_at, IsCacheSeat, HasActed};
ghost use Rattle.kmem_cache.specs.Turns.{HasBegun};
ghost use Rattle.kmem_cache.specs.Calls.{WasMet};

use crate::seat::CacheSeat;
use crate::shared_cache::Cache;
use crate::turns::{BeginTurn, EndTurn, ScanTurn, StillTurn};
use kmem_buf::{Answer, Kind};
use object_cache::{BeginRefused, Job, Pending};
use std::sync::Wait;

impl<K: Kind> Cache<K> {
    /// Starts a scan, in one turn under the lock.
    pub fn start_scan<R: Wait>(&self, rt: &R, seat: &mut CacheSeat<K>, desperate: bool)
        requires of { IsCacheSeat self.now seat.old }
        requires left { 1 ≤ seat.old.pass.left }
        ensures acted { HasActed seat.old.pass seat.new.pass (Some (Scan desperate)) }
        ensures seat { seat.new ≡ record seat.old { pass = seat.new.pass } }
        ensures of { IsCacheSeat self.now seat.new }
    {
        self.lock.act(rt, &mut seat.pass, ScanTurn { desperate });
    }

    /// Begins the move that the scan asks for next, in one turn under the lock.
    pub fn begin<R: Wait>(&self, rt: &R, seat: &mut CacheSeat<K>) -> Result<Job<K>, BeginRefused>
        requires of { IsCacheSeat self.now seat.old }
        requires left { 1 ≤ seat.old.pass.left }
        ensures acted { (entry : Option CacheEntry) × HasActed seat.old.pass seat.new.pass entry ×
            HasBegun K.constructed K.never_refuses (buffers_at self.now) result entry }
        ensures lent { OnOk result (seat.new ≡ record seat.old { pass = seat.new.pass; lent = seat.old.lent + 1 }) }
        ensures refused { OnErr result (seat.new ≡ record seat.old { pass = seat.new.pass }) }
        ensures of { IsCacheSeat self.now seat.new }
    {
        match self.lock.act(rt, &mut seat.pass, BeginTurn) {
            Ok(job) => {
                seat.lent = seat.lent.one_more();
                Ok(job)
            }
            Err(refused) => Err(refused),
        }
    }

    /// Gives the job back where its old buffer is still out, or ends the move unasked, in one turn under the lock.
    pub fn still<R: Wait>(&self, rt: &R, seat: &mut CacheSeat<K>, job: Job<K>) -> Option<Job<K>>
        requires of { IsCacheSeat self.now seat.old }
        requires left { 1 ≤ seat.old.pass.left }
        requires job { IsJobOf K.constructed (buffers_at self.now) job }
        ensures acted { (entry : Option CacheEntry) × HasActed seat.old.pass seat.new.pass entry × WasMet self.now seat.old seat.new job result entry }
        ensures of { IsCacheSeat self.now seat.new }
    {
        match self.lock.act(rt, &mut seat.pass, StillTurn { job }) {
            Some(kept) => Some(kept),
            None => {
                seat.returned = seat.returned.one_more();
                None
            }
        }
    }

    /// Ends the move by its answer, in one turn under the lock.
    pub fn end<R: Wait>(&self, rt: &R, seat: &mut CacheSeat<K>, pending: Pending, answer: Answer<K>)
        requires of { IsCacheSeat self.now seat.old }
        requires left { 1 ≤ seat.old.pass.left }
        requires move_of { IsMoveOf (buffers_at self.now).moves pending }
        requires answer { IsAnswerTo K.constructed (buffers_at self.now).cells pending.from pending.to answer }
        ensures acted { HasActed seat.old.pass seat.new.pass (Some (End pending.no (said_of (verdict_of answer)))) }
        ensures seat { seat.new ≡ record seat.old { pass = seat.new.pass; returned = seat.old.returned + handed_by (said_of (verdict_of answer)) } }
        ensures of { IsCacheSeat self.now seat.new }
    {
        let verdict = answer.verdict();
        self.lock
            .act(rt, &mut seat.pass, EndTurn { pending, answer });
        seat.returned = seat.returned.more_by(verdict);
    }
}
