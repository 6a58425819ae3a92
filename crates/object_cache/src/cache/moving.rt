//! Scans and moves.
ghost use Rattle.std.specs.Prelude.{◌≡◌, ◌≢◌, ◌<◌, ◌↔◌, true, false, Some, None, All, length, IfSome, IfNone, IfOk, IsSome, IsNone, OnErr};
ghost use Rattle.kmem_buf.specs.Answers.{IsAnswerTo, buffers_back, numbers_of, verdict_of};
ghost use Rattle.kmem_buf.specs.Homes.{IsBufferOf};
ghost use Rattle.kmem_model.specs.CacheState.{is_out};
ghost use Rattle.kmem_model.specs.CacheOrder.{chosen, first_partial, is_idle, is_off};
ghost use Rattle.kmem_model.specs.CacheEnter.{enter, all_freed, with_answer, without_move};
ghost use Rattle.kmem_model.specs.CacheHistory.{MayEnter};
ghost use Rattle.kmem_model.specs.declared.cache_entry.CacheEntry.TheVariants.{Scan, Begin, Idle, Gone, End, Forget};
ghost use Rattle.slab_list.specs.Slabs.{mode_of};
ghost use Rattle.kmem_answers.specs.Words.{said_of};
ghost use Rattle.object_cache.specs.Moves.{IsMoveOf, IsJobOf, IsPending};
ghost use Rattle.object_cache.specs.Plans.{IsPlan};

use super::{BeginRefused, ObjectCache};
use crate::counts;
use crate::moves::{Begun, Job, Pending};
use crate::stock::Room;
use kmem_buf::{Answer, Kind, Verdict};
use kmem_model::{Mode, Steps, law_order};

// The next move: its number, and its buffers.
#[derive(Clone, Copy)]
struct Plan {
    number: u32,
    from: u32,
    to: u32,
}

impl<K: Kind> ObjectCache<K> {
    /// Starts a scan, a desperate or a mild one. It costs what it clears: what was noted of each buffer since the last one.
    pub fn start_scan(&mut self, desperate: bool)
        ensures entry { enter self.old.state (Scan desperate) ≡ Some self.new.state }
        ensures home { self.new.home ≡ self.old.home }
    {
        let mild = !desperate && counts::is_fragmented(self.stock.list());
        self.scan = self.scan.next(desperate, mild);
        self.moves.ask_anew(&mut self.stock);
    }

    /// Begins the move that the scan asks for next, off the last slab with a buffer that it may ask about. Slabs are looked at from the last
    /// one on.
    pub fn begin(&mut self) -> Result<Job<K>, BeginRefused>
        ensures entry { IfOk result (λ job. enter self.old.state (Begin job.move.no job.move.from job.move.to) ≡ Some self.new.state) }
        ensures job { IfOk result (IsJobOf K.constructed self.old.home) }
        ensures range { IfOk result (λ job. job.move.from < length self.old.home.cells) }
        ensures idle { (result ≡ Err BeginRefused.Idle) ↔ MayEnter self.old.state Idle }
        ensures idle_entry { result ≡ Err BeginRefused.Idle → enter self.old.state Idle ≡ Some self.new.state }
        ensures memory { K.never_refuses ≡ true → result ≢ Err BeginRefused.NoMemory }
        ensures refused { OnErr result (self.new ≡ self.old) }
        ensures home { self.new.home ≡ self.old.home }
    {
        let Some(plan) = self.plan() else {
            return Err(BeginRefused::Idle);
        };
        match self.kind.construct() {
            Ok(object) => Ok(self.begin_move(plan, object)),
            Err(_) => Err(BeginRefused::NoMemory),
        }
    }

    /// Gives the job back where its old buffer is still out. Else the move ends unasked, and its new buffer is free.
    pub fn still(&mut self, job: Job<K>) -> Option<Job<K>>
        requires { IsJobOf K.constructed self.old.home job }
        ensures kept { IfSome result (λ kept. (kept ≡ job) × (self.new ≡ self.old)) }
        ensures out { IsSome result ↔ (is_out self.old.state job.move.from ≡ true) }
        ensures range { IfSome result (λ kept. kept.move.from < length self.old.home.cells) }
        ensures gone { IfNone result (enter self.old.state (Gone job.move.no) ≡ Some self.new.state) }
        ensures home { self.new.home ≡ self.old.home }
    {
        let (mut pending, buf) = job.part();
        self.moves.meet(&mut pending);
        if self.stock.list().is_out(pending.from()) {
            return Some(Begun::of(pending, buf));
        }
        self.free(buf);
        self.finish(pending);
        None
    }

    /// Ends the move by its answer. The buffers that the answer hands back are free then.
    pub fn end(&mut self, pending: Pending, answer: Answer<K>)
        requires of { IsMoveOf self.old.home.moves pending }
        requires answer { IsAnswerTo K.constructed self.old.home.cells pending.from pending.to answer }
        ensures entry { enter self.old.state (End pending.no (said_of (verdict_of answer))) ≡ Some self.new.state }
        ensures home { self.new.home ≡ self.old.home }
    {
        let mut pending = pending;
        self.moves.meet(&mut pending);
        let verdict = answer.verdict();
        self.free_each(answer);
        self.mark(pending.from(), verdict);
        self.finish(pending);
    }

    /// Clears every count and mark.
    pub fn forget(&mut self)
        ensures entry { enter self.old.state Forget ≡ Some self.new.state }
        ensures home { self.new.home ≡ self.old.home }
    {
        self.stock.forget();
    }

    // The next move, if there is one to begin.
    fn plan(&mut self) -> Option<Plan>
        ensures some { IfSome result (λ plan. IsPlan self.old.state plan.number plan.from plan.to) }
        ensures none { IsNone result → is_idle self.old.state ≡ true }
        ensures same { self.new ≡ self.old }
    {
        law_order();
        let first = self.first_partial();
        let from = self.choice(first)?;
        let number = self.moves.free_number()?;
        let to = self.stock.first_partial_free_on(first)?;
        Some(Plan { number, from, to })
    }

    fn first_partial(&self) -> Option<u32>
        ensures { result ≡ first_partial self.now.state.slabs }
    {
        let list = self.stock.list();
        list.first_partial(&mut Steps::create())
    }

    // The buffer that the scan asks about next.
    fn choice(&mut self, first: Option<u32>) -> Option<u32>
        requires { first ≡ first_partial self.old.state.slabs }
        ensures some { IfSome result (λ b. (is_off self.old.state.mode ≡ false) × (chosen self.old.state ≡ Some b) ×
            (b < length self.old.state.asked)) }
        ensures none { IsNone result → is_idle self.old.state ≡ true }
        ensures same { self.new ≡ self.old }
    {
        match self.scan.mode {
            Mode::Off => None,
            Mode::Mild => self.last_to_ask(first, false),
            Mode::Desperate => self.last_to_ask(first, true),
        }
    }

    fn last_to_ask(&mut self, first: Option<u32>, desperate: bool) -> Option<u32>
        requires mode { self.old.state.mode ≡ mode_of desperate }
        requires first { first ≡ first_partial self.old.state.slabs }
        ensures choice { result ≡ chosen self.old.state }
        ensures range { IfSome result (λ b. b < length self.old.state.asked) }
        ensures same { self.new ≡ self.old }
    {
        self.stock
            .last_reclaimable(first, self.scan.numerator, desperate)
    }

    fn begin_move(&mut self, plan: Plan, object: K::Object) -> Job<K>
        requires plan { IsPlan self.old.state plan.number plan.from plan.to }
        requires constructed { K.constructed object }
        ensures entry { enter self.old.state (Begin result.move.no result.move.from result.move.to) ≡ Some self.new.state }
        ensures job { IsJobOf K.constructed self.old.home result }
        ensures range { result.move.from < length self.old.home.cells }
        ensures home { self.new.home ≡ self.old.home }
    {
        let buf = self.stock.take(Room::Listed(plan.to), object);
        let pending = self.moves.begin(plan.number, plan.from, plan.to);
        self.stock.leave_out(plan.from, true);
        self.stock.leave_out(plan.to, true);
        self.scan.begun = true;
        Begun::of(pending, buf)
    }

    // Frees the buffers that the answer hands back, the old one first.
    fn free_each(&mut self, answer: Answer<K>)
        requires { All (λ b. K.constructed b.object × IsBufferOf self.old.home.cells b) (buffers_back answer) }
        ensures freed { all_freed self.old.state (numbers_of (buffers_back answer)) ≡ Some self.new.state }
        ensures home { self.new.home ≡ self.old.home }
    {
        match answer {
            Answer::DontNeed(old, new) => {
                self.free(old);
                self.free(new);
            }
            Answer::Yes(buf) | Answer::No(buf) | Answer::Later(buf) | Answer::DontKnow(buf) => {
                self.free(buf)
            }
        }
    }

    // What the answer does to the slab of the old buffer, if that is out.
    fn mark(&mut self, number: u32, verdict: Verdict)
        requires { number < length self.old.home.cells }
        ensures answered { self.new.state ≡ with_answer self.old.state number (said_of verdict) }
        ensures home { self.new.home ≡ self.old.home }
    {
        if self.stock.list().is_out(number) {
            self.stock.answer(number, verdict);
        }
    }

    // The move isn't pending any more. With the last one all dead slabs go back to the source.
    fn finish(&mut self, pending: Pending)
        requires { IsMoveOf self.old.home.moves pending }
        ensures was { IsPending self.old.state.pending pending }
        ensures ended { self.new.state ≡ without_move self.old.state pending.no }
        ensures home { self.new.home ≡ self.old.home }
    {
        let (from, to) = (pending.from(), pending.to());
        self.moves.end(pending);
        self.stock.leave_out(from, self.moves.is_left_out(from));
        self.stock.leave_out(to, self.moves.is_left_out(to));
        if !self.moves.is_any() {
            self.stock.give_back();
        }
    }
}
