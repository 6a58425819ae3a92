//! A mover: who asks about moves.
ghost use Rattle.std.specs.Prelude.{◌≡◌, ℕ, ◌+◌, ◌%◌, ◌^◌, ◌<◌, Some, length};
ghost use Rattle.kmem_buf.specs.Answers.{IsAnswerTo, verdict_of, flagged, brought_by, fetched_by};
ghost use Rattle.kmem_model.specs.Heap.{blank};
ghost use Rattle.kmem_model.specs.Records.{no_records};
ghost use Rattle.kmem_model.specs.History.{IsLegalHistory};
ghost use Rattle.hist_lock.specs.History.{entries_of};
ghost use Rattle.record_heap.specs.View.{IsBlankBuffer};
ghost use Rattle.record_table.specs.Shares.{counted_on};
ghost use Rattle.record_table.specs.Turns.{IsShareAsk};
ghost use Rattle.record_table.specs.Asks.{IsMoverOf, HasAsked, HasAwaitedCommands};

use crate::records::{Asked, Records};
use crate::shares::Share;
use crate::table::RecordTable;
use crate::turns::MoveTurn;
use hist_lock::Pass;
use kmem_buf::{Answer, Buf, Verdict};
use marks::MarkSeat;
use record_heap::RecordKind;
use std::marker::Model;
use std::mem::replace;
use std::sync::Wait;

/// Which answers were given.
#[derive(Drop)]
pub struct Given {
    pub(crate) yes: bool,
    pub(crate) no: bool,
    pub(crate) later: bool,
    pub(crate) dont_need: bool,
    pub(crate) dont_know: bool,
}

impl Model for Given {
    ghost use Rattle.kmem_buf.specs.Answers.{Flags};

    ghost Value = { Flags };

    ghost view = { λ g. record { yes = g.yes; no = g.no; later = g.later; dont_need = g.dont_need; dont_know = g.dont_know } };
}

impl Given {
    fn note(&mut self, verdict: Verdict)
        ensures { self.new ≡ flagged verdict self.old }
    {
        match verdict {
            Verdict::Yes => self.yes = true,
            Verdict::No => self.no = true,
            Verdict::Later => self.later = true,
            Verdict::DontNeed => self.dont_need = true,
            Verdict::DontKnow => self.dont_know = true,
        }
    }
}

/// The right to ask a table about moves, for one thread. Where one was dropped, the table can't be closed.
#[derive(Drop)]
pub struct Mover {
    pub(crate) pass: Pass<Records>,
    pub(crate) seat: MarkSeat,
    // It is there between any two calls.
    pub(crate) share: Option<Share>,
    pub(crate) given: Given,
    pub(crate) last: Option<Verdict>,
    pub(crate) answered: u64,
}

impl Model for Mover {
    ghost use Rattle.std.specs.Prelude.{is_some};
    ghost use Rattle.record_table.specs.Asks.{MoverState, mover_of, IsMover};

    ghost Value = { MoverState };

    ghost view = { λ m. mover_of m.pass m.seat m.share m.given m.last m.answered };

    ghost invariant = { λ m. IsMover (mover_of m.pass m.seat m.share m.given m.last m.answered) (is_some m.share) };
}

impl RecordTable {
    // Loads the word, and makes a turn where it is known, until one or the other has an answer.
    fn answer<R: Wait>(
        &self,
        rt: &R,
        pass: &mut Pass<Records>,
        seat: &mut MarkSeat,
        from: u32,
        to: Buf<RecordKind>,
        share: Share,
    ) -> (Answer<RecordKind>, Share)
        requires of { (pass.old.site ≡ self.now) × (seat.old.home ≡ self.now.home.words) }
        requires legal { IsLegalHistory (no_records pass.old.site.home.names pass.old.site.home.workers) pass.old.seen }
        requires exact { entries_of pass.old.number pass.old.seen ≡ pass.old.mine }
        requires from { from < length self.now.home.cache.cells }
        requires to { IsBlankBuffer self.now.home.cache.cells to }
        requires counts { IsShareAsk self.now.home share }
        ensures asked { HasAsked pass.old pass.new seat.old seat.new from result.0 }
        ensures brings { IsAnswerTo (λ o. o ≡ blank) self.now.home.cache.cells from to.number result.0 }
        ensures share { result.1 ≡ counted_on (brought_by (verdict_of result.0)) (fetched_by (verdict_of result.0)) share }
    {
        let mut to = to;
        let mut share = share;
        for _ in rt.forever() {
            if !self.marks.known(seat, from) {
                return (Answer::DontKnow(to), share);
            }
            let turn = MoveTurn {
                marks: &self.marks,
                from,
                to,
                share,
            };
            let (asked, back) = self.lock.look(rt, pass, turn);
            match asked {
                Asked::Answered(answer) => return (answer, back),
                Asked::Absent(buf) => {
                    to = buf;
                    share = back;
                }
            }
        }
        unreachable!()
    }

    /// Comes back once the sessions have carried out so many commands together; the mover has then seen them. It sleeps until then,
    /// and makes one turn at the end.
    pub fn await_count<R: Wait>(&self, rt: &R, mover: &mut Mover, count: u32)
        requires of { IsMoverOf self.now mover.old }
        ensures { HasAwaitedCommands count mover.old mover.new }
    {
        self.lock.await_count(rt, &mut mover.pass, count);
    }

    /// Answers whether the object of the number can move to the buffer, and moves it where the answer is yes. One load where the word
    /// isn't known, and else a turn, which may wait for other turns; where that turn finds no object it begins again.
    pub fn ask<R: Wait>(
        &self,
        rt: &R,
        mover: &mut Mover,
        from: u32,
        to: Buf<RecordKind>,
    ) -> Answer<RecordKind>
        requires of { IsMoverOf self.now mover.old }
        requires from { from < length self.now.home.cache.cells }
        requires to { IsBlankBuffer self.now.home.cache.cells to }
        requires counts { (mover.old.share.brought < 2 ^ 62) × (mover.old.share.fetched < 2 ^ 62) }
        ensures asked { HasAsked mover.old.pass mover.new.pass mover.old.seat mover.new.seat from result }
        ensures brings { IsAnswerTo (λ o. o ≡ blank) self.now.home.cache.cells from to.number result }
        ensures share { mover.new.share ≡ counted_on (brought_by (verdict_of result)) (fetched_by (verdict_of result)) mover.old.share }
        ensures flags { mover.new.flags ≡ flagged (verdict_of result) mover.old.flags }
        ensures last { mover.new.last ≡ Some (verdict_of result) }
        ensures answered { mover.new.answered ≡ (mover.old.answered + 1) % 2 ^ 64 }
    {
        let Some(share) = replace(&mut mover.share, None) else {
            unreachable!()
        };
        let pass = &mut mover.pass;
        let (answer, share) = self.answer(rt, pass, &mut mover.seat, from, to, share);
        let verdict = answer.verdict();
        mover.share = Some(share);
        mover.given.note(verdict);
        mover.last = Some(verdict);
        mover.answered = mover.answered.wrapping_add(1);
        answer
    }
}
