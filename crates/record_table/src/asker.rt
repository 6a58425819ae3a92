//! A mover as the client of a cache.
ghost use Rattle.std.specs.Prelude.{◌≡◌, ◌+◌, ◌%◌, ◌^◌, ◌<◌, Some, length};
ghost use Rattle.kmem_buf.specs.Homes.{IsBufferOf};
ghost use Rattle.kmem_buf.specs.Answers.{IsAnswerTo, verdict_of, flagged, brought_by, fetched_by};
ghost use Rattle.kmem_model.specs.Heap.{blank};
ghost use Rattle.record_table.specs.Asks.{IsMoverOf, HasAsked, SignState, sign_code, sign_of};

use crate::mover::Mover;
use crate::table::RecordTable;
use kmem_buf::{Answer, Buf, MoveClient};
use record_heap::RecordKind;
use std::marker::Model;
use std::sync::Wait;

/// What an asker shows of itself, and no answer changes. No value of it is made.
pub struct AskerSign {
    ghost is: { SignState } by { sign_code },
}

impl Model for AskerSign {
    ghost use base.Fml.{ftrue};
    ghost use Rattle.record_table.specs.Asks.{SignState};

    ghost Value = { SignState };

    ghost view = { λ s. s.is };

    ghost also_owns = { λ _. ftrue };
}

/// A mover that is lent its table, and can be asked whether a record can move.
pub struct Asker<'a> {
    pub table: &'a RecordTable,
    pub mover: &'a mut Mover,
    ghost of: { IsMoverOf table.now mover.now },
}

impl<'a> MoveClient<RecordKind> for Asker<'a> {
    type Sign = AskerSign;

    ghost use Rattle.record_table.specs.Asks.{sign_of};

    ghost home = { λ a. a.table.now.home.cache };

    ghost sign = { λ a. sign_of a.table.now a.mover.now a.mover.ghost_name };

    ghost flags = { λ a. a.mover.now.flags };

    ghost last = { λ a. a.mover.now.last };

    ghost answered = { λ a. a.mover.now.answered };

    ghost brought = { λ a. a.mover.now.share.brought };

    ghost fetched = { λ a. a.mover.now.share.fetched };

    fn ask<R: Wait>(&mut self, rt: &R, from: u32, to: Buf<RecordKind>) -> Answer<RecordKind>
        requires from { from < length self.old.table.now.home.cache.cells }
        requires to { IsBufferOf self.old.table.now.home.cache.cells to × (to.object ≡ blank) }
        requires counts { (self.old.mover.now.share.brought < 2 ^ 62) × (self.old.mover.now.share.fetched < 2 ^ 62) }
        ensures buffers { IsAnswerTo (λ o. o ≡ blank) self.old.table.now.home.cache.cells from to.number result }
        ensures stays { (self.new.table.now.home.cache ≡ self.old.table.now.home.cache) ×
            (sign_of self.new.table.now self.new.mover.now self.new.mover.ghost_name ≡
            sign_of self.old.table.now self.old.mover.now self.old.mover.ghost_name) }
        ensures flags { self.new.mover.now.flags ≡ flagged (verdict_of result) self.old.mover.now.flags }
        ensures last { self.new.mover.now.last ≡ Some (verdict_of result) }
        ensures answered { self.new.mover.now.answered ≡ (self.old.mover.now.answered + 1) % 2 ^ 64 }
        ensures counts { (self.new.mover.now.share.brought ≡ self.old.mover.now.share.brought + brought_by (verdict_of result)) ×
            (self.new.mover.now.share.fetched ≡ self.old.mover.now.share.fetched + fetched_by (verdict_of result)) }
        ensures asked { HasAsked self.old.mover.now.pass self.new.mover.now.pass self.old.mover.now.seat self.new.mover.now.seat from result }
    {
        self.table.ask(rt, self.mover, from, to)
    }
}
