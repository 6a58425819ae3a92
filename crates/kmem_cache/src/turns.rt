//! The turns of a shared cache, each of which makes at most one entry.
use crate::locked::{CacheRefused, Locked};
use hist_lock::Turn;
use kmem_buf::{Answer, Buf, Kind};
use kmem_model::CacheEntry;
use object_cache::{BeginRefused, Job, Pending};

#[derive(Clone, Copy)]
pub struct AllocTurn;

impl<K: Kind> Turn<Locked<K>> for AllocTurn {
    ghost use Rattle.std.specs.Prelude.{length};
    ghost use Rattle.kmem_cache.specs.Turns.{HasRoom, IsAllocated};

    type Out = Result<Buf<K>, CacheRefused>;

    ghost can = { λ turn who home history. HasRoom history };

    ghost tells = { λ turn who home before after history out entry.
        IsAllocated K.constructed K.never_refuses home.buffers (length history) out entry };

    fn run(
        self,
        _who: u32,
        object: &mut Locked<K>,
    ) -> (Result<Buf<K>, CacheRefused>, Option<CacheEntry>) {
        object.alloc()
    }
}

pub struct FreeTurn<K: Kind> {
    pub buf: Buf<K>,
}

impl<K: Kind> Turn<Locked<K>> for FreeTurn<K> {
    ghost use Rattle.std.specs.Prelude.{◌≡◌, Some};
    ghost use Rattle.magazine.specs.Ready.{IsReady};
    ghost use Rattle.kmem_model.specs.declared.cache_entry.CacheEntry.TheVariants.{Free};
    ghost use Rattle.kmem_cache.specs.Turns.{HasRoom};

    type Out = ();

    ghost can = { λ turn who home history. HasRoom history × IsReady K.constructed home.buffers turn.buf };

    ghost tells = { λ turn who home before after history out entry. entry ≡ Some (Free turn.buf.number) };

    fn run(self, _who: u32, object: &mut Locked<K>) -> ((), Option<CacheEntry>) {
        let FreeTurn { buf } = self;
        ((), Some(object.free(buf)))
    }
}

#[derive(Clone, Copy)]
pub struct ScanTurn {
    pub desperate: bool,
}

impl<K: Kind> Turn<Locked<K>> for ScanTurn {
    ghost use Rattle.std.specs.Prelude.{◌≡◌, Some};
    ghost use Rattle.kmem_model.specs.declared.cache_entry.CacheEntry.TheVariants.{Scan};
    ghost use Rattle.kmem_cache.specs.Turns.{HasRoom};

    type Out = ();

    ghost can = { λ turn who home history. HasRoom history };

    ghost tells = { λ turn who home before after history out entry. entry ≡ Some (Scan turn.desperate) };

    fn run(self, _who: u32, object: &mut Locked<K>) -> ((), Option<CacheEntry>) {
        ((), Some(object.start_scan(self.desperate)))
    }
}

#[derive(Clone, Copy)]
pub struct BeginTurn;

impl<K: Kind> Turn<Locked<K>> for BeginTurn {
    ghost use Rattle.kmem_cache.specs.Turns.{HasRoom, HasBegun};

    type Out = Result<Job<K>, BeginRefused>;

    ghost can = { λ turn who home history. HasRoom history };

    ghost tells = { λ turn who home before after history out entry.
        HasBegun K.constructed K.never_refuses home.buffers out entry };

    fn run(
        self,
        _who: u32,
        object: &mut Locked<K>,
    ) -> (Result<Job<K>, BeginRefused>, Option<CacheEntry>) {
        object.begin()
    }
}

pub struct StillTurn<K: Kind> {
    pub job: Job<K>,
}

impl<K: Kind> Turn<Locked<K>> for StillTurn<K> {
    ghost use Rattle.object_cache.specs.Moves.{IsJobOf};
    ghost use Rattle.kmem_cache.specs.Turns.{HasRoom, IsStill};

    type Out = Option<Job<K>>;

    ghost can = { λ turn who home history. HasRoom history × IsJobOf K.constructed home.buffers turn.job };

    ghost tells = { λ turn who home before after history out entry.
        IsStill home.buffers before.cache.state turn.job out entry };

    fn run(self, _who: u32, object: &mut Locked<K>) -> (Option<Job<K>>, Option<CacheEntry>) {
        let StillTurn { job } = self;
        object.still(job)
    }
}

pub struct EndTurn<K: Kind> {
    pub pending: Pending,
    pub answer: Answer<K>,
}

impl<K: Kind> Turn<Locked<K>> for EndTurn<K> {
    ghost use Rattle.std.specs.Prelude.{◌≡◌, Some};
    ghost use Rattle.kmem_buf.specs.Answers.{IsAnswerTo, verdict_of};
    ghost use Rattle.kmem_answers.specs.Words.{said_of};
    ghost use Rattle.object_cache.specs.Moves.{IsMoveOf};
    ghost use Rattle.kmem_model.specs.declared.cache_entry.CacheEntry.TheVariants.{End};
    ghost use Rattle.kmem_cache.specs.Turns.{HasRoom};

    type Out = ();

    ghost can = { λ turn who home history. HasRoom history × IsMoveOf home.buffers.moves turn.pending ×
        IsAnswerTo K.constructed home.buffers.cells turn.pending.from turn.pending.to turn.answer };

    ghost tells = { λ turn who home before after history out entry.
        entry ≡ Some (End turn.pending.no (said_of (verdict_of turn.answer))) };

    fn run(self, _who: u32, object: &mut Locked<K>) -> ((), Option<CacheEntry>) {
        let EndTurn { pending, answer } = self;
        ((), Some(object.end(pending, answer)))
    }
}
