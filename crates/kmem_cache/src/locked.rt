//! The object under the lock: an object cache that counts the entries of its history.
ghost use Rattle.std.specs.Prelude.{◌≡◌, ◌+◌, ◌<◌, ◌^◌, Some, None};
ghost use Rattle.kmem_buf.specs.Answers.{IsAnswerTo, verdict_of};
ghost use Rattle.kmem_answers.specs.Words.{said_of};
ghost use Rattle.object_cache.specs.Moves.{IsMoveOf, IsJobOf};
ghost use Rattle.magazine.specs.Ready.{IsReady};
ghost use Rattle.kmem_model.specs.declared.cache_entry.CacheEntry.TheVariants.{Free, Scan, End};
ghost use Rattle.kmem_cache.specs.Locked.{HasMade, IsStep};
ghost use Rattle.kmem_cache.specs.Turns.{IsAllocated, HasBegun, IsStill};

use hist_lock::Told;
use kmem_answers::said_of;
use kmem_buf::{Answer, Buf, FullNote, Home, Kind};
use kmem_model::CacheEntry;
use object_cache::{AllocRefused, BeginRefused, Job, ObjectCache, Pending};

/// What no turn changes. No value of it is made.
pub struct CacheHome {
    pub buffers: Home,
    pub slabs: u32,
    pub chunks: u32,
}

/// Why a shared cache gave no buffer.
#[derive(Clone, Copy, Debug, PartialEq, Eq)]
pub enum CacheRefused {
    /// Every buffer was out. The note has the place of this call's own entry.
    Full(FullNote),
    /// There was no memory for the object.
    NoMemory,
}

#[derive(Drop)]
pub struct Locked<K> {
    pub cache: ObjectCache<K>,
    pub entries: u64,
    pub slabs: u32,
    pub chunks: u32,
}

impl<K: Kind> Told for Locked<K> {
    ghost use Rattle.std.specs.Prelude.{[]};
    ghost use Rattle.kmem_cache.specs.Locked.{IsStanding, home_under};

    type Entry = CacheEntry;

    type Home = CacheHome;

    ghost stands = { λ l history. IsStanding l history };

    ghost home = { λ l. home_under l };

    ghost anywhere = { record { buffers = record { cells = []; moves = [] }; slabs = 0; chunks = 0 } };
}

impl<K: Kind> Locked<K> {
    pub fn alloc(&mut self) -> (Result<Buf<K>, CacheRefused>, Option<CacheEntry>)
        requires { self.old.entries + 1 < 2 ^ 64 }
        ensures step { IsStep self.old self.new result.1 }
        ensures answer { IsAllocated K.constructed K.never_refuses self.old.cache.home self.old.entries result.0 result.1 }
    {
        match self.cache.alloc() {
            Ok(buf) => {
                let entry = CacheEntry::Alloc(buf.number());
                self.entries += 1;
                (Ok(buf), Some(entry))
            }
            Err(AllocRefused::Full) => {
                let note = FullNote { at: self.entries };
                self.entries += 1;
                (Err(CacheRefused::Full(note)), Some(CacheEntry::Full))
            }
            Err(AllocRefused::NoMemory) => (Err(CacheRefused::NoMemory), None),
        }
    }

    pub fn free(&mut self, buf: Buf<K>) -> CacheEntry
        requires room { self.old.entries + 1 < 2 ^ 64 }
        requires ready { IsReady K.constructed self.old.cache.home buf }
        ensures made { HasMade self.old self.new result }
        ensures entry { result ≡ Free buf.number }
    {
        let entry = CacheEntry::Free(buf.number());
        self.cache.free(buf);
        self.entries += 1;
        entry
    }

    pub fn start_scan(&mut self, desperate: bool) -> CacheEntry
        requires { self.old.entries + 1 < 2 ^ 64 }
        ensures made { HasMade self.old self.new result }
        ensures entry { result ≡ Scan desperate }
    {
        self.cache.start_scan(desperate);
        self.entries += 1;
        CacheEntry::Scan(desperate)
    }

    pub fn begin(&mut self) -> (Result<Job<K>, BeginRefused>, Option<CacheEntry>)
        requires { self.old.entries + 1 < 2 ^ 64 }
        ensures step { IsStep self.old self.new result.1 }
        ensures answer { HasBegun K.constructed K.never_refuses self.old.cache.home result.0 result.1 }
    {
        match self.cache.begin() {
            Ok(job) => {
                let entry = CacheEntry::Begin(job.no(), job.from(), job.to());
                self.entries += 1;
                (Ok(job), Some(entry))
            }
            Err(BeginRefused::Idle) => {
                self.entries += 1;
                (Err(BeginRefused::Idle), Some(CacheEntry::Idle))
            }
            Err(BeginRefused::NoMemory) => (Err(BeginRefused::NoMemory), None),
        }
    }

    pub fn still(&mut self, job: Job<K>) -> (Option<Job<K>>, Option<CacheEntry>)
        requires room { self.old.entries + 1 < 2 ^ 64 }
        requires job { IsJobOf K.constructed self.old.cache.home job }
        ensures step { IsStep self.old self.new result.1 }
        ensures answer { IsStill self.old.cache.home self.old.cache.state job result.0 result.1 }
    {
        let number = job.no();
        match self.cache.still(job) {
            Some(kept) => (Some(kept), None),
            None => {
                self.entries += 1;
                (None, Some(CacheEntry::Gone(number)))
            }
        }
    }

    pub fn end(&mut self, pending: Pending, answer: Answer<K>) -> CacheEntry
        requires room { self.old.entries + 1 < 2 ^ 64 }
        requires of { IsMoveOf self.old.cache.home.moves pending }
        requires answer { IsAnswerTo K.constructed self.old.cache.home.cells pending.from pending.to answer }
        ensures made { HasMade self.old self.new result }
        ensures entry { result ≡ End pending.no (said_of (verdict_of answer)) }
    {
        let entry = CacheEntry::End(pending.no(), said_of(answer.verdict()));
        self.cache.end(pending, answer);
        self.entries += 1;
        entry
    }
}
