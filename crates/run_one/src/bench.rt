//! What `one` runs on: a cache, the records in its buffers, and the holds of all tags.

ghost use Rattle.std.specs.Prelude.{◌≡◌, ◌<◌, ◌≤◌, ◌*◌, ℕ, true, length, slice_index_or, None, IfOk};
ghost use Rattle.kmem_text.specs.Grammar.{IsWithinNames};
ghost use Rattle.kmem_text.specs.Replies.{IsReplyWithinNames};
ghost use Rattle.kmem_model.specs.OneRun.{run_start, is_settle_due};
ghost use Rattle.run_one.specs.Bench.{Stands, RunsAt, IsOfBench, CarriesOut, IsGoodLine, Answers, looks_at_names};

mod put;
mod settling;
mod tags;

use consolidator::no_moves;
use kmem_model::law_one_step;
use kmem_text::{Command, Line, Reply};
use object_cache::{ObjectCache, Tally};
use record_heap::{Hold, RecordHeap, RecordKind};
use slab_source::Supply;
use std::alloc::{AllocError, Global};
use std::marker::Model;

/// The workers of `one`.
const WORKERS: u32 = 16;

/// The most moves that may be pending at once.
const LIMIT: u32 = 64;

/// A cache, the heap of the records in its buffers, and the holds. All memory is taken by `create`.
#[derive(Drop)]
pub struct Bench {
    cache: ObjectCache<RecordKind>,
    heap: RecordHeap,
    // The hold of each tag that is in use, by the tag's place.
    holds: Vec<Option<Hold>>,
    // How many entries Full the cache has made.
    refusals: u64,
    // The moves of all settles.
    settled: Tally,
}

impl Model for Bench {
    ghost use Rattle.run_one.specs.Bench.{BenchView, IsTogether};

    ghost Value = { BenchView };

    ghost view = { λ b. record { cache = b.cache; heap = b.heap; holds = b.holds.items; settled = b.settled } };

    ghost invariant = { λ b. IsTogether b.cache b.heap b.holds.items };
}

impl Bench {
    /// No record, and every slab in the source.
    pub fn create(alloc: Global, slabs: u32, chunks: u32, names: u32) -> Result<Bench, AllocError>
        requires slabs { (0 < slabs) × (slabs ≤ 4096) }
        requires chunks { (0 < chunks) × (chunks ≤ 64) }
        requires buffers { slabs * chunks ≤ 65536 }
        requires names { names ≤ 262144 }
        ensures start { IfOk result (λ b. RunsAt (run_start slabs chunks names) b) }
        ensures names { IfOk result (λ b. length b.heap.heap.names ≡ names) }
    {
        law_one_step();
        let supply = Supply::create(alloc, slabs)?;
        let cache = ObjectCache::create(alloc, RecordKind, supply, slabs, chunks, LIMIT)?;
        let heap = RecordHeap::create(alloc, cache.home(), names, slabs * chunks, WORKERS)?;
        let holds = no_holds(alloc)?;
        Ok(Bench {
            cache,
            heap,
            holds,
            refusals: 0,
            settled: no_moves(),
        })
    }

    /// Carries out the command of a line, which has this number, and settles where that is due. Answers the reply.
    pub fn answer(&mut self, every: Option<u32>, number: u32, line: &Line) -> Reply
        requires stands { Stands self.old }
        requires line { IsGoodLine (length self.old.heap.heap.names) line.now }
        ensures answers { Answers every number line.now self.old result self.new }
        ensures stands { Stands self.new }
        ensures within { IsReplyWithinNames (length self.old.heap.heap.names) result }
        ensures names { length self.new.heap.heap.names ≡ length self.old.heap.heap.names }
    {
        let reply = self.carry_out(line.worker, &line.command);
        if is_settle_due(every, number) {
            self.settle();
        }
        reply
    }

    /// Carries out a command of a worker.
    pub fn carry_out(&mut self, worker: u32, command: &Command) -> Reply
        requires stands { Stands self.old }
        requires command { IsOfBench self.old worker command.now }
        ensures carried_out { CarriesOut self.old worker command.now result self.new }
        ensures within { IsReplyWithinNames (length self.old.heap.heap.names) result }
    {
        law_one_step();
        match command {
            Command::Put(name, value) => self.put(worker, *name, *value),
            Command::Del(name) => self.del(worker, *name),
            Command::Link(name, other) => self.link(*name, *other),
            Command::Fix(name) => self.fix(*name),
            Command::Loose(name) => self.loose(*name),
            Command::Hold(tag, name) => self.hold(worker, *tag, *name),
            Command::Read(tag) => self.read(worker, *tag),
            Command::Write(tag, value) => self.write(worker, *tag, *value),
            Command::Drop(tag) => self.release(worker, *tag),
            Command::Get(_) | Command::First | Command::Next(_) | Command::Count => {
                self.look(command)
            }
        }
    }

    // Commands on names that only look.
    fn look(&self, command: &Command) -> Reply
        requires names { IsWithinNames (length self.now.heap.heap.names) command.now }
        requires looks { looks_at_names command.now ≡ true }
        ensures { (worker : ℕ) → CarriesOut self.now worker command.now result self.now }
    {
        law_one_step();
        match command {
            Command::Get(name) => self.heap.get(*name),
            Command::First => self.heap.first(),
            Command::Next(name) => self.heap.next(*name),
            Command::Count => self.heap.count(),
            _ => unreachable!(),
        }
    }
}

// Whether a settle is due after the command with this number.
fn is_settle_due(every: Option<u32>, number: u32) -> bool
    ensures { result ≡ is_settle_due every number }
{
    match every {
        Some(every) => every > 0 && number % every == 0,
        None => false,
    }
}

// No tag is in use.
fn no_holds(alloc: Global) -> Result<Vec<Option<Hold>>, AllocError>
    ensures size { IfOk result (λ holds. length holds.items ≡ 128) }
    ensures none { IfOk result (λ holds. (place : ℕ) → slice_index_or holds.items place None ≡ None) }
{
    let mut holds = Vec::with_capacity(alloc, 128)?;
    for place in 0..128u32 {
        let _ = place;
        holds.push(None)?;
    }
    Ok(holds)
}
