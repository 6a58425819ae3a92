//! Moves of a cache that a table's mover is asked about.
ghost use Rattle.std.specs.Prelude.{◌≡◌, ◌+◌, ◌<◌, ◌≤◌, All, IfOk, IfSome};
ghost use Rattle.kmem_model.specs.Heap.{blank};
ghost use Rattle.magazine.specs.Ready.{IsReady};
ghost use Rattle.object_cache.specs.Moves.{IsJobOf};
ghost use Rattle.kmem_cache.specs.Seats.{IsCacheSeat, buffers_at};
ghost use Rattle.record_table.specs.Bench.{IsAtWork, IsAsking};

use super::{Agent, Worker, name, run_one};
use crate::{Asker, RecordTable};
use kmem_buf::{Answer, Buf, MoveClient, Verdict};
use kmem_cache::{Cache, CacheSeat};
use kmem_text::{Command, Reply, Value};
use object_cache::Job;
use record_heap::RecordKind;
use std::alloc::{AllocError, Global};
use std::sync::Wait;

// Allocates up to so many buffers.
fn take_some<R: Wait>(
    rt: &R,
    alloc: Global,
    cache: &Cache<RecordKind>,
    seat: &mut CacheSeat<RecordKind>,
    count: u32,
) -> Result<Vec<Buf<RecordKind>>, AllocError>
    requires of { IsCacheSeat cache.now seat.old }
    ensures of { IsCacheSeat cache.now seat.new }
    ensures ready { IfOk result (λ held. All (IsReady (λ o. o ≡ blank) (buffers_at cache.now)) held.items) }
{
    let mut held = Vec::new(alloc);
    for _round in 0..count {
        if seat.left() == 0 {
            return Ok(held);
        }
        if let Ok(buf) = cache.alloc(rt, seat) {
            held.push(buf)?;
        }
    }
    Ok(held)
}

// Frees all buffers, the last one first.
fn free_all<R: Wait>(
    rt: &R,
    cache: &Cache<RecordKind>,
    seat: &mut CacheSeat<RecordKind>,
    mut held: Vec<Buf<RecordKind>>,
)
    requires of { IsCacheSeat cache.now seat.old }
    requires ready { All (IsReady (λ o. o ≡ blank) (buffers_at cache.now)) held.items }
    ensures of { IsCacheSeat cache.now seat.new }
{
    while let Some(buf) = held.pop() {
        if seat.left() == 0 {
            return;
        }
        cache.free(rt, seat, buf);
    }
}

// Puts the name 0 into buffer 4, with buffers 1, 5, 6 and 7 free beside it and before it. Buffers 0, 2 and 3 stay out for good; those from 8
// to 31 lie in the mover's magazines and the depot, which are full, so that these four go back to their slabs.
pub fn lay<R: Wait>(
    rt: &R,
    alloc: Global,
    table: &RecordTable,
    cache: &Cache<RecordKind>,
    worker: &mut Worker,
    agent: &mut Agent,
    value: Value,
) -> Result<Option<Reply>, AllocError>
    requires of { IsAtWork table.now cache.now worker.old.session worker.old.seat }
    requires agent { IsAsking table.now cache.now agent.old.mover agent.old.seat agent.old.asked }
    ensures of { IsAtWork table.now cache.now worker.new.session worker.new.seat }
    ensures agent { IsAsking table.now cache.now agent.new.mover agent.new.seat agent.new.asked }
{
    let _zero = take_some(rt, alloc, cache, &mut agent.seat, 1)?;
    let one = take_some(rt, alloc, cache, &mut agent.seat, 1)?;
    let _two_and_three = take_some(rt, alloc, cache, &mut agent.seat, 2)?;
    let reply = run_one(rt, table, cache, worker, Command::Put(name(0), value));
    let behind = take_some(rt, alloc, cache, &mut agent.seat, 27)?;
    free_all(rt, cache, &mut agent.seat, behind);
    free_all(rt, cache, &mut agent.seat, one);
    Ok(reply)
}

// Starts a desperate scan and begins its first move.
pub fn begin<R: Wait>(
    rt: &R,
    cache: &Cache<RecordKind>,
    seat: &mut CacheSeat<RecordKind>,
) -> Option<Job<RecordKind>>
    requires of { IsCacheSeat cache.now seat.old }
    ensures of { IsCacheSeat cache.now seat.new }
    ensures job { IfSome result (IsJobOf (λ o. o ≡ blank) (buffers_at cache.now)) }
{
    if seat.left() < 2 {
        return None;
    }
    cache.start_scan(rt, seat, true);
    cache.begin(rt, seat).ok()
}

// How a move was answered, and which buffers came back.
#[derive(Clone, Copy, PartialEq, Eq, Debug)]
pub struct Told {
    pub verdict: Verdict,
    pub from: u32,
    pub to: u32,
    pub back: [Option<u32>; 2],
}

// The numbers of the buffers that came back.
fn numbers_back(answer: &Answer<RecordKind>) -> [Option<u32>; 2] {
    match answer {
        Answer::Yes(buf) | Answer::No(buf) | Answer::Later(buf) | Answer::DontKnow(buf) => {
            [Some(buf.number()), None]
        }
        Answer::DontNeed(old, new) => [Some(old.number()), Some(new.number())],
    }
}

// Asks about a begun move, and ends it by the answer.
pub fn finish<R: Wait>(
    rt: &R,
    table: &RecordTable,
    cache: &Cache<RecordKind>,
    agent: &mut Agent,
    job: Job<RecordKind>,
) -> Option<Told>
    requires of { IsAsking table.now cache.now agent.old.mover agent.old.seat agent.old.asked }
    requires job { IsJobOf (λ o. o ≡ blank) (buffers_at cache.now) job }
    ensures of { IsAsking table.now cache.now agent.new.mover agent.new.seat agent.new.asked }
{
    if agent.seat.left() == 0 || agent.asked == u32::MAX {
        return None;
    }
    let job = cache.still(rt, &mut agent.seat, job)?;
    let (from, to) = (job.from(), job.to());
    let (pending, buf) = job.part();
    let mut asker = Asker {
        table,
        mover: &mut agent.mover,
    };
    let answer = asker.ask(rt, from, buf);
    let Asker { table: _, mover: _ } = asker;
    agent.asked += 1;
    let (verdict, back) = (answer.verdict(), numbers_back(&answer));
    cache.end(rt, &mut agent.seat, pending, answer);
    Some(Told {
        verdict,
        from,
        to,
        back,
    })
}
