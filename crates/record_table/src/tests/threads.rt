//! Threads that share a table.
ghost use Rattle.std.specs.Prelude.{◌≡◌, ◌+◌, ◌<◌, ◌≤◌};
ghost use Rattle.kmem_text.specs.Grammar.{IsWithinNames};
ghost use Rattle.record_table.specs.Bench.{IsBench, IsAtWork, IsAsking};

use super::moves::{begin, finish, lay};
use super::{Agent, Crew, Dealt, Worker, deal, end, hire, name, run_one};
use crate::RecordTable;
use kmem_buf::Verdict;
use kmem_cache::Cache;
use kmem_text::{Command, Reply, Tag, Value};
use record_heap::RecordKind;
use std::alloc::{AllocError, Global};
use std::sync::Wait;
use std::test::Fail;
use std::thread::{Threads, join};

// How many moves were answered so.
#[derive(Clone, Copy, PartialEq, Eq, Debug)]
struct Verdicts {
    yes: u32,
    no: u32,
    later: u32,
    dont_need: u32,
    dont_know: u32,
}

impl Verdicts {
    fn note(&mut self, verdict: Verdict) {
        let count = match verdict {
            Verdict::Yes => &mut self.yes,
            Verdict::No => &mut self.no,
            Verdict::Later => &mut self.later,
            Verdict::DontNeed => &mut self.dont_need,
            Verdict::DontKnow => &mut self.dont_know,
        };
        *count = count.saturating_add(1);
    }
}

// A thousand times scans desperately, and asks about the first move.
fn move_often<R: Wait>(
    rt: &R,
    table: &RecordTable,
    cache: &Cache<RecordKind>,
    mut agent: Agent,
) -> (Agent, Verdicts)
    requires { IsAsking table.now cache.now agent.mover agent.seat agent.asked }
    ensures { IsAsking table.now cache.now result.0.mover result.0.seat result.0.asked }
{
    let mut verdicts = Verdicts {
        yes: 0,
        no: 0,
        later: 0,
        dont_need: 0,
        dont_know: 0,
    };
    for _scan in 0..1000_u32 {
        if let Some(job) = begin(rt, cache, &mut agent.seat)
            && let Some(told) = finish(rt, table, cache, &mut agent, job)
        {
            verdicts.note(told.verdict);
        }
    }
    (agent, verdicts)
}

// The step of a worker with twenty names of its own, which puts, gets and deletes each; with the reply of a plain map to it.
fn step_of(step: u32, first: u32, x: Value) -> (Command, Reply)
    requires { first ≤ 40 }
    ensures { IsWithinNames 64 result.0 }
{
    let at = name(first + step % 20);
    match step / 20 % 3 {
        0 => (Command::Put(at, x), Reply::New),
        1 => (Command::Get(at), Reply::Val(x)),
        _ => (Command::Del(at), Reply::Gone(x)),
    }
}

// Makes three thousand steps, and counts the replies of a plain map.
fn work<R: Wait>(
    rt: &R,
    table: &RecordTable,
    cache: &Cache<RecordKind>,
    mut worker: Worker,
    first: u32,
    x: Value,
) -> (Worker, u32)
    requires of { IsAtWork table.now cache.now worker.session worker.seat }
    requires names { first ≤ 40 }
    ensures { IsAtWork table.now cache.now result.0.session result.0.seat }
{
    let mut right = 0_u32;
    for step in 0..3000_u32 {
        let (command, reply) = step_of(step, first, x);
        if run_one(rt, table, cache, &mut worker, command) == Some(reply) {
            right = right.saturating_add(1);
        }
    }
    (worker, right)
}

fn both_work<R: Threads + Wait + Sync>(
    rt: &R,
    table: &RecordTable,
    cache: &Cache<RecordKind>,
    one: Worker,
    two: Worker,
    x: Value,
) -> ((Worker, u32), (Worker, u32))
    requires one { IsAtWork table.now cache.now one.session one.seat }
    requires two { IsAtWork table.now cache.now two.session two.seat }
    ensures one { IsAtWork table.now cache.now result.0.0.session result.0.0.seat }
    ensures two { IsAtWork table.now cache.now result.1.0.session result.1.0.seat }
{
    join(
        rt,
        move || -> (Worker, u32)
            requires { IsAtWork table.now cache.now one.session one.seat }
            ensures { IsAtWork table.entry.now cache.entry.now result.0.session result.0.seat }
        { work(rt, table, cache, one, 0, x) },
        move || -> (Worker, u32)
            requires { IsAtWork table.now cache.now two.session two.seat }
            ensures { IsAtWork table.entry.now cache.entry.now result.0.session result.0.seat }
        { work(rt, table, cache, two, 20, x) },
    )
}

// What comes back of the three threads.
#[derive(Drop)]
struct Returned {
    crew: Crew,
    right: (u32, u32),
    verdicts: Verdicts,
}

fn all_three<R: Threads + Wait + Sync>(
    rt: &R,
    table: &RecordTable,
    cache: &Cache<RecordKind>,
    crew: Crew,
    x: Value,
) -> Returned
    requires one { IsAtWork table.now cache.now crew.one.session crew.one.seat }
    requires two { IsAtWork table.now cache.now crew.two.session crew.two.seat }
    requires agent { IsAsking table.now cache.now crew.agent.mover crew.agent.seat crew.agent.asked }
    ensures one { IsAtWork table.now cache.now result.crew.one.session result.crew.one.seat }
    ensures two { IsAtWork table.now cache.now result.crew.two.session result.crew.two.seat }
    ensures agent { IsAsking table.now cache.now result.crew.agent.mover result.crew.agent.seat result.crew.agent.asked }
{
    let Crew { one, two, agent } = crew;
    let (worked, moved) = join(
        rt,
        move || -> ((Worker, u32), (Worker, u32))
            requires { IsAtWork table.now cache.now one.session one.seat ×
                IsAtWork table.now cache.now two.session two.seat }
            ensures { IsAtWork table.entry.now cache.entry.now result.0.0.session result.0.0.seat ×
                IsAtWork table.entry.now cache.entry.now result.1.0.session result.1.0.seat }
        { both_work(rt, table, cache, one, two, x) },
        move || -> (Agent, Verdicts)
            requires { IsAsking table.now cache.now agent.mover agent.seat agent.asked }
            ensures { IsAsking table.entry.now cache.entry.now result.0.mover result.0.seat result.0.asked }
        { move_often(rt, table, cache, agent) },
    );
    let (first, second) = worked;
    let (one, right_one) = first;
    let (two, right_two) = second;
    let (agent, verdicts) = moved;
    Returned {
        crew: Crew { one, two, agent },
        right: (right_one, right_two),
        verdicts,
    }
}

// Closes the table in another thread: how many records live, and how long the history is.
fn end_elsewhere<R: Threads + Wait + Sync>(
    rt: &R,
    alloc: Global,
    made: Dealt,
    crew: Crew,
) -> Result<(u32, usize), AllocError>
    requires one { IsAtWork made.table made.cache crew.one.session crew.one.seat }
    requires two { IsAtWork made.table made.cache crew.two.session crew.two.seat }
    requires agent { IsAsking made.table made.cache crew.agent.mover crew.agent.seat crew.agent.asked }
{
    let (counts, ()) = join(
        rt,
        move || -> Result<(u32, usize), AllocError>
            requires { IsAtWork made.table made.cache crew.one.session crew.one.seat ×
                IsAtWork made.table made.cache crew.two.session crew.two.seat ×
                IsAsking made.table made.cache crew.agent.mover crew.agent.seat crew.agent.asked }
        {
            let (heap, log) = end(alloc, made, crew)?;
            Ok((heap.live(), log.entries().len()))
        },
        || (),
    );
    counts
}

// What a run of the three threads came to: the replies of a plain map, the verdicts, and what the table is closed with.
type Came = ((u32, u32), Verdicts, (u32, usize));

fn run_three<R: Threads + Wait + Sync>(
    rt: &R,
    alloc: Global,
    mut made: Dealt,
    x: Value,
) -> Result<Option<Came>, AllocError>
    requires { IsBench made.table made.cache made.sessions.items made.movers.items made.seats.items }
{
    let Some(crew) = hire(&mut made) else {
        return Ok(None);
    };
    let Returned {
        crew,
        right,
        verdicts,
    } = all_three(rt, &made.table, &made.cache, crew, x);
    Ok(Some((right, verdicts, end_elsewhere(rt, alloc, made, crew)?)))
}

// Nothing is held, fixed or left over, whatever order the threads come to.
#[test]
fn two_workers_and_a_mover(rt: HostRuntime) -> Result<(), Fail> {
    let x = Value::from_bytes(b"x").ok_or("a value")?;
    let made = deal(rt.alloc(), 3000)?;
    let (right, verdicts, closed) = run_three(&rt, rt.alloc(), made, x)?.ok_or("a crew")?;
    assert_eq!(rt; right, (3000, 3000));
    assert_eq!(rt;
        (verdicts.no, verdicts.later, verdicts.dont_need),
        (0, 0, 0)
    );
    assert_eq!(rt; closed, (0, 6000));
    Ok(())
}

// Reads what the tag holds a thousand times, and counts how often the value was there.
fn read_often<R: Wait>(
    rt: &R,
    table: &RecordTable,
    cache: &Cache<RecordKind>,
    mut worker: Worker,
    tag: Tag,
    x: Value,
) -> u32
    requires { IsAtWork table.now cache.now worker.session worker.seat }
{
    let mut found = 0_u32;
    for _turn in 0..1000_u32 {
        if run_one(rt, table, cache, &mut worker, Command::Read(tag)) == Some(Reply::Val(x)) {
            found = found.saturating_add(1);
        }
    }
    found
}

fn read_beside<R: Threads + Wait + Sync>(
    rt: &R,
    table: &RecordTable,
    cache: &Cache<RecordKind>,
    worker: Worker,
    agent: Agent,
    tag: Tag,
    x: Value,
) -> (u32, (Agent, Verdicts))
    requires worker { IsAtWork table.now cache.now worker.session worker.seat }
    requires agent { IsAsking table.now cache.now agent.mover agent.seat agent.asked }
{
    join(
        rt,
        move || -> u32
            requires { IsAtWork table.now cache.now worker.session worker.seat }
        { read_often(rt, table, cache, worker, tag, x) },
        move || -> (Agent, Verdicts)
            requires { IsAsking table.now cache.now agent.mover agent.seat agent.asked }
        { move_often(rt, table, cache, agent) },
    )
}

// Puts a record, holds it, and reads it while it is moved: how often the value was there, and the verdicts.
fn hold_and_read<R: Threads + Wait + Sync>(
    rt: &R,
    alloc: Global,
    made: &mut Dealt,
    x: Value,
) -> Result<Option<(u32, Verdicts)>, AllocError>
    requires { IsBench made.old.table made.old.cache made.old.sessions.items made.old.movers.items made.old.seats.items }
{
    let tag = Tag::new(3);
    let Some(crew) = hire(made) else {
        return Ok(None);
    };
    let Crew {
        mut one,
        two: _,
        mut agent,
    } = crew;
    let (table, cache) = (&made.table, &made.cache);
    lay(rt, alloc, table, cache, &mut one, &mut agent, x)?;
    run_one(rt, table, cache, &mut one, Command::Hold(tag, name(0)));
    let (found, moved) = read_beside(rt, table, cache, one, agent, tag, x);
    let (_agent, verdicts) = moved;
    Ok(Some((found, verdicts)))
}

// The record's slab is asked three times and then counts as stuck; so does the other one, of whose first buffer nothing is known. Of the two
// the one with fewer buffers out is asked from then on.
#[test]
fn a_worker_reads_through_a_thousand_moves(rt: HostRuntime) -> Result<(), Fail> {
    let x = Value::from_bytes(b"x").ok_or("a value")?;
    let mut made = deal(rt.alloc(), 2000)?;
    let (found, verdicts) = hold_and_read(&rt, rt.alloc(), &mut made, x)?.ok_or("a crew")?;
    assert_eq!(rt; found, 1000);
    let wanted = Verdicts {
        yes: 0,
        no: 0,
        later: 997,
        dont_need: 0,
        dont_know: 3,
    };
    assert_eq!(rt; verdicts, wanted);
    Ok(())
}
