//! A table over a cache of 32 slabs of four buffers, with two workers and a mover.
ghost use Rattle.std.specs.Prelude.{◌≡◌, ◌+◌, ◌*◌, ◌<◌, ◌≤◌, ◌^◌, length, All, IfOk, IfSome};
ghost use Rattle.kmem_text.specs.Grammar.{IsWithinNames};
ghost use Rattle.kmem_cache.specs.Seats.{IsCacheSeat};
ghost use Rattle.record_table.specs.Sessions.{IsFreshSession};
ghost use Rattle.record_table.specs.Asks.{IsMoverOf, IsFreshMover};
ghost use Rattle.record_table.specs.Bench.{IsBench, IsSetUp, IsAtWork, IsAsking};

use crate::{Mover, RecordLog, RecordTable, Session};
use kmem_cache::{Cache, CacheSeat};
use kmem_text::{Command, NameId, Reply};
use object_cache::ObjectCache;
use record_heap::{RecordHeap, RecordKind};
use slab_source::Supply;
use std::alloc::{AllocError, Global};
use std::sync::Wait;

mod moves;
mod rows;
mod threads;

// A worker's session, with its seat of the cache.
#[derive(Drop)]
struct Worker {
    session: Session,
    seat: CacheSeat<RecordKind>,
}

// The mover, with its own, and how often it was asked.
#[derive(Drop)]
struct Agent {
    mover: Mover,
    seat: CacheSeat<RecordKind>,
    asked: u32,
}

// Carries out one command, if the session and its seat have enough left.
fn run_one<R: Wait>(
    rt: &R,
    table: &RecordTable,
    cache: &Cache<RecordKind>,
    worker: &mut Worker,
    command: Command,
) -> Option<Reply>
    requires of { IsAtWork table.now cache.now worker.old.session worker.old.seat }
    requires names { IsWithinNames 64 command }
    ensures of { IsAtWork table.now cache.now worker.new.session worker.new.seat }
{
    if worker.session.left() == 0 || worker.seat.left() < 2 {
        return None;
    }
    let _ = worker.session.made();
    let session = &mut worker.session;
    Some(session.run(rt, table, cache, &mut worker.seat, &command))
}

// A table and its cache, with what they deal.
#[derive(Drop)]
struct Dealt {
    table: RecordTable,
    cache: Cache<RecordKind>,
    sessions: Vec<Session>,
    movers: Vec<Mover>,
    seats: Vec<CacheSeat<RecordKind>>,
}

fn deal(alloc: Global, commands: u32) -> Result<Dealt, AllocError>
    requires { commands ≤ 100000 }
    ensures bench { IfOk result (λ b. IsBench b.table b.cache b.sessions.items b.movers.items b.seats.items) }
{
    let supply = Supply::create(alloc, 32)?;
    let objects = ObjectCache::create(alloc, RecordKind, supply, 32, 4, 64)?;
    let home = objects.home();
    let quotas = [5000, 2 * commands, 2 * commands];
    let (cache, seats) = Cache::create(alloc, objects, 1, &quotas)?;
    let scripts = [commands, commands];
    let (table, sessions, movers) = RecordTable::create(alloc, home, 64, 128, &scripts, 1)?;
    Ok(Dealt {
        table,
        cache,
        sessions,
        movers,
        seats,
    })
}

// A worker with the last session and the last seat.
fn next_worker(
    table: &RecordTable,
    cache: &Cache<RecordKind>,
    sessions: &mut Vec<Session>,
    seats: &mut Vec<CacheSeat<RecordKind>>,
) -> Option<Worker>
    requires set_up { IsSetUp table.now cache.now }
    requires of { All (λ s. s.pass.site ≡ table.now) sessions.old.items }
    requires fresh { All IsFreshSession sessions.old.items }
    requires seats { All (IsCacheSeat cache.now) seats.old.items }
    ensures worker { IfSome result (λ w. IsAtWork table.now cache.now w.session w.seat) }
    ensures of { All (λ s. s.pass.site ≡ table.now) sessions.new.items }
    ensures fresh { All IsFreshSession sessions.new.items }
    ensures seats { All (IsCacheSeat cache.now) seats.new.items }
{
    let session = sessions.pop()?;
    let seat = seats.pop()?;
    Some(Worker { session, seat })
}

// The mover, with the last seat.
fn next_agent(
    table: &RecordTable,
    cache: &Cache<RecordKind>,
    movers: &mut Vec<Mover>,
    seats: &mut Vec<CacheSeat<RecordKind>>,
) -> Option<Agent>
    requires set_up { IsSetUp table.now cache.now }
    requires of { All (IsMoverOf table.now) movers.old.items }
    requires fresh { All IsFreshMover movers.old.items }
    requires seats { All (IsCacheSeat cache.now) seats.old.items }
    ensures agent { IfSome result (λ a. IsAsking table.now cache.now a.mover a.seat a.asked) }
{
    let mover = movers.pop()?;
    let seat = seats.pop()?;
    Some(Agent {
        mover,
        seat,
        asked: 0,
    })
}

// Two workers and the mover.
#[derive(Drop)]
struct Crew {
    one: Worker,
    two: Worker,
    agent: Agent,
}

fn hire(made: &mut Dealt) -> Option<Crew>
    requires { IsBench made.old.table made.old.cache made.old.sessions.items made.old.movers.items made.old.seats.items }
    ensures one { IfSome result (λ c. IsAtWork made.new.table made.new.cache c.one.session c.one.seat) }
    ensures two { IfSome result (λ c. IsAtWork made.new.table made.new.cache c.two.session c.two.seat) }
    ensures agent { IfSome result (λ c. IsAsking made.new.table made.new.cache c.agent.mover c.agent.seat c.agent.asked) }
{
    let (table, cache) = (&made.table, &made.cache);
    let one = next_worker(table, cache, &mut made.sessions, &mut made.seats)?;
    let two = next_worker(table, cache, &mut made.sessions, &mut made.seats)?;
    let agent = next_agent(table, cache, &mut made.movers, &mut made.seats)?;
    Some(Crew { one, two, agent })
}

// Ends the table.
fn close(
    alloc: Global,
    table: RecordTable,
    one: Session,
    two: Session,
    mover: Mover,
) -> Result<(RecordHeap, RecordLog), AllocError>
    requires count { table.count ≡ 3 }
    requires names { table.home.names ≡ 64 }
    requires one { one.pass.site ≡ table }
    requires two { two.pass.site ≡ table }
    requires mover { mover.pass.site ≡ table }
    ensures names { IfOk result (λ r. length r.0.heap.names ≡ 64) }
{
    let mut sessions = Vec::new(alloc);
    sessions.push(one)?;
    sessions.push(two)?;
    let mut movers = Vec::new(alloc);
    movers.push(mover)?;
    Ok(table.close(sessions, movers))
}

// The same, with what else there is let go.
fn end(alloc: Global, made: Dealt, crew: Crew) -> Result<(RecordHeap, RecordLog), AllocError>
    requires one { IsAtWork made.table made.cache crew.one.session crew.one.seat }
    requires two { IsAtWork made.table made.cache crew.two.session crew.two.seat }
    requires agent { IsAsking made.table made.cache crew.agent.mover crew.agent.seat crew.agent.asked }
    ensures names { IfOk result (λ r. length r.0.heap.names ≡ 64) }
{
    let Crew { one, two, agent } = crew;
    let Worker {
        session: one,
        seat: _,
    } = one;
    let Worker {
        session: two,
        seat: _,
    } = two;
    let Agent {
        mover,
        seat: _,
        asked: _,
    } = agent;
    let Dealt {
        table,
        cache: _,
        sessions: _,
        movers: _,
        seats: _,
    } = made;
    close(alloc, table, one, two, mover)
}

fn name(id: u32) -> NameId
    requires { id < 64 }
    ensures { result.0 ≡ id }
{
    NameId(id)
}
