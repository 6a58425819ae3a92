//! Worked rows of moves that commands come between.
ghost use Rattle.std.specs.Prelude.{◌≡◌};
ghost use Rattle.record_table.specs.Bench.{IsBench, IsAtWork, IsAsking};

use super::moves::{Told, begin, finish, lay};
use super::{Agent, Dealt, Worker, deal, end, hire, name, run_one};
use crate::RecordTable;
use kmem_buf::Verdict;
use kmem_cache::Cache;
use kmem_text::{Command, Reply, Tag, Value};
use record_heap::RecordKind;
use std::alloc::{AllocError, Global};
use std::sync::Wait;
use std::test::Fail;

// What a row's commands and moves came to.
type Seen = ([Option<Reply>; 4], [Option<Told>; 2]);

// The object of a pending move goes, and another comes into its buffer by way of a magazine.
fn use_again<R: Wait>(
    rt: &R,
    alloc: Global,
    table: &RecordTable,
    cache: &Cache<RecordKind>,
    worker: &mut Worker,
    agent: &mut Agent,
    values: [Value; 2],
) -> Result<Seen, AllocError>
    requires worker { IsAtWork table.now cache.now worker.old.session worker.old.seat }
    requires agent { IsAsking table.now cache.now agent.old.mover agent.old.seat agent.old.asked }
    ensures worker { IsAtWork table.now cache.now worker.new.session worker.new.seat }
    ensures agent { IsAsking table.now cache.now agent.new.mover agent.new.seat agent.new.asked }
{
    let [x, y] = values;
    let new = lay(rt, alloc, table, cache, worker, agent, x)?;
    let Some(job) = begin(rt, cache, &mut agent.seat) else {
        return Ok(([new, None, None, None], [None, None]));
    };
    let del = run_one(rt, table, cache, worker, Command::Del(name(0)));
    let put = run_one(rt, table, cache, worker, Command::Put(name(1), y));
    let told = finish(rt, table, cache, agent, job);
    let get = run_one(rt, table, cache, worker, Command::Get(name(1)));
    Ok(([new, del, put, get], [told, None]))
}

// The row, and where the name 1 lies in the heap at the end.
fn again_row<R: Wait>(
    rt: &R,
    alloc: Global,
    mut made: Dealt,
    values: [Value; 2],
) -> Result<(Seen, Option<u32>), AllocError>
    requires { IsBench made.table made.cache made.sessions.items made.movers.items made.seats.items }
{
    let Some(mut crew) = hire(&mut made) else {
        return Ok((([None; 4], [None; 2]), None));
    };
    let seen = use_again(
        rt,
        alloc,
        &made.table,
        &made.cache,
        &mut crew.one,
        &mut crew.agent,
        values,
    )?;
    let (heap, _log) = end(alloc, made, crew)?;
    Ok((seen, heap.address(name(1))))
}

#[test]
fn a_buffer_used_again_under_a_pending_move(rt: HostRuntime) -> Result<(), Fail> {
    let x = Value::from_bytes(b"x").ok_or("a value")?;
    let y = Value::from_bytes(b"y").ok_or("a value")?;
    let made = deal(rt.alloc(), 10)?;
    let (seen, address) = again_row(&rt, rt.alloc(), made, [x, y])?;
    let (replies, told) = seen;
    let wanted = [Reply::New, Reply::Gone(x), Reply::New, Reply::Val(y)];
    assert_eq!(rt; replies, wanted.map(Some));
    assert_eq!(rt;
        told,
        [
            Some(Told {
                verdict: Verdict::Yes,
                from: 4,
                to: 1,
                back: [Some(4), None]
            }),
            None
        ]
    );
    assert_eq!(rt; address, Some(1));
    Ok(())
}

// The object of a pending move goes, and its buffer stands in a magazine when the mover is asked about it.
fn ask_of_a_round<R: Wait>(
    rt: &R,
    alloc: Global,
    table: &RecordTable,
    cache: &Cache<RecordKind>,
    worker: &mut Worker,
    agent: &mut Agent,
    x: Value,
) -> Result<(Option<Reply>, Option<Told>), AllocError>
    requires worker { IsAtWork table.now cache.now worker.old.session worker.old.seat }
    requires agent { IsAsking table.now cache.now agent.old.mover agent.old.seat agent.old.asked }
{
    lay(rt, alloc, table, cache, worker, agent, x)?;
    let Some(job) = begin(rt, cache, &mut agent.seat) else {
        return Ok((None, None));
    };
    let del = run_one(rt, table, cache, worker, Command::Del(name(0)));
    Ok((del, finish(rt, table, cache, agent, job)))
}

fn magazine_row<R: Wait>(
    rt: &R,
    alloc: Global,
    made: &mut Dealt,
    x: Value,
) -> Result<(Option<Reply>, Option<Told>), AllocError>
    requires { IsBench made.old.table made.old.cache made.old.sessions.items made.old.movers.items made.old.seats.items }
{
    let Some(mut crew) = hire(made) else {
        return Ok((None, None));
    };
    let (table, cache) = (&made.table, &made.cache);
    ask_of_a_round(rt, alloc, table, cache, &mut crew.one, &mut crew.agent, x)
}

#[test]
fn a_buffer_in_a_magazine_is_unknown(rt: HostRuntime) -> Result<(), Fail> {
    let x = Value::from_bytes(b"x").ok_or("a value")?;
    let mut made = deal(rt.alloc(), 10)?;
    let (del, told) = magazine_row(&rt, rt.alloc(), &mut made, x)?;
    assert_eq!(rt; del, Some(Reply::Gone(x)));
    assert_eq!(rt;
        told,
        Some(Told {
            verdict: Verdict::DontKnow,
            from: 4,
            to: 1,
            back: [Some(1), None]
        })
    );
    Ok(())
}

// Begins a move and asks about it at once.
fn ask_once<R: Wait>(
    rt: &R,
    table: &RecordTable,
    cache: &Cache<RecordKind>,
    agent: &mut Agent,
) -> Option<Told>
    requires of { IsAsking table.now cache.now agent.old.mover agent.old.seat agent.old.asked }
    ensures of { IsAsking table.now cache.now agent.new.mover agent.new.seat agent.new.asked }
{
    let job = begin(rt, cache, &mut agent.seat)?;
    finish(rt, table, cache, agent, job)
}

// One worker holds a record, and the other deletes its name.
fn hold_through<R: Wait>(
    rt: &R,
    alloc: Global,
    table: &RecordTable,
    cache: &Cache<RecordKind>,
    one: &mut Worker,
    two: &mut Worker,
    agent: &mut Agent,
    x: Value,
) -> Result<Seen, AllocError>
    requires one { IsAtWork table.now cache.now one.old.session one.old.seat }
    requires two { IsAtWork table.now cache.now two.old.session two.old.seat }
    requires agent { IsAsking table.now cache.now agent.old.mover agent.old.seat agent.old.asked }
{
    let tag = Tag::new(0);
    lay(rt, alloc, table, cache, one, agent, x)?;
    let hold = run_one(rt, table, cache, one, Command::Hold(tag, name(0)));
    let del = run_one(rt, table, cache, two, Command::Del(name(0)));
    let later = ask_once(rt, table, cache, agent);
    let read = run_one(rt, table, cache, one, Command::Read(tag));
    let end = run_one(rt, table, cache, one, Command::Drop(tag));
    let unneeded = ask_once(rt, table, cache, agent);
    Ok(([hold, del, read, end], [later, unneeded]))
}

fn hold_row<R: Wait>(rt: &R, alloc: Global, made: &mut Dealt, x: Value) -> Result<Seen, AllocError>
    requires { IsBench made.old.table made.old.cache made.old.sessions.items made.old.movers.items made.old.seats.items }
{
    let Some(mut crew) = hire(made) else {
        return Ok(([None; 4], [None; 2]));
    };
    let (table, cache) = (&made.table, &made.cache);
    hold_through(
        rt,
        alloc,
        table,
        cache,
        &mut crew.one,
        &mut crew.two,
        &mut crew.agent,
        x,
    )
}

// A held record can't be moved; once it is let go it isn't needed.
#[test]
fn a_hold_through_moves(rt: HostRuntime) -> Result<(), Fail> {
    let x = Value::from_bytes(b"x").ok_or("a value")?;
    let mut made = deal(rt.alloc(), 10)?;
    let (replies, told) = hold_row(&rt, rt.alloc(), &mut made, x)?;
    let wanted = [Reply::Done, Reply::Gone(x), Reply::Val(x), Reply::Done];
    assert_eq!(rt; replies, wanted.map(Some));
    let later = Told {
        verdict: Verdict::Later,
        from: 4,
        to: 1,
        back: [Some(1), None],
    };
    let unneeded = Told {
        verdict: Verdict::DontNeed,
        from: 4,
        to: 1,
        back: [Some(4), Some(1)],
    };
    assert_eq!(rt; told, [Some(later), Some(unneeded)]);
    Ok(())
}
