//! Runs of two workers, of a worker beside a mover, and of sixteen.
ghost use Rattle.std.specs.Prelude.{◌≤◌};
ghost use Rattle.run_engine.specs.Quotas.{IsInPlan};

use crate::{OpenRun, Ran, RunPlan};
use kmem_io::{Gate, MemSink};
use kmem_model::CacheEntry;
use kmem_text::{Reply, Value, read_script};
use std::alloc::{AllocError, Global};
use std::sync::Wait;
use std::test::Fail;
use std::thread::Threads;

mod gates;

use gates::{Hold, Meeting, Open};

// What a run hands out and prints.
#[derive(Drop)]
struct Done {
    ran: Ran,
    text: Vec<u8>,
}

// Runs a script with this gate.
fn run_with<T: Threads + Wait + Sync, G: Gate>(
    rt: &T,
    alloc: Global,
    plan: RunPlan,
    script: &[u8],
    gate: &G,
) -> Result<Done, Fail>
    requires { IsInPlan plan }
{
    if script.len() > 16_777_216 {
        return Err(Fail::from("a script that is too long"));
    }
    let script = read_script(alloc, script, plan.workers)
        .ok()
        .ok_or("a script")?;
    let run = OpenRun::create(alloc, plan, script)?;
    let mut out = MemSink::create(alloc, 65_536, 4096, &[])?;
    let ran = run.go(rt, &mut out, gate).ok().ok_or("a sink with room")?;
    let text = out.bytes().to_vec(alloc)?;
    Ok(Done { ran, text })
}

const TWO: RunPlan = RunPlan {
    slabs: 8,
    chunks: 8,
    workers: 2,
    scans: 1,
    desperate: false,
};

const PAIR: &[u8] = b"1 put a x\n2 put b y\n1 get a\n2 get b\n";

const PAIR_REPLIES: &[u8] = b"=== replies\n1 1 new\n1 2 val x\n2 1 new\n2 2 val y\n=== history\n";

const PAIR_REPORT: &[u8] =
    b"=== report\nbuffers 64\nlive 2\nslabs 1\nfree 6\nscans 1\nbegun 0\nmoves yes 0 no 0 later 0 dontneed 0 dontknow 0 gone 0\nsettle yes 0 no 0 later 0 dontneed 0 dontknow 0 gone 0\nslab 0 used 2\n";

#[test]
fn two_workers(rt: HostRuntime) -> Result<(), Fail> {
    let done = run_with(&rt, rt.alloc(), TWO, PAIR, &Open)?;
    let text = done.text.as_slice();
    assert!(rt; text.starts_with(PAIR_REPLIES));
    assert!(rt; text.ends_with(PAIR_REPORT));
    assert_eq!(rt; text.len(), PAIR_REPLIES.len() + 16 + PAIR_REPORT.len());
    assert_eq!(rt; done.ran.records.entries().len(), 4);
    assert_eq!(rt; done.ran.moves.len(), 2);
    Ok(())
}

// Each worker is held at a step until the other has come to one: they run beside each other.
#[test]
fn two_workers_beside_each_other(rt: HostRuntime) -> Result<(), Fail> {
    let gate = Meeting {
        one: Hold::new((1, 1), (2, 2)),
        other: Hold::new((2, 2), (1, 1)),
    };
    run_with(&rt, rt.alloc(), TWO, PAIR, &gate)?;
    assert!(rt; gate.is_met());
    Ok(())
}

// As many buffers as puts, and 64 more: no put is refused.
#[test]
fn room_for_all_puts(rt: HostRuntime) -> Result<(), Fail> {
    let plan = RunPlan {
        slabs: 9,
        scans: 4,
        ..TWO
    };
    let script =
        b"1 put a v\n1 put b v\n1 put c v\n1 put d v\n2 put e v\n2 put f v\n2 put g v\n2 put h v\n";
    let done = run_with(&rt, rt.alloc(), plan, script, &Open)?;
    let entries = done.ran.records.entries();
    assert_eq!(rt; entries.len(), 8);
    assert!(rt; entries.iter().all(|entry| entry.1.reply == Reply::New));
    Ok(())
}

// A command on a name that is told by a number of two digits.
fn push_command(text: &mut Vec<u8>, word: &[u8], number: u8, rest: &[u8]) -> Result<(), AllocError>
    requires { number ≤ 99 }
{
    text.extend_from_slice(word)?;
    text.push(b'0' + number / 10)?;
    text.push(b'0' + number % 10)?;
    text.extend_from_slice(rest)
}

// Forty-eight records, of which each eighth stays, and two looks at the last of these.
fn sparse_script(alloc: Global) -> Result<Vec<u8>, AllocError> {
    let mut text = Vec::new(alloc);
    for number in 0..48 {
        push_command(&mut text, b"1 put n", number, b" v\n")?;
    }
    for number in 0..48 {
        if number % 8 != 0 {
            push_command(&mut text, b"1 del n", number, b"\n")?;
        }
    }
    push_command(&mut text, b"1 get n", 40, b"\n")?;
    push_command(&mut text, b"1 get n", 40, b"\n")?;
    Ok(text)
}

const SPARSE_REPORT: &[u8] =
    b"=== report\nbuffers 64\nlive 6\nslabs 1\nfree 2\nscans 1\nbegun 3\nmoves yes 3 no 0 later 0 dontneed 0 dontknow 0 gone 0\nsettle yes 3 no 0 later 0 dontneed 0 dontknow 0 gone 0\nslab 2 used 6\n";

// The mover's scan is held until the worker has come to its first look, and the second look until the scan.
#[test]
fn the_mover_beside_a_worker(rt: HostRuntime) -> Result<(), Fail> {
    let plan = RunPlan {
        workers: 1,
        desperate: true,
        ..TWO
    };
    let gate = Meeting {
        one: Hold::new((2, 1), (1, 91)),
        other: Hold::new((1, 92), (2, 1)),
    };
    let script = sparse_script(rt.alloc())?;
    let done = run_with(&rt, rt.alloc(), plan, script.as_slice(), &gate)?;
    assert!(rt; gate.is_met());
    assert!(rt; done.text.as_slice().ends_with(SPARSE_REPORT));
    let looked = Reply::Val(Value::from_bytes(b"v").ok_or("a value")?);
    let entries = done.ran.records.entries();
    assert_eq!(rt; entries.len(), 92);
    assert!(rt; entries[90..].iter().all(|entry| entry.1.reply == looked));
    Ok(())
}

// Sixteen workers put, look and delete on a cache that is too small, beside a thousand scans.
#[test]
fn sixteen_workers(rt: HostRuntime) -> Result<(), Fail> {
    let plan = RunPlan {
        slabs: 4,
        chunks: 4,
        workers: 16,
        scans: 1000,
        desperate: true,
    };
    let mut script = Vec::new(rt.alloc());
    for worker in 1..17u8 {
        for number in 0..8 {
            push_worker(&mut script, worker, b" put n", number, b" v\n")?;
            push_worker(&mut script, worker, b" get n", number, b"\n")?;
            push_worker(&mut script, worker, b" del n", number, b"\n")?;
        }
    }
    let done = run_with(&rt, rt.alloc(), plan, script.as_slice(), &Open)?;
    assert_eq!(rt; done.ran.records.entries().len(), 384);
    let cache = done.ran.cache.entries().iter();
    let scans = cache.filter(|entry| matches!(entry.1, CacheEntry::Scan(_)));
    assert_eq!(rt; scans.count(), 1000);
    Ok(())
}

// The same of a worker whose number has two digits at most.
fn push_worker(
    text: &mut Vec<u8>,
    worker: u8,
    word: &[u8],
    number: u8,
    rest: &[u8],
) -> Result<(), AllocError>
    requires worker { worker ≤ 99 }
    requires number { number ≤ 99 }
{
    if worker >= 10 {
        text.push(b'0' + worker / 10)?;
    }
    text.push(b'0' + worker % 10)?;
    push_command(text, word, number, rest)
}
