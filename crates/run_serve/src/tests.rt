//! Many small runs on threads, each of which `check` finds legal.
ghost use Rattle.std.specs.Prelude.{◌≤◌, length};
ghost use Rattle.kmem_text.specs.Grammar.{IsWithinNames};
ghost use Rattle.run_engine.specs.Quotas.{IsInPlan};

use crate::serve;
use generator::{generate, write_line};
use kmem_io::{Gate, MemSink, MemSource};
use kmem_model::{CacheEntry, RecordEntry, Said};
use kmem_text::{Command, Line, Reply, Script};
use run_check::check;
use run_engine::RunPlan;
use std::alloc::{AllocError, Global};
use std::sync::Wait;
use std::test::Fail;
use std::thread::Threads;

// A gate that is always open.
struct Open;

impl Gate for Open {
    fn before(&self, _number: u32, _step: u32) {}
}

// The script of a seed, as text.
fn made_text(alloc: Global, seed: u64, workers: u32) -> Result<Vec<u8>, AllocError>
    requires { (1 ≤ workers) × (workers ≤ 16) }
{
    let script = generate(alloc, seed, workers, 300)?;
    let mut text = Vec::new(alloc);
    for index in 0..script.lines.len() {
        push_line(&script, &script.lines[index], &mut text)?;
    }
    Ok(text)
}

fn push_line(script: &Script, line: &Line, text: &mut Vec<u8>) -> Result<(), AllocError>
    requires names { IsWithinNames (length script.now.names.items) line.now.command }
{
    let mut room = [0; 640];
    let len = write_line(script, line, &mut room);
    if let Some(piece) = room.get(..len) {
        text.extend_from_slice(piece)?;
    }
    Ok(())
}

// Runs a script, and gives it with the printed run behind it to `check`.
fn run_and_check<T: Threads + Wait + Sync>(
    rt: &T,
    alloc: Global,
    plan: RunPlan,
    script: &[u8],
) -> Result<Vec<u8>, Fail>
    requires { IsInPlan plan }
{
    let workers = plan.workers;
    let mut input = MemSource::create(alloc, script, 4096, &[])?;
    let mut out = MemSink::create(alloc, 65_536, 4096, &[])?;
    serve(rt, alloc, plan, &mut input, &mut out, &Open)
        .ok()
        .ok_or("a run")?;
    verdict_on(alloc, workers, script, out.bytes())
}

// What `check` says of a script and the run that was printed.
fn verdict_on(alloc: Global, workers: u32, script: &[u8], printed: &[u8]) -> Result<Vec<u8>, Fail>
    requires { (1 ≤ workers) × (workers ≤ 16) }
{
    let mut told = script.to_vec(alloc)?;
    told.extend_from_slice(b"=== run\n")?;
    told.extend_from_slice(printed)?;
    let mut input = MemSource::create(alloc, &told, 4096, &[])?;
    let mut verdict = MemSink::create(alloc, 64, 64, &[])?;
    check(alloc, workers, &mut input, &mut verdict)
        .ok()
        .ok_or("a legal run")?;
    Ok(verdict.bytes().to_vec(alloc)?)
}

// Two to four workers on a cache that is often full, beside movers that scan all the time.
#[test]
fn many_small_runs_are_legal(rt: HostRuntime) -> Result<(), Fail> {
    for seed in 0..24u32 {
        let plan = RunPlan {
            slabs: 8,
            chunks: 4,
            workers: 2 + seed % 3,
            scans: 40,
            desperate: true,
        };
        let script = made_text(rt.alloc(), u64::from(seed), plan.workers)?;
        let verdict = run_and_check(&rt, rt.alloc(), plan, &script)?;
        assert_eq!(rt; verdict.as_slice(), b"legal\n".as_slice());
    }
    Ok(())
}

// A command of a worker on one of its own names, which end in a number of three digits.
fn push_command(
    text: &mut Vec<u8>,
    worker: u8,
    word: &[u8],
    number: u32,
    rest: &[u8],
) -> Result<(), AllocError>
    requires worker { worker ≤ 9 }
    requires number { number ≤ 999 }
{
    text.push(b'0' + worker)?;
    text.extend_from_slice(word)?;
    text.push(b'a' + worker)?;
    text.push(b'0' + (number / 100) as u8)?;
    text.push(b'0' + (number / 10 % 10) as u8)?;
    text.push(b'0' + (number % 10) as u8)?;
    text.extend_from_slice(rest)
}

// A worker's peak, of which each tenth record stays and one is held, and gets behind it.
fn push_peak(text: &mut Vec<u8>, worker: u8) -> Result<(), AllocError>
    requires { worker ≤ 9 }
{
    for number in 0..200 {
        push_command(text, worker, b" put ", number, b" v\n")?;
    }
    push_command(text, worker, b" hold 0 ", 100, b"\n")?;
    for number in 0..200 {
        if number % 10 != 0 {
            push_command(text, worker, b" del ", number, b"\n")?;
        }
    }
    for number in 0..760 {
        push_command(text, worker, b" get ", number % 20 * 10, b"\n")?;
    }
    text.push(b'0' + worker)?;
    text.extend_from_slice(b" read 0\n")
}

// Four workers with a peak each, one after another in the text.
fn peaks(alloc: Global) -> Result<Vec<u8>, AllocError> {
    let mut text = Vec::new(alloc);
    for worker in 1..5 {
        push_peak(&mut text, worker)?;
    }
    Ok(text)
}

// Runs four peaks beside twenty scans. The last scans begin once nine tenths of all commands are carried out, so that each worker's
// peak is behind it: records have moved while the workers ran, and each hold reads what it held.
fn run_peaks<T: Threads + Wait + Sync>(
    rt: &T,
    alloc: Global,
    desperate: bool,
) -> Result<Vec<u8>, Fail> {
    let plan = RunPlan {
        slabs: 64,
        chunks: 16,
        workers: 4,
        scans: 20,
        desperate,
    };
    let script = peaks(alloc)?;
    let mut input = MemSource::create(alloc, &script, 4096, &[])?;
    let mut out = MemSink::create(alloc, 262_144, 4096, &[])?;
    let ran = serve(rt, alloc, plan, &mut input, &mut out, &Open)
        .ok()
        .ok_or("a run")?;
    let moves = ran.cache.entries().iter().filter(|entry| is_move(&entry.1));
    let reads = ran
        .records
        .entries()
        .iter()
        .filter(|entry| is_read(&entry.1));
    if moves.count() == 0 || reads.count() != 4 {
        return Err(Fail::from("moves while the workers ran, and four reads"));
    }
    verdict_on(alloc, 4, &script, out.bytes())
}

fn is_move(entry: &CacheEntry) -> bool {
    matches!(entry, CacheEntry::End(_, Said::Yes))
}

// Whether it is a read by a tag that found what was put.
fn is_read(entry: &RecordEntry) -> bool {
    match (entry.command, entry.reply) {
        (Command::Read(_), Reply::Val(value)) => value.as_bytes() == b"v".as_slice(),
        _ => false,
    }
}

#[test]
fn records_move_while_workers_run(rt: HostRuntime) -> Result<(), Fail> {
    for desperate in [false, true] {
        let verdict = run_peaks(&rt, rt.alloc(), desperate)?;
        assert_eq!(rt; verdict.as_slice(), b"legal\n".as_slice());
    }
    Ok(())
}
