//! Made runs.
ghost use Rattle.std.specs.Prelude.{◌≤◌};

use crate::made;
use kmem_io::{Gate, MemSink};
use std::alloc::Global;
use std::sync::Wait;
use std::test::Fail;
use std::thread::Threads;

// A gate that is always open.
struct Open;

impl Gate for Open {
    fn before(&self, _worker: u32, _command: u32) {}
}

// The summary of a made run.
fn summary<T: Wait + Threads + Sync>(
    rt: &T,
    alloc: Global,
    seed: u64,
    workers: u32,
    commands: u32,
) -> Result<Vec<u8>, Fail>
    requires workers { (1 ≤ workers) × (workers ≤ 16) }
    requires commands { commands ≤ 60000 }
{
    let mut out = MemSink::create(alloc, 512, 4096, &[])?;
    made(rt, alloc, seed, workers, commands, &mut out, &Open)
        .ok()
        .ok_or("a run")?;
    Ok(out.bytes().to_vec(alloc)?)
}

const FIRST_DRAWS: &[u8] =
    b"commands 1\nnew 0\nwas 0\nfull 0\ndel 0\nval 0\nnone 0\nat 0\nn 0\nok 0\ntaken 0\nmany 0\nused 0\nidle 1\nlive 0\n";

#[test]
fn the_first_draws(rt: HostRuntime) -> Result<(), Fail> {
    let text = summary(&rt, rt.alloc(), 0, 1, 1)?;
    assert_eq!(rt; text.as_slice(), FIRST_DRAWS);
    Ok(())
}

// One worker: another run of the same seed has the same summary.
#[test]
fn the_same_gen_twice(rt: HostRuntime) -> Result<(), Fail> {
    let text = summary(&rt, rt.alloc(), 7, 1, 2000)?;
    let again = summary(&rt, rt.alloc(), 7, 1, 2000)?;
    assert!(rt; text.as_slice().starts_with(b"commands 2000\n"));
    assert_eq!(rt; text.as_slice(), again.as_slice());
    Ok(())
}

#[test]
fn a_sink_that_fails(rt: HostRuntime) -> Result<(), Fail> {
    let mut out = MemSink::create(rt.alloc(), 20, 4096, &[])?;
    let ended = made(&rt, rt.alloc(), 0, 1, 1, &mut out, &Open);
    assert!(rt; ended.is_err());
    assert_eq!(rt; out.bytes(), b"commands 1\nnew 0\nwas".as_slice());
    Ok(())
}
