//! Runs of `one` over streams in memory.

use crate::{OpenOne, serve_one};
use kmem_io::{MemSink, MemSource};
use kmem_text::read_script;
use std::test::Fail;

const SCRIPT: &[u8] = b"1 put a x\n1 get a\n";

#[test]
fn an_opened_run(rt: HostRuntime) -> Result<(), Fail> {
    let Ok(script) = read_script(rt.alloc(), SCRIPT, 16) else {
        return Err(Fail::from("a script"));
    };
    let run = OpenOne::create(rt.alloc(), 2, 2, None, script)?;
    let mut out = MemSink::create(rt.alloc(), 64, 64, &[])?;
    assert!(rt; run.go(&mut out).is_ok());
    assert_eq!(rt; out.bytes(), b"new\nval x\n".as_slice());
    Ok(())
}

#[test]
fn a_served_run(rt: HostRuntime) -> Result<(), Fail> {
    let mut input = MemSource::create(rt.alloc(), SCRIPT, 4, &[])?;
    let mut out = MemSink::create(rt.alloc(), 512, 64, &[])?;
    let ended = serve_one(rt.alloc(), 2, 2, Some(0), &mut input, &mut out);
    assert!(rt; ended.is_ok());
    assert!(rt;
        out.bytes()
            .starts_with(b"new\nval x\n=== report\nbuffers 4\nlive 1\n")
    );
    Ok(())
}
