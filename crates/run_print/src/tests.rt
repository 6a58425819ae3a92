//! The history of two workers, printed whole and in front.

use crate::{Page, print_run};
use kmem_io::MemSink;
use kmem_model::RecordEntry;
use kmem_text::{Command, Reply, Value, read_script};
use std::alloc::Global;
use std::test::Fail;

const TEXT: &[u8] =
    b"=== replies\n1 1 new\n1 2 val x\n2 1 new\n2 2 full\n=== history\n1 1\n2 1\n2 2\n1 2\n";

// Prints four entries of two workers into a sink with so much room, and tells what it holds.
fn printed(alloc: Global, room: usize) -> Result<Vec<u8>, Fail> {
    let script = read_script(alloc, b"", 2).ok().ok_or("a script")?;
    let value = Value::from_bytes(b"x").ok_or("a value")?;
    let entry = |number: u32, reply: Reply| RecordEntry {
        number,
        command: Command::Count,
        reply,
    };
    let entries = [
        (0, entry(1, Reply::New)),
        (1, entry(1, Reply::New)),
        (1, entry(2, Reply::Full)),
        (0, entry(2, Reply::Val(value))),
    ];
    let mut page = Page::create(alloc)?;
    let mut sink = MemSink::create(alloc, room, 7, &[])?;
    let _ = print_run(&script, 2, &entries, &mut page, &mut sink);
    Ok(sink.bytes().to_vec(alloc)?)
}

#[test]
fn two_workers(rt: HostRuntime) -> Result<(), Fail> {
    assert_eq!(rt; printed(rt.alloc(), 100)?.as_slice(), TEXT);
    assert_eq!(rt; printed(rt.alloc(), 30)?.as_slice(), &TEXT[..30]);
    Ok(())
}
