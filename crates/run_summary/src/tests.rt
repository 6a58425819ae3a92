//! A summary of one line of each kind, and that of the first draws.
ghost use Rattle.kmem_io.specs.Streams.{CanRise};

use crate::{law_summary, write_summary};
use kmem_io::{Failed, MemSink};
use kmem_model::RecordEntry;
use kmem_text::{Command, NameId, Reply, Value};
use std::test::Fail;

const ALL: &[u8] =
    b"commands 14\nnew 1\nwas 1\nfull 1\ndel 1\nval 1\nnone 1\nat 1\nn 1\nok 2\ntaken 1\n\
    many 1\nused 1\nidle 1\nlive 4294967295\n";

const FIRST_DRAWS: &[u8] =
    b"commands 1\nnew 0\nwas 0\nfull 0\ndel 0\nval 0\nnone 0\nat 0\nn 0\nok 0\ntaken 0\n\
    many 0\nused 0\nidle 1\nlive 0\n";

fn entry(reply: Reply) -> (u32, RecordEntry) {
    (
        0,
        RecordEntry {
            number: 1,
            command: Command::Count,
            reply,
        },
    )
}

#[test]
fn the_text(rt: HostRuntime) -> Result<(), Fail> {
    let value = Value::from_bytes(b"x").ok_or("a value")?;
    let entries = [
        entry(Reply::Done),
        entry(Reply::New),
        entry(Reply::Was(value)),
        entry(Reply::Full),
        entry(Reply::Gone(value)),
        entry(Reply::Val(value)),
        entry(Reply::Absent),
        entry(Reply::At(NameId(0), value)),
        entry(Reply::Number(7)),
        entry(Reply::Done),
        entry(Reply::Taken),
        entry(Reply::Many),
        entry(Reply::Used),
        entry(Reply::Idle),
    ];
    let mut sink = MemSink::create(rt.alloc(), 1000, 50, &[])?;
    assert_eq!(rt; write_summary(&entries, u32::MAX, &mut sink), Ok(()));
    assert_eq!(rt; sink.bytes(), ALL);
    Ok(())
}

#[test]
fn the_first_draws(rt: HostRuntime) -> Result<(), Fail> {
    let entries = [entry(Reply::Idle)];
    let mut sink = MemSink::create(rt.alloc(), 1000, 50, &[])?;
    assert_eq!(rt; write_summary(&entries, 0, &mut sink), Ok(()));
    assert_eq!(rt; sink.bytes(), FIRST_DRAWS);
    Ok(())
}

#[test]
fn a_sink_that_fails(rt: HostRuntime) -> Result<(), Fail> {
    law_summary();
    let mut sink = MemSink::create(rt.alloc(), 19, 50, &[])?;
    assert_eq!(rt; write_summary(&[], 0, &mut sink), Err(Failed));
    assert_eq!(rt; sink.bytes(), b"commands 0\nnew 0\nwa".as_slice());
    Ok(())
}
