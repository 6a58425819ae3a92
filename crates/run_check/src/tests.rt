//! Runs that are legal and runs that aren't, over streams in memory.

use crate::{Fault, check};
use kmem_io::{MemSink, MemSource};
use kmem_text::LineFault;
use std::alloc::Global;
use std::test::Fail;

/// What `check` answers, and whether it wrote that the run is legal and nothing else.
fn checked(alloc: Global, workers: u32, text: &[u8]) -> Result<(Result<(), Fault>, bool), Fail> {
    if workers > 16 {
        return Err(Fail::from("at most 16 workers"));
    }
    let mut input = MemSource::create(alloc, text, 4096, &[])?;
    let mut out = MemSink::create(alloc, 64, 64, &[])?;
    let answer = check(alloc, workers, &mut input, &mut out);
    let written = out.bytes();
    if written.is_empty() {
        Ok((answer, false))
    } else if written == b"legal\n".as_slice() {
        Ok((answer, true))
    } else {
        Err(Fail::from("nothing, or that the run is legal"))
    }
}

/// The number of the first illegal line, or 0 where the run is legal.
fn illegal_line(alloc: Global, workers: u32, text: &[u8]) -> Result<u32, Fail> {
    match checked(alloc, workers, text)? {
        (Ok(()), true) => Ok(0),
        (Err(Fault::Illegal { line }), false) => Ok(line),
        _ => Err(Fail::from("legal or illegal")),
    }
}

#[test]
fn a_run_checked_by_hand(rt: HostRuntime) -> Result<(), Fail> {
    let rows = [
        (
            b"1 put a x\n1 get a\n=== run\n=== replies\n1 1 new\n1 2 val x\n=== history\n1 1\n1 2\n=== report\n".as_slice(),
            0,
        ),
        (
            b"1 put a x\n1 get a\n=== run\n=== replies\n1 1 new\n1 2 val y\n=== history\n1 1\n1 2\n=== report\n".as_slice(),
            9,
        ),
        (
            b"1 put a x\n1 get a\n=== run\n=== replies\n1 1 new\n1 2 ok\n=== history\n1 1\n1 2\n=== report\n".as_slice(),
            6,
        ),
        // a script without a run, and a run that is cut short
        (b"1 put a x".as_slice(), 2),
        (b"".as_slice(), 1),
        (
            b"1 put a x\n=== run\n=== replies\n1 1 new\n=== history\n1 1\n".as_slice(),
            7,
        ),
        (b"1 put a x\n=== run\n=== replies\n1 1 new\n".as_slice(), 5),
        (b"1 put a x\n=== run\n=== replies\n".as_slice(), 4),
    ];
    for (text, line) in rows {
        assert_eq!(rt; illegal_line(rt.alloc(), 1, text)?, line);
    }
    Ok(())
}

/// Two workers, each line wrong in turn.
#[test]
fn each_line_wrong(rt: HostRuntime) -> Result<(), Fail> {
    let rows = [
        // legal, with carriage returns and with text behind the report
        (
            b"1 put a x\r\n2 get a\r\n1 del a\r\n=== run\r\n=== replies\r\n1 1 new\r\n1 2 del x\r\n2 1 val x\r\n=== history\r\n1 1\r\n2 1\r\n1 2\r\n=== report\r\nmore\n".as_slice(),
            0,
        ),
        // the put refused
        (
            b"1 put a x\n2 get a\n1 del a\n=== run\n=== replies\n1 1 full\n1 2 none\n2 1 none\n=== history\n2 1\n1 1\n1 2\n=== report".as_slice(),
            0,
        ),
        // no header before the replies
        (
            b"1 put a x\n2 get a\n1 del a\n=== run\n1 1 new\n".as_slice(),
            5,
        ),
        // nothing behind `val`
        (
            b"1 put a x\n2 get a\n1 del a\n=== run\n=== replies\n1 1 new\n1 2 del x\n2 1 val\n".as_slice(),
            8,
        ),
        // a reply too few
        (
            b"1 put a x\n2 get a\n1 del a\n=== run\n=== replies\n1 1 new\n1 2 del x\n=== history\n".as_slice(),
            8,
        ),
        // no header before the history
        (
            b"1 put a x\n2 get a\n1 del a\n=== run\n=== replies\n1 1 new\n1 2 del x\n2 1 val x\n1 1\n".as_slice(),
            9,
        ),
        // a number out of turn, and a worker too many
        (
            b"1 put a x\n2 get a\n1 del a\n=== run\n=== replies\n1 1 new\n1 2 del x\n2 1 val x\n=== history\n1 2\n".as_slice(),
            10,
        ),
        (
            b"1 put a x\n2 get a\n1 del a\n=== run\n=== replies\n1 1 new\n1 2 del x\n2 1 val x\n=== history\n3 1\n".as_slice(),
            10,
        ),
        // another order, in which the get finds nothing
        (
            b"1 put a x\n2 get a\n1 del a\n=== run\n=== replies\n1 1 new\n1 2 del x\n2 1 val x\n=== history\n1 1\n1 2\n2 1\n=== report\n".as_slice(),
            12,
        ),
        // a line too many
        (
            b"1 put a x\n2 get a\n1 del a\n=== run\n=== replies\n1 1 new\n1 2 del x\n2 1 val x\n=== history\n1 1\n2 1\n1 2\n1 3\n".as_slice(),
            13,
        ),
    ];
    for (text, line) in rows {
        assert_eq!(rt; illegal_line(rt.alloc(), 2, text)?, line);
    }
    Ok(())
}

/// Replies that a command may not have, and one that isn't right.
#[test]
fn replies_that_are_wrong(rt: HostRuntime) -> Result<(), Fail> {
    let rows = [
        (
            b"1 count\n=== run\n=== replies\n1 1 n 0\n=== history\n1 1\n=== report\n".as_slice(),
            0,
        ),
        (b"1 count\n=== run\n=== replies\n1 1 n 03\n".as_slice(), 4),
        (
            b"1 count\n=== run\n=== replies\n1 1 n 4294967296\n".as_slice(),
            4,
        ),
        (
            b"1 put a x\n1 first\n=== run\n=== replies\n1 1 new\n1 2 at b x\n".as_slice(),
            6,
        ),
        (
            b"1 put a x\n1 first\n=== run\n=== replies\n1 1 new\n1 2 at a x\n=== history\n1 1\n1 2\n=== report\n".as_slice(),
            0,
        ),
        // `full` for a name that is there
        (
            b"1 put a x\n1 put a y\n=== run\n=== replies\n1 1 new\n1 2 full\n=== history\n1 1\n1 2\n=== report\n".as_slice(),
            9,
        ),
        // every command
        (
            b"1 put b x\n1 link b a\n1 hold 0 a\n1 next a\n1 del a\n1 del b\n1 read 0\n1 write 0 y\n1 fix b\n1 drop 0\n1 read 0\n1 loose b\n1 count\n=== run\n=== replies\n1 1 new\n1 2 ok\n1 3 ok\n1 4 at b x\n1 5 del x\n1 6 del x\n1 7 val x\n1 8 was x\n1 9 none\n1 10 ok\n1 11 idle\n1 12 none\n1 13 n 0\n=== history\n1 1\n1 2\n1 3\n1 4\n1 5\n1 6\n1 7\n1 8\n1 9\n1 10\n1 11\n1 12\n1 13\n=== report\n".as_slice(),
            0,
        ),
    ];
    for (text, line) in rows {
        assert_eq!(rt; illegal_line(rt.alloc(), 1, text)?, line);
    }
    Ok(())
}

/// A line of the script that holds the header within it is a bad line.
#[test]
fn a_bad_script(rt: HostRuntime) -> Result<(), Fail> {
    let (answer, said) = checked(rt.alloc(), 1, b"1 count\n=== run \n=== replies\n1 1 n 0\n")?;
    assert!(rt; !said);
    assert_eq!(rt;
        answer,
        Err(Fault::BadScript {
            line: 2,
            fault: LineFault::Worker,
        })
    );
    Ok(())
}
