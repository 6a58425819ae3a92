//! A fault at each call of each stream.
ghost use Rattle.std.specs.Prelude.{◌≡◌};

use super::{Streams, run_by_bytes};
use crate::Open;
use crate::status::Status;
use crate::top::top;
use kmem_io::{StdSink, StdSource};
use std::io;
use std::io::{Read, Write};
use std::test::Fail;

/// Words, an input, and what they write.
const CASES: [(&[&str], &[u8], &[u8]); 2] = [
    (&["one", "2", "2"], b"1 put a x\n1 get a\n", b"new\nval x\n"),
    (
        &["check", "1"],
        b"1 count\n=== run\n=== replies\n1 1 n 0\n=== history\n1 1\n=== report\n",
        b"legal\n",
    ),
];

/// The input gives a byte a call, and fails at each call in turn; the last is the one that finds its end.
#[test]
fn a_read_fault_at_each_call(rt: HostRuntime) -> Result<(), Fail> {
    for (words, input, _) in CASES {
        for call in 0..input.len() as u32 + 1 {
            let streams = Streams {
                reads: &[call + 1],
                out: 64,
                err: 64,
            };
            let ran = run_by_bytes(&rt, rt.alloc(), words, input, streams)?;
            assert_eq!(rt; ran.status, Status::ReadFault);
            assert_eq!(rt; ran.out.bytes(), b"".as_slice());
            assert_eq!(rt; ran.err.bytes(), b"kmemrun: read fault\n".as_slice());
        }
    }
    Ok(())
}

/// There is room for each smaller number of bytes: so many are written.
#[test]
fn a_write_fault_at_each_byte(rt: HostRuntime) -> Result<(), Fail> {
    for (words, input, text) in CASES {
        for room in 0..text.len() {
            let streams = Streams {
                reads: &[],
                out: room,
                err: 64,
            };
            let ran = run_by_bytes(&rt, rt.alloc(), words, input, streams)?;
            assert_eq!(rt; ran.status, Status::WriteFault);
            assert_eq!(rt; ran.out.bytes(), &text[..room]);
            assert_eq!(rt; ran.err.bytes(), b"kmemrun: write fault\n".as_slice());
        }
    }
    Ok(())
}

/// The line can't be written whole: a front of it stands, and the status is the same.
#[test]
fn a_line_that_is_cut_short(rt: HostRuntime) -> Result<(), Fail> {
    let line = b"kmemrun: line 2: words\n".as_slice();
    for room in 0..line.len() {
        let streams = Streams {
            reads: &[],
            out: 64,
            err: room,
        };
        let ran = run_by_bytes(
            &rt,
            rt.alloc(),
            &["one", "2", "2"],
            b"1 count\n1 get\n",
            streams,
        )?;
        assert_eq!(rt; ran.status, Status::BadScript);
        assert_eq!(rt; ran.err.bytes(), &line[..room]);
    }
    Ok(())
}

/// A run on threads and a made one, with room for each tenth of their texts: a front of so many bytes is written.
#[test]
fn runs_cut_short(rt: HostRuntime) -> Result<(), Fail> {
    let input = b"1 put a x\n2 put b y\n1 get a\n2 get b\n".as_slice();
    let cases: [(&[&str], usize); 2] = [
        (&["run", "8", "8", "2", "1"], 23),
        (&["gen", "0", "1", "1"], 9),
    ];
    for (words, tenth) in cases {
        for part in 0..10usize {
            let streams = Streams {
                reads: &[],
                out: tenth * part,
                err: 64,
            };
            let ran = run_by_bytes(&rt, rt.alloc(), words, input, streams)?;
            assert_eq!(rt; ran.status, Status::WriteFault);
            assert_eq!(rt; ran.out.bytes().len(), tenth * part);
        }
    }
    Ok(())
}

/// A made run reads nothing: an input that fails at once is as good as any.
#[test]
fn the_first_draws(rt: HostRuntime) -> Result<(), Fail> {
    let streams = Streams {
        reads: &[1],
        out: 128,
        err: 64,
    };
    let ran = run_by_bytes(&rt, rt.alloc(), &["gen", "0", "1", "1"], b"", streams)?;
    assert_eq!(rt; ran.status, Status::Fine);
    assert!(rt; ran.out.bytes().starts_with(b"commands 1\nnew 0\n"));
    assert!(rt; ran.out.bytes().ends_with(b"idle 1\nlive 0\n"));
    Ok(())
}

/// A stream that always fails.
#[derive(Drop)]
struct Broken;

impl Read for Broken {
    fn read(&mut self, _buffer: &mut [u8]) -> io::Result<usize> {
        Err(io::Error::from(io::ErrorKind::Other))
    }
}

impl Write for Broken {
    fn write(&mut self, _piece: &[u8]) -> io::Result<usize> {
        Err(io::Error::from(io::ErrorKind::Other))
    }

    fn flush(&mut self) -> io::Result<()> {
        Ok(())
    }
}

const LAST_BUT_ONE: u64 = u64::MAX - 1;

fn broken_sink() -> StdSink<Broken>
    ensures { result.faults ≡ 18446744073709551614 }
{
    StdSink {
        writer: Broken,
        faults: LAST_BUT_ONE,
    }
}

/// The input's count of faults stands at its last value but one, and so does that of the line: both fail once more.
#[test]
fn a_read_fault_at_the_last_count_but_one(rt: HostRuntime) -> Result<(), Fail> {
    let mut input = StdSource {
        reader: Broken,
        faults: LAST_BUT_ONE,
    };
    let (mut out, mut err) = (broken_sink(), broken_sink());
    let words = ["one", "2", "2"];
    let ended = top(
        &rt,
        rt.alloc(),
        &words,
        &mut input,
        &mut out,
        &mut err,
        &Open,
    );
    assert_eq!(rt; ended.status, Status::ReadFault);
    assert_eq!(rt;
        (input.faults, out.faults, err.faults),
        (u64::MAX, LAST_BUT_ONE, u64::MAX)
    );
    Ok(())
}

/// The same for the output.
#[test]
fn a_write_fault_at_the_last_count_but_one(rt: HostRuntime) -> Result<(), Fail> {
    let mut input = StdSource {
        reader: b"1 count\n".as_slice(),
        faults: LAST_BUT_ONE,
    };
    let (mut out, mut err) = (broken_sink(), broken_sink());
    let words = ["one", "2", "2"];
    let ended = top(
        &rt,
        rt.alloc(),
        &words,
        &mut input,
        &mut out,
        &mut err,
        &Open,
    );
    assert_eq!(rt; ended.status, Status::WriteFault);
    assert_eq!(rt;
        (input.faults, out.faults, err.faults),
        (LAST_BUT_ONE, u64::MAX, u64::MAX)
    );
    Ok(())
}
