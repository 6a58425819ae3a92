//! Runs over streams in memory.
mod faults;
mod settles;

use crate::Open;
use crate::status::Status;
use crate::top::top;
use kmem_io::{MemSink, MemSource};
use std::alloc::Global;
use std::sync::Wait;
use std::test::Fail;
use std::thread::Threads;

/// What a run over streams in memory ended with and wrote.
#[derive(Drop)]
struct Shown {
    status: Status,
    out: MemSink,
    err: MemSink,
}

/// How the streams of a run fail: at which calls the input does, and how many bytes there is room for in the output and in the line.
#[derive(Drop)]
struct Streams<'a> {
    reads: &'a [u32],
    out: usize,
    err: usize,
}

/// A run whose streams give and take a byte a call.
fn run_by_bytes<T: Wait + Threads + Sync>(
    rt: &T,
    alloc: Global,
    words: &[&str],
    input: &[u8],
    streams: Streams<'_>,
) -> Result<Shown, Fail> {
    let mut source = MemSource::create(alloc, input, 1, streams.reads)?;
    let mut out = MemSink::create(alloc, streams.out, 1, &[])?;
    let mut err = MemSink::create(alloc, streams.err, 1, &[])?;
    let ended = top(rt, alloc, words, &mut source, &mut out, &mut err, &Open);
    Ok(Shown {
        status: ended.status,
        out,
        err,
    })
}

/// A run whose streams take and give what they are asked.
fn run_in_memory<T: Wait + Threads + Sync>(
    rt: &T,
    alloc: Global,
    words: &[&str],
    input: &[u8],
) -> Result<Shown, Fail> {
    let mut source = MemSource::create(alloc, input, 4096, &[])?;
    let mut out = MemSink::create(alloc, 4096, 4096, &[])?;
    let mut err = MemSink::create(alloc, 4096, 4096, &[])?;
    let ended = top(rt, alloc, words, &mut source, &mut out, &mut err, &Open);
    Ok(Shown {
        status: ended.status,
        out,
        err,
    })
}

/// Words, an input, and what `one` writes.
#[test]
fn worked_rows(rt: HostRuntime) -> Result<(), Fail> {
    let first = (
        ["one", "2", "2"],
        b"1 put a x\n1 get a\n".as_slice(),
        b"new\nval x\n".as_slice(),
    );
    let empty = (["one", "2", "2"], b"".as_slice(), b"".as_slice());
    let full = (
        ["one", "1", "2"],
        b"1 put a x\n1 put b y\n1 put c z\n1 del a\n1 put c z\n1 count\n".as_slice(),
        b"new\nnew\nfull\ndel x\nnew\nn 2\n".as_slice(),
    );
    let replaces = (
        ["one", "1", "1"],
        b"1 put a x\n1 put a y\n1 get a\n".as_slice(),
        b"new\nwas x\nval y\n".as_slice(),
    );
    let longest = (
        ["one", "2", "2"],
        b"1 put aaaaaaaaaabbbbbbbbbbccccccccccdd aaaaaaaaaabbbbbbbbbbccccccccccddddddddddeeeeeeeeeeffffffffffgggg\n".as_slice(),
        b"new\n".as_slice(),
    );
    let comments = (
        ["one", "2", "2"],
        b"# c\r\n1 put a x\r\n\r\n1 get a".as_slice(),
        b"new\nval x\n".as_slice(),
    );
    let outlives = (
        ["one", "1", "1"],
        b"1 put a x\n1 hold 0 a\n1 del a\n1 read 0\n1 put b y\n1 drop 0\n1 put b y\n1 read 0\n".as_slice(),
        b"new\nok\ndel x\nval x\nfull\nok\nnew\nidle\n".as_slice(),
    );
    let in_order = (
        ["one", "4", "4"],
        b"1 put b x\n1 put d y\n1 next b\n1 next d\n1 next c\n1 next zz\n1 first\n".as_slice(),
        b"new\nnew\nat d y\nnone\nat d y\nnone\nat b x\n".as_slice(),
    );
    let tags = (
        ["one", "4", "4"],
        b"1 put a x\n1 hold 0 a\n1 hold 0 a\n1 hold 1 zz\n1 drop 0\n1 drop 0\n1 write 0 q\n2 read 0\n".as_slice(),
        b"new\nok\nused\nnone\nok\nidle\nidle\nidle\n".as_slice(),
    );
    for (words, input, output) in [
        first, empty, full, replaces, longest, comments, outlives, in_order, tags,
    ] {
        let ran = run_in_memory(&rt, rt.alloc(), words.as_slice(), input)?;
        assert_eq!(rt; ran.status, Status::Fine);
        assert_eq!(rt; ran.out.bytes(), output);
        assert!(rt; ran.err.bytes().is_empty());
    }
    Ok(())
}

const PAIR: &[u8] = b"1 put a x\n2 put b y\n1 get a\n2 get b\n";

const PAIR_REPLIES: &[u8] = b"=== replies\n1 1 new\n1 2 val x\n2 1 new\n2 2 val y\n=== history\n";

const PAIR_REPORT: &[u8] =
    b"=== report\nbuffers 64\nlive 2\nslabs 1\nfree 6\nscans 1\nbegun 0\nmoves yes 0 no 0 later 0 dontneed 0 dontknow 0 gone 0\nsettle yes 0 no 0 later 0 dontneed 0 dontknow 0 gone 0\nslab 0 used 2\n";

/// Two workers on threads: what is printed, and that `check` finds it legal.
#[test]
fn run_on_threads(rt: HostRuntime) -> Result<(), Fail> {
    let alloc = rt.alloc();
    for mode in [
        ["run", "8", "8", "2", "1"].as_slice(),
        &["run", "8", "8", "2", "1", "desperate"],
    ] {
        let ran = run_in_memory(&rt, alloc, mode, PAIR)?;
        assert_eq!(rt; ran.status, Status::Fine);
        assert!(rt; ran.out.bytes().starts_with(PAIR_REPLIES));
        assert!(rt; ran.out.bytes().ends_with(PAIR_REPORT));
        let mut whole = PAIR.to_vec(alloc)?;
        whole.extend_from_slice(b"=== run\n")?;
        whole.extend_from_slice(ran.out.bytes())?;
        let told = run_in_memory(&rt, alloc, &["check", "2"], whole.as_slice())?;
        assert_eq!(rt; told.out.bytes(), b"legal\n".as_slice());
    }
    Ok(())
}

/// A run on threads whose sink fails writes a front, and one whose source fails writes nothing.
#[test]
fn a_run_with_failing_streams(rt: HostRuntime) -> Result<(), Fail> {
    let alloc = rt.alloc();
    let words = ["run", "8", "8", "2", "1"];
    let cases = [
        ([9].as_slice(), [3].as_slice(), Status::WriteFault, 24),
        ([1].as_slice(), [9].as_slice(), Status::ReadFault, 0),
    ];
    for (reads, writes, status, most) in cases {
        let mut source = MemSource::create(alloc, PAIR, 64, reads)?;
        let mut out = MemSink::create(alloc, 4096, 12, writes)?;
        let mut err = MemSink::create(alloc, 64, 4, &[])?;
        let ended = top(&rt, alloc, &words, &mut source, &mut out, &mut err, &Open);
        assert_eq!(rt; ended.status, status);
        assert!(rt; out.bytes().len() <= most);
        assert!(rt; PAIR_REPLIES.starts_with(out.bytes()));
    }
    Ok(())
}

/// Words without a plan, before any input is read.
fn refused<T: Wait + Threads + Sync>(rt: &T, alloc: Global, words: &[&str]) -> Result<bool, Fail> {
    let ran = run_in_memory(rt, alloc, words, b"1 put a x\n")?;
    let told = ran.err.bytes() == b"kmemrun: usage\n".as_slice();
    Ok(ran.status == Status::Usage && told && ran.out.bytes().is_empty())
}

#[test]
fn usage(rt: HostRuntime) -> Result<(), Fail> {
    let lists = [
        ["one", "0", "2"],
        ["one", "02", "2"],
        ["one", "4096", "64"],
        ["two", "2", "2"],
    ];
    for words in lists {
        assert!(rt; refused(&rt, rt.alloc(), words.as_slice())?, "at {words:?}");
    }
    assert!(rt; refused(&rt, rt.alloc(), &[])?);
    assert!(rt; refused(&rt, rt.alloc(), &["help"])?);
    assert!(rt; refused(&rt, rt.alloc(), &["--help"])?);
    assert!(rt; refused(&rt, rt.alloc(), &["one"])?);
    assert!(rt; refused(&rt, rt.alloc(), &["one", "2"])?);
    assert!(rt; refused(&rt, rt.alloc(), &["one", "--", "2", "2"])?);
    assert!(rt; refused(&rt, rt.alloc(), &["one", "+2", "2"])?);
    assert!(rt; refused(&rt, rt.alloc(), &["one", "", "2"])?);
    assert!(rt; refused(&rt, rt.alloc(), &["one", "2", "2", "-1"])?);
    assert!(rt; refused(&rt, rt.alloc(), &["one", "2", "2", "100001"])?);
    assert!(rt; refused(&rt, rt.alloc(), &["one", "2", "2", "1", "1"])?);
    assert!(rt; refused(&rt, rt.alloc(), &["run", "8", "8", "2", "1", "mild"])?);
    assert!(rt; refused(&rt, rt.alloc(), &["run", "8", "8", "+2", "1"])?);
    assert!(rt; refused(&rt, rt.alloc(), &["gen", "0", "1"])?);
    assert!(rt; refused(&rt, rt.alloc(), &["gen", "0", "1", "60001"])?);
    assert!(rt; refused(&rt, rt.alloc(), &["check"])?);
    assert!(rt; refused(&rt, rt.alloc(), &["check", "0"])?);
    assert!(rt; refused(&rt, rt.alloc(), &["check", "17"])?);
    assert!(rt; refused(&rt, rt.alloc(), &["check", "01"])?);
    assert!(rt; refused(&rt, rt.alloc(), &["check", "1", "1"])?);
    assert!(rt; refused(&rt, rt.alloc(), &["check", "help"])?);
    assert!(rt; refused(&rt, rt.alloc(), &["check", "one", "2", "2"])?);
    Ok(())
}

/// The first run with a sink that takes 4 bytes a call and fails at its third, and with a source that fails at once.
#[test]
fn failing_sink_and_source(rt: HostRuntime) -> Result<(), Fail> {
    let alloc = rt.alloc();
    let script = b"1 put a x\n1 get a\n".as_slice();
    let words = ["one", "2", "2"];
    let cases = [
        (
            [9].as_slice(),
            [3].as_slice(),
            Status::WriteFault,
            b"new\nval ".as_slice(),
            b"kmemrun: write fault\n".as_slice(),
        ),
        (
            [1].as_slice(),
            [9].as_slice(),
            Status::ReadFault,
            b"".as_slice(),
            b"kmemrun: read fault\n".as_slice(),
        ),
    ];
    for (reads, writes, status, text, told) in cases {
        let mut source = MemSource::create(alloc, script, 4, reads)?;
        let mut out = MemSink::create(alloc, 64, 4, writes)?;
        let mut err = MemSink::create(alloc, 64, 4, &[])?;
        let ended = top(
            &rt,
            alloc,
            words.as_slice(),
            &mut source,
            &mut out,
            &mut err,
            &Open,
        );
        assert_eq!(rt; ended.status, status);
        assert_eq!(rt; out.bytes(), text);
        assert_eq!(rt; err.bytes(), told);
    }

    // A line that can't be written leaves the status.
    let mut source = MemSource::create(alloc, script, 4, &[])?;
    let mut out = MemSink::create(alloc, 64, 4, &[])?;
    let mut err = MemSink::create(alloc, 64, 4, &[2])?;
    let ended = top(&rt, alloc, &["one"], &mut source, &mut out, &mut err, &Open);
    assert_eq!(rt; ended.status, Status::Usage);
    assert_eq!(rt; err.bytes(), b"kmem".as_slice());
    Ok(())
}

/// A run of two workers as it is printed, checked; then one of its lines another, and then the run alone cut short.
#[test]
fn checked_runs(rt: HostRuntime) -> Result<(), Fail> {
    let legal =
        b"1 put a x\n2 get a\n=== run\n=== replies\n1 1 new\n2 1 none\n=== history\n2 1\n1 1\n=== report\n".as_slice();
    let wrong =
        b"1 put a x\n2 get a\n=== run\n=== replies\n1 1 new\n2 1 none\n=== history\n1 1\n2 1\n=== report\n".as_slice();
    let short = b"1 put a x\n2 get a\n=== run\n=== replies\n1 1 new\n".as_slice();
    let cases = [
        (legal, Status::Fine, b"legal\n".as_slice(), b"".as_slice()),
        (
            wrong,
            Status::Illegal,
            b"".as_slice(),
            b"kmemrun: illegal line 9\n".as_slice(),
        ),
        (
            short,
            Status::Illegal,
            b"".as_slice(),
            b"kmemrun: illegal line 6\n".as_slice(),
        ),
        (
            b"1 put a x\n".as_slice(),
            Status::Illegal,
            b"".as_slice(),
            b"kmemrun: illegal line 2\n".as_slice(),
        ),
        (
            b"3 put a x\n".as_slice(),
            Status::BadScript,
            b"".as_slice(),
            b"kmemrun: line 1: worker\n".as_slice(),
        ),
    ];
    for (input, status, text, told) in cases {
        let ran = run_in_memory(&rt, rt.alloc(), &["check", "2"], input)?;
        assert_eq!(rt; ran.status, status);
        assert_eq!(rt; ran.out.bytes(), text);
        assert_eq!(rt; ran.err.bytes(), told);
    }
    Ok(())
}

/// Lines with the check that fails first, and a good neighbour of each.
#[test]
fn bad_lines(rt: HostRuntime) -> Result<(), Fail> {
    let long_name = b"1 count\n1 get aaaaaaaaaabbbbbbbbbbccccccccccddd".as_slice();
    let longest_name = b"1 get aaaaaaaaaabbbbbbbbbbccccccccccdd".as_slice();
    let long_value =
        b"1 count\n1 put a aaaaaaaaaabbbbbbbbbbccccccccccddddddddddeeeeeeeeeeffffffffffggggg".as_slice();
    let longest_value =
        b"1 put a aaaaaaaaaabbbbbbbbbbccccccccccddddddddddeeeeeeeeeeffffffffffgggg".as_slice();
    let cases = [
        (
            b"0 get a".as_slice(),
            b"kmemrun: line 1: worker\n".as_slice(),
            b"1 get a".as_slice(),
        ),
        (
            b"17 get a".as_slice(),
            b"kmemrun: line 1: worker\n".as_slice(),
            b"16 get a".as_slice(),
        ),
        (
            b"01 get a".as_slice(),
            b"kmemrun: line 1: worker\n".as_slice(),
            b"10 get a".as_slice(),
        ),
        (
            b"get a".as_slice(),
            b"kmemrun: line 1: worker\n".as_slice(),
            b"2 get a".as_slice(),
        ),
        (
            b"1".as_slice(),
            b"kmemrun: line 1: command\n".as_slice(),
            b"1 count".as_slice(),
        ),
        (
            b"1 got a".as_slice(),
            b"kmemrun: line 1: command\n".as_slice(),
            b"1 get a".as_slice(),
        ),
        (
            b"1 links a b".as_slice(),
            b"kmemrun: line 1: command\n".as_slice(),
            b"1 link a b".as_slice(),
        ),
        (
            b"1 read".as_slice(),
            b"kmemrun: line 1: words\n".as_slice(),
            b"1 read 0".as_slice(),
        ),
        (
            b"1 hold 8 A".as_slice(),
            b"kmemrun: line 1: tag\n".as_slice(),
            b"1 hold 7 a".as_slice(),
        ),
        (
            b"1 write 00 x".as_slice(),
            b"kmemrun: line 1: tag\n".as_slice(),
            b"1 write 0 x".as_slice(),
        ),
        (
            b"1 put a".as_slice(),
            b"kmemrun: line 1: words\n".as_slice(),
            b"1 put a x".as_slice(),
        ),
        (
            b"1 put a x y z z z".as_slice(),
            b"kmemrun: line 1: words\n".as_slice(),
            b"1 put a x".as_slice(),
        ),
        (
            b"1 count a".as_slice(),
            b"kmemrun: line 1: words\n".as_slice(),
            b"1 count".as_slice(),
        ),
        (
            b"1 get A".as_slice(),
            b"kmemrun: line 1: name\n".as_slice(),
            b"1 get a-_.9".as_slice(),
        ),
        (
            b"1 put A \x1F".as_slice(),
            b"kmemrun: line 1: name\n".as_slice(),
            b"1 put a !~".as_slice(),
        ),
        (
            b"1 put a \x7F".as_slice(),
            b"kmemrun: line 1: value\n".as_slice(),
            b"1 put a #".as_slice(),
        ),
        (
            b"1 get a\rb".as_slice(),
            b"kmemrun: line 1: name\n".as_slice(),
            b"1 get a\r".as_slice(),
        ),
        (
            b"1 get a\r\r\n".as_slice(),
            b"kmemrun: line 1: name\n".as_slice(),
            b"1 get a\r\n".as_slice(),
        ),
        (
            b"# c\n\n \t\n1 get #\n2 got".as_slice(),
            b"kmemrun: line 4: name\n".as_slice(),
            b"#\n\t 1 \t get  a \t\n".as_slice(),
        ),
        (
            long_name,
            b"kmemrun: line 2: name\n".as_slice(),
            longest_name,
        ),
        (
            long_value,
            b"kmemrun: line 2: value\n".as_slice(),
            longest_value,
        ),
    ];
    for (bad, told, good) in cases {
        let ran = run_in_memory(&rt, rt.alloc(), &["one", "2", "2"], bad)?;
        assert_eq!(rt; ran.status, Status::BadScript, "at {bad:?}");
        assert!(rt; ran.out.bytes().is_empty());
        assert_eq!(rt; ran.err.bytes(), told, "at {bad:?}");
        let taken = run_in_memory(&rt, rt.alloc(), &["one", "2", "2"], good)?;
        assert_eq!(rt; taken.status, Status::Fine, "at {good:?}");
    }
    Ok(())
}

/// A hundred thousand commands, and one more.
#[test]
fn as_many_commands_as_there_can_be(rt: HostRuntime) -> Result<(), Fail> {
    let alloc = rt.alloc();
    let mut input = Vec::new(alloc);
    for _ in 0..100_000 {
        input.extend_from_slice(b"1 count\n")?;
    }
    for status in [Status::Fine, Status::Limit] {
        let mut source = MemSource::create(alloc, &input, 65536, &[])?;
        let mut out = MemSink::create(alloc, 400_000, 65536, &[])?;
        let mut err = MemSink::create(alloc, 64, 64, &[])?;
        let ended = top(
            &rt,
            alloc,
            &["one", "2", "2"],
            &mut source,
            &mut out,
            &mut err,
            &Open,
        );
        assert_eq!(rt; ended.status, status);
        let len = if status == Status::Fine { 400_000 } else { 0 };
        assert_eq!(rt; out.bytes().len(), len);
        input.extend_from_slice(b"1 count\n")?;
    }
    Ok(())
}
