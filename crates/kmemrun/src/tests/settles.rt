//! Runs with tags and links, and runs that settle, each with its whole output.
use super::run_in_memory;
use crate::status::Status;
use std::alloc::{AllocError, Global};
use std::test::Fail;

/// Tags hold records through the deletion of names, whoever drops first; and the most tags and names that lead to one record.
#[test]
fn tags_and_links(rt: HostRuntime) -> Result<(), Fail> {
    let both_names_go = (
        b"1 put a x\n1 link a b\n1 hold 0 b\n1 del a\n1 del b\n1 read 0\n1 count\n1 drop 0\n".as_slice(),
        b"new\nok\nok\ndel x\ndel x\nval x\nn 0\nok\n".as_slice(),
    );
    let the_first_drops_first = (
        b"1 put a x\n1 hold 0 a\n2 hold 0 a\n1 del a\n1 drop 0\n1 read 0\n2 read 0\n2 drop 0\n".as_slice(),
        b"new\nok\nok\ndel x\nok\nidle\nval x\nok\n".as_slice(),
    );
    let the_second_drops_first = (
        b"1 put a x\n1 hold 0 a\n2 hold 0 a\n1 del a\n2 drop 0\n2 read 0\n1 read 0\n1 drop 0\n".as_slice(),
        b"new\nok\nok\ndel x\nok\nidle\nval x\nok\n".as_slice(),
    );
    let a_get_sees_a_write = (
        b"1 put a x\n2 hold 7 a\n2 write 7 y\n1 get a\n".as_slice(),
        b"new\nok\nwas x\nval y\n".as_slice(),
    );
    let eight_of_each = (
        b"1 put a x\n1 hold 0 a\n1 hold 1 a\n1 hold 2 a\n1 hold 3 a\n1 hold 4 a\n1 hold 5 a\n1 hold 6 a\n1 hold 7 a\n\
          1 link a b\n1 link a c\n1 link a d\n1 link a e\n1 link a f\n1 link a g\n1 link a h\n1 link a i\n1 count\n"
            .as_slice(),
        b"new\nok\nok\nok\nok\nok\nok\nok\nok\nok\nok\nok\nok\nok\nok\nok\nmany\nn 8\n".as_slice(),
    );
    for (input, output) in [
        both_names_go,
        the_first_drops_first,
        the_second_drops_first,
        a_get_sees_a_write,
        eight_of_each,
    ] {
        let ran = run_in_memory(&rt, rt.alloc(), &["one", "4", "4"], input)?;
        assert_eq!(rt; ran.status, Status::Fine);
        assert_eq!(rt; ran.out.bytes(), output);
    }
    Ok(())
}

/// Words, an input, its replies, and the lines of the report that differ from run to run.
#[test]
fn small_settles(rt: HostRuntime) -> Result<(), Fail> {
    let a_leftover_is_not_needed = (
        ["one", "2", "2", "7"],
        b"1 put a x\n1 put b y\n1 put c z\n1 hold 0 c\n1 del c\n1 drop 0\n1 del a\n".as_slice(),
        b"new\nnew\nnew\nok\ndel z\nok\ndel x\n".as_slice(),
        b"live 1\nslabs 1\nfree 1\n".as_slice(),
        b"settle yes 0 no 0 later 0 dontneed 1 dontknow 0 gone 0\nslab 0 used 1\n".as_slice(),
    );
    let a_linked_record_moves = (
        ["one", "2", "2", "1"],
        b"1 put a x\n1 put b y\n1 put c z\n1 link c d\n1 del c\n1 del a\n1 get d\n".as_slice(),
        b"new\nnew\nnew\nok\ndel z\ndel x\nval z\n".as_slice(),
        b"live 2\nslabs 1\nfree 0\n".as_slice(),
        b"settle yes 1 no 0 later 0 dontneed 0 dontknow 0 gone 0\nslab 0 used 2\n".as_slice(),
    );
    let the_last_settle_alone = (
        ["one", "2", "2", "100000"],
        b"1 put a x\n1 put b y\n1 put c z\n1 del a\n".as_slice(),
        b"new\nnew\nnew\ndel x\n".as_slice(),
        b"live 2\nslabs 1\nfree 0\n".as_slice(),
        b"settle yes 1 no 0 later 0 dontneed 0 dontknow 0 gone 0\nslab 0 used 2\n".as_slice(),
    );
    let a_leftover_goes_at_the_end = (
        ["one", "2", "2", "0"],
        b"1 put a x\n1 hold 0 a\n1 del a\n1 drop 0\n".as_slice(),
        b"new\nok\ndel x\nok\n".as_slice(),
        b"live 0\nslabs 0\nfree 0\n".as_slice(),
        b"settle yes 0 no 0 later 0 dontneed 0 dontknow 0 gone 0\n".as_slice(),
    );
    let nothing_can_move = (
        ["one", "2", "2", "0"],
        b"1 put a x\n1 put b y\n1 put c z\n1 del a\n1 fix b\n1 fix c\n".as_slice(),
        b"new\nnew\nnew\ndel x\nok\nok\n".as_slice(),
        b"live 2\nslabs 2\nfree 2\n".as_slice(),
        b"settle yes 0 no 2 later 0 dontneed 0 dontknow 0 gone 0\nslab 0 used 1 stuck 1\nslab 1 used 1 stuck 0\n".as_slice(),
    );
    for (words, input, replies, counts, ends) in [
        a_leftover_is_not_needed,
        a_linked_record_moves,
        the_last_settle_alone,
        a_leftover_goes_at_the_end,
        nothing_can_move,
    ] {
        let ran = run_in_memory(&rt, rt.alloc(), words.as_slice(), input)?;
        let output = with_report(rt.alloc(), replies, b"buffers 4\n", counts, ends)?;
        assert_eq!(rt; ran.status, Status::Fine);
        assert_eq!(rt; ran.out.bytes(), output.as_slice());
    }
    Ok(())
}

/// Three slabs of three with a held record each: five scans put off twelve moves, and each slab keeps its record.
#[test]
fn everything_is_busy(rt: HostRuntime) -> Result<(), Fail> {
    let script =
        b"1 put a x\n1 put b x\n1 put c x\n1 put d x\n1 put e x\n1 put f x\n1 put g x\n1 put h x\n1 put i x\n\
          1 hold 0 a\n1 hold 1 d\n1 hold 2 g\n1 del b\n1 del c\n1 del e\n1 del f\n1 del h\n1 del i\n"
            .as_slice();
    let replies =
        b"new\nnew\nnew\nnew\nnew\nnew\nnew\nnew\nnew\nok\nok\nok\ndel x\ndel x\ndel x\ndel x\ndel x\ndel x\n".as_slice();
    let counts = b"live 3\nslabs 3\nfree 6\n".as_slice();
    let ends = b"settle yes 0 no 0 later 12 dontneed 0 dontknow 0 gone 0\n\
          slab 0 used 1 stuck 0\nslab 1 used 1 stuck 0\nslab 2 used 1 stuck 0\n"
        .as_slice();
    let ran = run_in_memory(&rt, rt.alloc(), &["one", "3", "3", "0"], script)?;
    let output = with_report(rt.alloc(), replies, b"buffers 9\n", counts, ends)?;
    assert_eq!(rt; ran.status, Status::Fine);
    assert_eq!(rt; ran.out.bytes(), output.as_slice());
    Ok(())
}

/// The replies, and a report whose mover did nothing.
fn with_report(
    alloc: Global,
    replies: &[u8],
    buffers: &[u8],
    counts: &[u8],
    ends: &[u8],
) -> Result<Vec<u8>, AllocError> {
    let mut output = Vec::new(alloc);
    let idle =
        b"scans 0\nbegun 0\nmoves yes 0 no 0 later 0 dontneed 0 dontknow 0 gone 0\n".as_slice();
    for part in [replies, b"=== report\n", buffers, counts, idle, ends] {
        output.extend_from_slice(part)?;
    }
    Ok(output)
}

/// Six slabs of eight are filled, and one record in eight stays.
fn peak(alloc: Global) -> Result<Vec<u8>, AllocError> {
    let mut script = Vec::new(alloc);
    for n in 0..48u8 {
        let digits = [b'0' + n / 10, b'0' + n % 10];
        for part in [b"1 put n".as_slice(), digits.as_slice(), b" v\n"] {
            script.extend_from_slice(part)?;
        }
    }
    for n in 0..48u8 {
        if n % 8 != 0 {
            let digits = [b'0' + n / 10, b'0' + n % 10];
            for part in [b"1 del n".as_slice(), digits.as_slice(), b"\n"] {
                script.extend_from_slice(part)?;
            }
        }
    }
    Ok(script)
}

/// After the peak all records move to one slab; with one fixed and one held two slabs stay, stuck.
#[test]
fn after_the_peak(rt: HostRuntime) -> Result<(), Fail> {
    let all_move = (
        b"".as_slice(),
        b"".as_slice(),
        b"live 6\nslabs 1\nfree 2\n".as_slice(),
        b"settle yes 5 no 0 later 0 dontneed 0 dontknow 0 gone 0\nslab 0 used 6\n".as_slice(),
    );
    let two_are_stuck = (
        b"1 fix n40\n1 hold 0 n32\n".as_slice(),
        b"ok\nok\n".as_slice(),
        b"live 6\nslabs 2\nfree 10\n".as_slice(),
        b"settle yes 4 no 1 later 3 dontneed 0 dontknow 0 gone 0\nslab 4 used 1 stuck 0\nslab 5 used 5 stuck 0\n".as_slice(),
    );
    for (more, answers, counts, ends) in [all_move, two_are_stuck] {
        let mut script = peak(rt.alloc())?;
        script.extend_from_slice(more)?;
        let mut replies = Vec::new(rt.alloc());
        for _ in 0..48 {
            replies.extend_from_slice(b"new\n")?;
        }
        for _ in 0..42 {
            replies.extend_from_slice(b"del v\n")?;
        }
        replies.extend_from_slice(answers)?;
        let ran = run_in_memory(&rt, rt.alloc(), &["one", "6", "8", "0"], &script)?;
        let output = with_report(rt.alloc(), &replies, b"buffers 48\n", counts, ends)?;
        assert_eq!(rt; ran.status, Status::Fine);
        assert_eq!(rt; ran.out.bytes(), output.as_slice());
    }
    Ok(())
}
