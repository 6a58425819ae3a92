//! Words that are accepted and refused.

use crate::{Program, program_of};
use kmem_model::Plan;
use std::alloc::Global;
use std::test::Fail;

#[test]
fn accepted(rt: HostRuntime) -> Result<(), Fail> {
    let lists = [
        (["one", "1", "1"].as_slice(), Plan::One(1, 1, None)),
        (["one", "4096", "16"].as_slice(), Plan::One(4096, 16, None)),
        (["one", "1024", "64"].as_slice(), Plan::One(1024, 64, None)),
        (["one", "2", "2", "0"].as_slice(), Plan::One(2, 2, Some(0))),
        (
            ["one", "6", "8", "100000"].as_slice(),
            Plan::One(6, 8, Some(100_000)),
        ),
        (["check", "1"].as_slice(), Plan::Check(1)),
        (["check", "16"].as_slice(), Plan::Check(16)),
    ];
    for (words, plan) in lists {
        let program = Some(Program::Plain(plan));
        assert_eq!(rt; program_of(rt.alloc(), words)?, program, "at {words:?}");
    }
    Ok(())
}

fn run(slabs: u32, chunks: u32, workers: u32, scans: u32, desperate: bool) -> Program {
    Program::Run {
        slabs,
        chunks,
        workers,
        scans,
        desperate,
    }
}

#[test]
fn accepted_runs(rt: HostRuntime) -> Result<(), Fail> {
    let lists = [
        (
            ["run", "8", "8", "2", "1"].as_slice(),
            run(8, 8, 2, 1, false),
        ),
        (
            ["run", "64", "8", "4", "20", "desperate"].as_slice(),
            run(64, 8, 4, 20, true),
        ),
        (
            ["run", "4096", "16", "16", "1000"].as_slice(),
            run(4096, 16, 16, 1000, false),
        ),
    ];
    for (words, program) in lists {
        assert_eq!(rt;
            program_of(rt.alloc(), words)?,
            Some(program),
            "at {words:?}"
        );
    }
    Ok(())
}

fn is_refused(alloc: Global, words: &[&str]) -> Result<bool, Fail> {
    Ok(program_of(alloc, words)?.is_none())
}

#[test]
fn refused(rt: HostRuntime) -> Result<(), Fail> {
    let alloc = rt.alloc();
    assert!(rt; is_refused(alloc, &[])?);
    for word in [
        "help",
        "--help",
        "-h",
        "--version",
        "one",
        "check",
        "run",
        "gen",
        "",
    ] {
        assert!(rt; is_refused(alloc, &[word])?, "at {word:?}");
    }
    for word in ["help", "0", "17", "01", "-1", "+1", ""] {
        assert!(rt; is_refused(alloc, &["check", word])?, "at {word:?}");
    }
    for word in ["0", "02", "+2", "", "2 ", "4097", "--", "help"] {
        assert!(rt; is_refused(alloc, &["one", word, "2"])?, "at {word:?}");
    }
    for word in ["-1", "00", "100001", "help"] {
        assert!(rt; is_refused(alloc, &["one", "2", "2", word])?, "at {word:?}");
    }
    for word in ["help", "two", "on", "", "--"] {
        assert!(rt; is_refused(alloc, &[word, "2", "2"])?, "at {word:?}");
    }
    let others = [
        ["one", "4096", "64", "1"],
        ["one", "--", "2", "2"],
        ["check", "one", "2", "2"],
    ];
    for words in others {
        assert!(rt; is_refused(alloc, words.as_slice())?, "at {words:?}");
    }
    assert!(rt; is_refused(alloc, &["one", "2"])?);
    assert!(rt; is_refused(alloc, &["one", "1", "65"])?);
    assert!(rt; is_refused(alloc, &["one", "2", "2", "1", "1"])?);
    assert!(rt; is_refused(alloc, &["check", "1", "1"])?);
    assert!(rt; is_refused(alloc, &["help", "one"])?);
    Ok(())
}

#[test]
fn refused_runs(rt: HostRuntime) -> Result<(), Fail> {
    let lists = [
        ["run", "8", "8", "2"].as_slice(),
        ["run", "8", "8", "2", "0"].as_slice(),
        ["run", "8", "8", "2", "1001"].as_slice(),
        ["run", "8", "8", "17", "1"].as_slice(),
        ["run", "8", "8", "0", "1"].as_slice(),
        ["run", "8", "8", "+2", "1"].as_slice(),
        ["run", "08", "8", "2", "1"].as_slice(),
        ["run", "4096", "64", "1", "1"].as_slice(),
        ["run", "8", "8", "2", "1", "mild"].as_slice(),
        ["run", "8", "8", "2", "1", "desperate", "1"].as_slice(),
    ];
    for words in lists {
        assert!(rt; is_refused(rt.alloc(), words)?, "at {words:?}");
    }
    Ok(())
}

#[test]
fn made_scripts(rt: HostRuntime) -> Result<(), Fail> {
    let accepted = [
        (["gen", "0", "1", "1"].as_slice(), (0, 1, 1)),
        (["gen", "7", "4", "60000"].as_slice(), (7, 4, 60_000)),
        (
            ["gen", "999999999", "16", "1"].as_slice(),
            (999_999_999, 16, 1),
        ),
    ];
    for (words, (seed, workers, commands)) in accepted {
        let program = Some(Program::Gen {
            seed,
            workers,
            commands,
        });
        assert_eq!(rt; program_of(rt.alloc(), words)?, program, "at {words:?}");
    }
    let lists = [
        ["gen", "7", "4"].as_slice(),
        ["gen", "7", "4", "0"].as_slice(),
        ["gen", "7", "4", "60001"].as_slice(),
        ["gen", "7", "17", "1"].as_slice(),
        ["gen", "7", "0", "1"].as_slice(),
        ["gen", "1000000000", "1", "1"].as_slice(),
        ["gen", "00", "1", "1"].as_slice(),
        ["gen", "+7", "1", "1"].as_slice(),
        ["gen", "-7", "1", "1"].as_slice(),
        ["gen", "7", "4", "1", "1"].as_slice(),
    ];
    for words in lists {
        assert!(rt; is_refused(rt.alloc(), words)?, "at {words:?}");
    }
    Ok(())
}
