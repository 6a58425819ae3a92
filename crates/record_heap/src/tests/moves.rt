//! Questions about moves.
use super::{Bench, Shown};
use kmem_buf::Verdict;
use kmem_text::Value;
use std::test::Fail;

// A record with one, two and eight names moves, and each name leads to it afterwards.
#[test]
fn every_name_moves(rt: HostRuntime) -> Result<(), Fail> {
    let x = Value::from_bytes(b"x").ok_or("a value")?;
    let y = Value::from_bytes(b"y").ok_or("a value")?;
    for names in [1, 2, 8] {
        let mut bench = Bench::create(rt.alloc())?;
        assert_eq!(rt;
            [bench.put(0, x), bench.put(9, y)],
            [Shown::New, Shown::New]
        );
        for name in 1..names {
            if name < 16 {
                assert_eq!(rt; bench.link(0, name), Shown::Done);
            }
        }
        assert_eq!(rt; bench.ask(0), Some(Verdict::Yes));
        for name in 0..names {
            if name < 16 {
                assert_eq!(rt;
                    (bench.get(name), bench.address(name)),
                    (Shown::Val(b'x'), Some(2))
                );
            }
        }
        assert_eq!(rt;
            (bench.get(9), bench.address(9), bench.heap.live()),
            (Shown::Val(b'y'), Some(1), 2)
        );
    }
    Ok(())
}

// The five answers.
#[test]
fn each_answer(rt: HostRuntime) -> Result<(), Fail> {
    let mut bench = Bench::create(rt.alloc())?;
    let x = Value::from_bytes(b"x").ok_or("a value")?;
    assert_eq!(rt;
        (bench.put(0, x), bench.put(1, x), bench.ask(2)),
        (Shown::New, Shown::New, Some(Verdict::DontKnow))
    );
    assert_eq!(rt;
        (bench.hold(0, 0), bench.ask(0)),
        (Shown::Done, Some(Verdict::Later))
    );
    assert_eq!(rt;
        [bench.fix(0), bench.fix(1), bench.fix(2)],
        [Shown::Done, Shown::Done, Shown::Absent]
    );
    assert_eq!(rt;
        (bench.ask(0), bench.ask(1)),
        (Some(Verdict::No), Some(Verdict::No))
    );
    assert_eq!(rt;
        (bench.loose(1), bench.put(1, x), bench.ask(1)),
        (Shown::Done, Shown::Was(b'x'), Some(Verdict::Yes))
    );
    assert_eq!(rt;
        (bench.del(0), bench.release().is_some()),
        ((Shown::Gone(b'x'), false), true)
    );
    assert_eq!(rt;
        (bench.ask(0), bench.heap.leftovers()),
        (Some(Verdict::DontNeed), 0)
    );
    Ok(())
}
