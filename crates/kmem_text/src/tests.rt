use crate::{
    Command, Line, LineFault, Name, NameId, Reply, Script, ScriptError, Spelled, SpelledLine, Tag,
    Value, read_script, write_reply,
};
use std::alloc::Global;
use std::test::Fail;

fn script_of(alloc: Global, text: &[u8]) -> Result<Script, Fail> {
    if text.len() > 4096 {
        return Err(Fail::from("a short text"));
    }
    match read_script(alloc, text, 16) {
        Ok(script) => Ok(script),
        Err(ScriptError::BadLine { line: _, fault: _ }) | Err(ScriptError::TooMany) => Err(
            Fail::from("a good script"),
        ),
        Err(ScriptError::NoMemory) => Err(Fail::from("memory")),
    }
}

/// The fault of the first line of a text.
fn fault_of(alloc: Global, text: &[u8]) -> Result<LineFault, Fail> {
    if text.len() > 4096 {
        return Err(Fail::from("a short text"));
    }
    match read_script(alloc, text, 16) {
        Err(ScriptError::BadLine { line: 1, fault }) => Ok(fault),
        Err(ScriptError::NoMemory) => Err(Fail::from("memory")),
        _ => Err(Fail::from("a bad first line")),
    }
}

/// The word of a command, and its name's place or its tag, and its second name's place or its value's length.
fn parts(command: &Command) -> (&'static str, usize, usize) {
    match command {
        Command::Put(name, value) => ("put", name.0 as usize, value.as_bytes().len()),
        Command::Get(name) => ("get", name.0 as usize, 0),
        Command::Del(name) => ("del", name.0 as usize, 0),
        Command::First => ("first", 0, 0),
        Command::Next(name) => ("next", name.0 as usize, 0),
        Command::Count => ("count", 0, 0),
        Command::Link(name, other) => ("link", name.0 as usize, other.0 as usize),
        Command::Hold(tag, name) => ("hold", usize::from(tag.number()), name.0 as usize),
        Command::Read(tag) => ("read", usize::from(tag.number()), 0),
        Command::Write(tag, value) => ("write", usize::from(tag.number()), value.as_bytes().len()),
        Command::Drop(tag) => ("drop", usize::from(tag.number()), 0),
        Command::Fix(name) => ("fix", name.0 as usize, 0),
        Command::Loose(name) => ("loose", name.0 as usize, 0),
    }
}

#[test]
fn names_ascend_and_stand_once(rt: HostRuntime) -> Result<(), Fail> {
    let alloc = rt.alloc();
    let script = script_of(
        alloc,
        b"1 put b x\n2 get ab\n16 del b\n3 count\n1 get a\n4 link a c\n5 hold 7 ab\n6 next .\n",
    )?;
    let mut names = Vec::new(alloc);
    for name in &script.names {
        names.push(name.as_bytes())?;
    }
    assert_eq!(rt;
        names.as_slice(),
        [
            b".".as_slice(),
            b"a".as_slice(),
            b"ab".as_slice(),
            b"b".as_slice(),
            b"c".as_slice()
        ]
        .as_slice()
    );

    let mut places = Vec::new(alloc);
    for line in &script.lines {
        let (_, first, second) = parts(&line.command);
        places.push((line.worker, first, second))?;
    }
    assert_eq!(rt;
        places.as_slice(),
        [
            (1, 3, 1),
            (2, 2, 0),
            (16, 3, 0),
            (3, 0, 0),
            (1, 1, 0),
            (4, 1, 4),
            (5, 7, 2),
            (6, 0, 0)
        ]
        .as_slice()
    );
    Ok(())
}

#[test]
fn each_word_is_read(rt: HostRuntime) -> Result<(), Fail> {
    let cases = [
        (b"1 put b v~!\n2 get a".as_slice(), "put", 1, 3),
        (b"1 get a".as_slice(), "get", 0, 0),
        (b"1 del a".as_slice(), "del", 0, 0),
        (b"1 first".as_slice(), "first", 0, 0),
        (b"1 next b\n2 get a".as_slice(), "next", 1, 0),
        (b"1 count".as_slice(), "count", 0, 0),
        (b"1 link b a".as_slice(), "link", 1, 0),
        (b"1 hold 7 b\n2 get a".as_slice(), "hold", 7, 1),
        (b"1 read 0".as_slice(), "read", 0, 0),
        (b"1 write 3 v~".as_slice(), "write", 3, 2),
        (b"1 drop 7".as_slice(), "drop", 7, 0),
        (b"1 fix b\n2 get a".as_slice(), "fix", 1, 0),
        (b"1 loose b\n2 get a".as_slice(), "loose", 1, 0),
    ];
    for (text, word, first, second) in cases {
        let script = script_of(rt.alloc(), text)?;
        let line = script.lines.first().ok_or("a line")?;
        let (its_word, its_first, its_second) = parts(&line.command);
        assert_eq!(rt; its_word, word);
        assert_eq!(rt; its_first, first);
        assert_eq!(rt; its_second, second);
    }
    Ok(())
}

#[test]
fn too_few_tokens_or_too_many(rt: HostRuntime) -> Result<(), Fail> {
    let cases = [
        b"1 put a".as_slice(),
        b"1 put a v w".as_slice(),
        b"1 get".as_slice(),
        b"1 get a b".as_slice(),
        b"1 del ".as_slice(),
        b"1 del a b".as_slice(),
        b"1 first a".as_slice(),
        b"1 next".as_slice(),
        b"1 next a b".as_slice(),
        b"1 count 1".as_slice(),
        b"1 link a".as_slice(),
        b"1 link a b c".as_slice(),
        b"1 hold 1".as_slice(),
        b"1 hold 1 a b".as_slice(),
        b"1 read ".as_slice(),
        b"1 read 1 2".as_slice(),
        b"1 write 1".as_slice(),
        b"1 write 1 v w".as_slice(),
        b"1 drop\t".as_slice(),
        b"1 drop 1 2".as_slice(),
        b"1 fix".as_slice(),
        b"1 fix a b".as_slice(),
        b"1 loose".as_slice(),
        b"1 loose a b".as_slice(),
        // the number of tokens is looked at before any of them
        b"1 hold 8".as_slice(),
        b"1 link A".as_slice(),
        b"1 put A v w".as_slice(),
    ];
    for text in cases {
        assert_eq!(rt; fault_of(rt.alloc(), text)?, LineFault::Words);
    }
    Ok(())
}

#[test]
fn the_first_fault_of_a_line(rt: HostRuntime) -> Result<(), Fail> {
    let cases = [
        (b"17 hold 8 A".as_slice(), LineFault::Worker),
        (b"0 first".as_slice(), LineFault::Worker),
        (b"01 first".as_slice(), LineFault::Worker),
        (b"1".as_slice(), LineFault::Command),
        (b"1 reads 8".as_slice(), LineFault::Command),
        (b"1 Put a v".as_slice(), LineFault::Command),
        (b"1 put A v".as_slice(), LineFault::Name),
        (b"1 put a \x7f".as_slice(), LineFault::Value),
        (b"1 put A \x7f".as_slice(), LineFault::Name),
        (b"1 get A".as_slice(), LineFault::Name),
        (b"1 del a,".as_slice(), LineFault::Name),
        (b"1 next a/b".as_slice(), LineFault::Name),
        (b"1 link A b".as_slice(), LineFault::Name),
        (b"1 link a B".as_slice(), LineFault::Name),
        (b"1 fix A".as_slice(), LineFault::Name),
        (b"1 loose A".as_slice(), LineFault::Name),
        (
            b"1 get abcdefghijklmnopqrstuvwxyz0123456".as_slice(),
            LineFault::Name,
        ),
    ];
    for (text, fault) in cases {
        assert_eq!(rt; fault_of(rt.alloc(), text)?, fault);
    }
    Ok(())
}

#[test]
fn faults_of_tags(rt: HostRuntime) -> Result<(), Fail> {
    let cases = [
        (b"1 hold 8 a".as_slice(), LineFault::Tag),
        (b"1 hold 00 a".as_slice(), LineFault::Tag),
        (b"1 hold a a".as_slice(), LineFault::Tag),
        (b"1 hold 1 A".as_slice(), LineFault::Name),
        (b"1 hold 8 A".as_slice(), LineFault::Tag),
        (b"1 read 8".as_slice(), LineFault::Tag),
        (b"1 read 00".as_slice(), LineFault::Tag),
        (b"1 read a".as_slice(), LineFault::Tag),
        (b"1 write 8 v".as_slice(), LineFault::Tag),
        (b"1 write 00 v".as_slice(), LineFault::Tag),
        (b"1 write a v".as_slice(), LineFault::Tag),
        (b"1 write 1 \x7f".as_slice(), LineFault::Value),
        (b"1 write 8 \x7f".as_slice(), LineFault::Tag),
        (b"1 drop 8".as_slice(), LineFault::Tag),
        (b"1 drop 00".as_slice(), LineFault::Tag),
        (b"1 drop a".as_slice(), LineFault::Tag),
    ];
    for (text, fault) in cases {
        assert_eq!(rt; fault_of(rt.alloc(), text)?, fault);
    }
    Ok(())
}

#[test]
fn texts_of_replies(rt: HostRuntime) -> Result<(), Fail> {
    let script = script_of(rt.alloc(), b"1 link b-1 a")?;
    if script.names.len() < 2 {
        return Err(Fail::from("two names"));
    }
    let value = Value::from_bytes(b"x~!").ok_or("a value")?;
    let cases = [
        (Reply::New, b"new".as_slice()),
        (Reply::Was(value), b"was x~!".as_slice()),
        (Reply::Full, b"full".as_slice()),
        (Reply::Gone(value), b"del x~!".as_slice()),
        (Reply::Val(value), b"val x~!".as_slice()),
        (Reply::Absent, b"none".as_slice()),
        (Reply::Number(0), b"n 0".as_slice()),
        (Reply::Number(65536), b"n 65536".as_slice()),
        (Reply::Done, b"ok".as_slice()),
        (Reply::Taken, b"taken".as_slice()),
        (Reply::Many, b"many".as_slice()),
        (Reply::Used, b"used".as_slice()),
        (Reply::Idle, b"idle".as_slice()),
    ];
    for (reply, text) in cases {
        let mut out = [b'.'; 640];
        if let Reply::At(_, _) = reply {
            return Err(Fail::from("a reply without a name"));
        }
        let len = write_reply(&script, &reply, &mut out);
        assert!(rt; len < out.len());
        assert_eq!(rt; &out[..len], text);
        assert_eq!(rt; out[len], b'.');
    }

    let mut out = [b'.'; 640];
    let len = write_reply(&script, &Reply::At(NameId(1), value), &mut out);
    assert!(rt; len < out.len());
    assert_eq!(rt; &out[..len], b"at b-1 x~!".as_slice());
    assert_eq!(rt; out[len], b'.');
    let len = write_reply(&script, &Reply::At(NameId(0), value), &mut out);
    assert!(rt; len < out.len());
    assert_eq!(rt; &out[..len], b"at a x~!".as_slice());
    Ok(())
}

#[test]
fn lines_make_a_script(rt: HostRuntime) -> Result<(), Fail> {
    let a = Name::from_bytes(b"a").ok_or("a name")?;
    let b = Name::from_bytes(b"b").ok_or("a name")?;
    let x = Value::from_bytes(b"x").ok_or("a value")?;
    let lines = [
        SpelledLine {
            worker: 2,
            command: Spelled::Link(b, a),
        },
        SpelledLine {
            worker: 1,
            command: Spelled::Write(Tag::new(7), x),
        },
    ];
    let script = Script::from_lines(rt.alloc(), &lines)?;
    assert_eq!(rt; script.names.as_slice(), [a, b].as_slice());
    let link = Line {
        worker: 2,
        command: Command::Link(NameId(1), NameId(0)),
    };
    let write = Line {
        worker: 1,
        command: Command::Write(Tag::new(7), x),
    };
    assert_eq!(rt; script.lines.as_slice(), [link, write].as_slice());
    assert_ne!(rt; link, write);
    Ok(())
}
