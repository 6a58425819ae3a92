ghost use Rattle.std.specs.Prelude.{length, All};
ghost use Rattle.kmem_text.specs.Grammar.{IsWithinNames};

use crate::draws::Draws;
use crate::{generate, write_line};
use kmem_text::{Command, Line, Script, ScriptError, Tag, Value, read_script};
use std::alloc::{AllocError, Global};
use std::test::Fail;

#[test]
fn the_first_draws(rt: HostRuntime) -> Result<(), Fail> {
    let mut draws = Draws::new(0);
    let three = [draws.next(), draws.next(), draws.next()];
    assert_eq!(rt;
        three,
        [
            0xe220_a839_7b1d_cdaf,
            0x6e78_9e6a_a1b9_65f4,
            0x06c4_5d18_8009_454f
        ]
    );

    let script = generate(rt.alloc(), 0, 1, 1)?;
    assert_eq!(rt; script.names.len(), 0);
    let value = Value::from_bytes(b"w419").ok_or("a value")?;
    let write = Line {
        worker: 1,
        command: Command::Write(Tag::new(4), value),
    };
    assert_eq!(rt; script.lines.as_slice(), [write].as_slice());
    Ok(())
}

/// The text of a script.
fn text_of(alloc: Global, script: &Script) -> Result<Vec<u8>, AllocError>
    requires { All (λ line. IsWithinNames (length script.now.names.items) line.command) script.now.lines.items }
{
    let mut text = Vec::new(alloc);
    for line in &script.lines {
        let mut room = [b'.'; 640];
        let len = write_line(script, line, &mut room);
        text.extend_from_slice(&room[..len])?;
    }
    Ok(text)
}

#[test]
fn each_kind_of_made_command(rt: HostRuntime) -> Result<(), Fail> {
    let script = generate(rt.alloc(), 7079, 3, 20)?;
    let text = text_of(rt.alloc(), &script)?;
    assert_eq!(rt;
        text.as_slice(),
        b"1 next n241\n2 hold 0 n083\n3 get n108\n1 put n082 v80190\n2 loose n166\n3 del n122\n1 link n156 n145\n2 get n130\n\
3 hold 6 n205\n1 drop 1\n2 drop 6\n3 read 0\n1 get n064\n2 get n179\n3 get n097\n1 count\n2 write 3 w914\n3 put n093 v936574\n\
1 count\n2 fix n212\n"
            .as_slice()
    );
    Ok(())
}

#[test]
fn a_line_of_each_command(rt: HostRuntime) -> Result<(), Fail> {
    let text =
        b"16 put b-1 x~!\n2 get b-1\n3 del a\n4 first\n5 next a\n6 count\n7 link a b-1\n8 hold 7 a\n9 read 0\n\
10 write 3 v\n11 drop 5\n12 fix a\n13 loose b-1\n"
            .as_slice();
    let script = match read_script(rt.alloc(), text, 16) {
        Ok(script) => script,
        Err(ScriptError::NoMemory) => return Err(Fail::from("memory")),
        Err(_) => return Err(Fail::from("a good script")),
    };
    let written = text_of(rt.alloc(), &script)?;
    assert_eq!(rt; written.as_slice(), text);
    Ok(())
}
