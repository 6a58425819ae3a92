ghost use Rattle.std.specs.Prelude.{◌≤◌, IfOk};

use crate::{
    Failed, MemSink, MemSource, ReadAllError, Sink, Source, StdSink, StdSource, read_all, write_all,
};
use std::io;
use std::io::{Read, Write};
use std::test::Fail;

/// A stream that always fails, or takes nothing.
#[derive(Drop)]
struct Broken {
    takes_nothing: bool,
}

impl Read for Broken {
    fn read(&mut self, _buffer: &mut [u8]) -> io::Result<usize> {
        Err(io::Error::from(io::ErrorKind::Other))
    }
}

impl Write for Broken {
    fn write(&mut self, _piece: &[u8]) -> io::Result<usize> {
        if self.takes_nothing {
            Ok(0)
        } else {
            Err(io::Error::from(io::ErrorKind::Other))
        }
    }

    fn flush(&mut self) -> io::Result<()> {
        Ok(())
    }
}

/// A stream over three bytes, each of which is moved by a call of its own that a signal interrupts first.
#[derive(Drop)]
struct Slow {
    left: u8,
    interrupts: bool,
}

impl Slow {
    fn steps(&mut self, room: usize) -> io::Result<usize>
        ensures { IfOk result (λ n. n ≤ room) }
    {
        self.interrupts = !self.interrupts;
        if !self.interrupts {
            return Err(io::Error::from(io::ErrorKind::Interrupted));
        }
        if self.left == 0 || room == 0 {
            return Ok(0);
        }
        self.left -= 1;
        Ok(1)
    }
}

impl Read for Slow {
    fn read(&mut self, buffer: &mut [u8]) -> io::Result<usize> {
        self.steps(buffer.len())
    }
}

impl Write for Slow {
    fn write(&mut self, piece: &[u8]) -> io::Result<usize> {
        self.steps(piece.len())
    }

    fn flush(&mut self) -> io::Result<()> {
        Ok(())
    }
}

#[test]
fn an_interrupted_call_is_tried_again(rt: HostRuntime) -> Result<(), Fail> {
    let mut source = StdSource::create(Slow {
        left: 3,
        interrupts: true,
    });
    let Ok(bytes) = read_all(rt.alloc(), &mut source, 3) else {
        return Err(Fail::from("three bytes are within the limit"));
    };
    assert_eq!(rt; bytes.len(), 3);
    assert_eq!(rt; source.faults, 0);

    let mut sink = StdSink::create(Slow {
        left: 3,
        interrupts: true,
    });
    assert_eq!(rt; sink.write(b"abc"), Ok(1));
    assert_eq!(rt; write_all(&mut sink, b"bc"), Ok(()));
    assert_eq!(rt; sink.faults, 0);
    assert_eq!(rt; sink.write(b"d"), Err(Failed));
    assert_eq!(rt; sink.faults, 1);
    Ok(())
}

#[test]
fn sixteen_mebibytes(rt: HostRuntime) -> Result<(), Fail> {
    let limit = 16_777_216;
    let mut whole = StdSource::create(io::repeat(b'#').take(16_777_216));
    let Ok(bytes) = read_all(rt.alloc(), &mut whole, limit) else {
        return Err(Fail::from("sixteen mebibytes are within the limit"));
    };
    assert_eq!(rt; bytes.len(), limit);

    let mut longer = StdSource::create(io::repeat(b'#').take(16_777_217));
    assert!(rt;
        matches!(
            read_all(rt.alloc(), &mut longer, limit),
            Err(ReadAllError::TooLong)
        )
    );
    Ok(())
}

#[test]
fn a_reader_of_std(rt: HostRuntime) -> Result<(), Fail> {
    let mut source = StdSource::create(b"abc".as_slice());
    let mut buffer = [0u8; 2];
    assert_eq!(rt; source.read(&mut buffer), Ok(2));
    assert_eq!(rt; buffer, [b'a', b'b']);
    assert_eq!(rt; source.read(&mut buffer), Ok(1));
    assert_eq!(rt; source.read(&mut buffer), Ok(0));
    assert_eq!(rt; source.faults, 0);

    let mut broken = StdSource::create(Broken {
        takes_nothing: false,
    });
    assert_eq!(rt; broken.read(&mut buffer), Err(Failed));
    assert_eq!(rt; broken.faults, 1);
    Ok(())
}

#[test]
fn a_writer_of_std(rt: HostRuntime) -> Result<(), Fail> {
    let mut written = Vec::new(rt.alloc());
    {
        let mut sink = StdSink::create(&mut written);
        assert_eq!(rt; sink.write(b"ab"), Ok(2));
        assert_eq!(rt; sink.write(b""), Ok(0));
        assert_eq!(rt; sink.write(b"c"), Ok(1));
        assert_eq!(rt; sink.faults, 0);
    }
    assert_eq!(rt; written.as_slice(), b"abc".as_slice());

    for takes_nothing in [false, true] {
        let mut broken = StdSink::create(Broken { takes_nothing });
        assert_eq!(rt; broken.write(b"a"), Err(Failed));
        assert_eq!(rt; broken.faults, 1);
    }
    Ok(())
}

#[test]
fn an_input_read_whole(rt: HostRuntime) -> Result<(), Fail> {
    let alloc = rt.alloc();
    let mut source = MemSource::create(alloc, b"abcde", 2, &[])?;
    let Ok(bytes) = read_all(alloc, &mut source, 5) else {
        return Err(Fail::from("five bytes are within the limit"));
    };
    assert_eq!(rt; bytes.as_slice(), b"abcde".as_slice());

    let mut long = MemSource::create(alloc, b"abcde", 2, &[])?;
    assert!(rt; matches!(read_all(alloc, &mut long, 4), Err(ReadAllError::TooLong)));

    // The fourth call is the one that would find the end.
    for call in [1, 2, 3, 4] {
        let mut failing = MemSource::create(alloc, b"abcde", 2, &[call])?;
        assert!(rt;
            matches!(read_all(alloc, &mut failing, 5), Err(ReadAllError::Read)),
            "at {call}"
        );
    }
    Ok(())
}

#[test]
fn a_text_written_whole(rt: HostRuntime) -> Result<(), Fail> {
    let alloc = rt.alloc();
    let mut sink = MemSink::create(alloc, 5, 2, &[])?;
    assert_eq!(rt; write_all(&mut sink, b"abcde"), Ok(()));
    assert_eq!(rt; sink.bytes(), b"abcde".as_slice());

    let mut small = MemSink::create(alloc, 3, 2, &[])?;
    assert_eq!(rt; write_all(&mut small, b"abcde"), Err(Failed));
    assert_eq!(rt; small.bytes(), b"abc".as_slice());

    let mut failing = MemSink::create(alloc, 5, 2, &[2])?;
    assert_eq!(rt; write_all(&mut failing, b"abcde"), Err(Failed));
    assert_eq!(rt; failing.bytes(), b"ab".as_slice());
    Ok(())
}

/// The last fault that a stream can count: before it, the count stands at its last value but one.
#[test]
fn the_last_fault_that_can_be_counted(rt: HostRuntime) -> Result<(), Fail> {
    let mut source = StdSource {
        reader: Broken {
            takes_nothing: false,
        },
        faults: u64::MAX - 1,
    };
    assert_eq!(rt; source.read(&mut [0]), Err(Failed));
    assert_eq!(rt; source.faults, u64::MAX);

    let mut sink = StdSink {
        writer: Broken {
            takes_nothing: true,
        },
        faults: u64::MAX - 1,
    };
    assert_eq!(rt; write_all(&mut sink, b"a"), Err(Failed));
    assert_eq!(rt; sink.faults, u64::MAX);
    Ok(())
}
