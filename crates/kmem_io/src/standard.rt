//! std's readers and writers as a source and a sink: the trusted edge. They tell what the reader has left and what the
//! writer holds where std knows it; of standard input, output and error it knows nothing.

ghost use Rattle.std.specs.Prelude.{◌≡◌, ◌≢◌, ◌<◌, ◌≤◌, ◌+◌, ◌↔◌, length, take, IsTrue, IfOk, OnErr, IfErr};
ghost use Rattle.std.specs.Io.KnownBytes.{Appends, Consumes, Keeps, IsAtEnd};
ghost use Rattle.std.specs.IoError.{error_kind};
ghost use Rattle.kmem_io.specs.Streams.{CanRise, CountsFaults};

use super::{Failed, Sink, Source};
use std::io;
use std::io::{ErrorKind, Read, Write};

/// A source over a reader of std, as standard input.
#[derive(Drop)]
pub struct StdSource<T: Read + Drop> {
    pub reader: T,
    pub faults: u64,
}

impl<T: Read + Drop> StdSource<T> {
    /// No fault is counted yet.
    pub fn create(reader: T) -> StdSource<T>
        ensures { result ≡ record { reader = reader; faults = 0 } }
    {
        StdSource { reader, faults: 0 }
    }
}

impl<T: Read + Drop> Source for StdSource<T> {
    ghost left = { λ s. T.remaining s.reader };

    ghost faults = { λ s. s.faults };

    fn read(&mut self, buffer: &mut [u8]) -> Result<usize, Failed>
        requires { CanRise self.old.faults }
        ensures within { IfOk result (λ n. n ≤ length buffer.new) }
        ensures given { IfOk result (λ n. Consumes (T.remaining self.old.reader) (T.remaining self.new.reader) (take n buffer.new)) }
        ensures end { IfOk result (λ n. n ≡ 0 → 0 < length buffer.new → IsAtEnd (T.remaining self.new.reader)) }
        ensures kept { OnErr result (Keeps (T.remaining self.old.reader) (T.remaining self.new.reader)) }
        ensures counted { CountsFaults self.old.faults self.new.faults result }
        ensures by_one { OnErr result (self.new.faults ≡ self.old.faults + 1) }
    {
        match read_retrying(&mut self.reader, buffer) {
            Ok(n) => Ok(n),
            Err(_) => Err(fail(&mut self.faults)),
        }
    }
}

/// One read, tried again where a signal interrupts it; 2^64 - 1 interruptions in a row are an error too.
fn read_retrying<T: Read>(reader: &mut T, buffer: &mut [u8]) -> io::Result<usize>
    ensures within { IfOk result (λ n. n ≤ length buffer.new) }
    ensures given { IfOk result (λ n. Consumes (T.remaining reader.old) (T.remaining reader.new) (take n buffer.new)) }
    ensures end { IfOk result (λ n. n ≡ 0 → 0 < length buffer.new → IsAtEnd (T.remaining reader.new)) }
    ensures kept { OnErr result (Keeps (T.remaining reader.old) (T.remaining reader.new)) }
    ensures retried { IfErr result (λ error. error_kind error ≢ ErrorKind.Interrupted) }
{
    for _ in 0..u64::MAX {
        match reader.read(buffer) {
            Ok(n) => return Ok(n),
            Err(error) if is_interrupted(&error) => {}
            Err(error) => return Err(error),
        }
    }
    Err(io::Error::from(ErrorKind::TimedOut))
}

/// A sink over a writer of std, as standard output. A writer that takes nothing of what it is offered has failed.
#[derive(Drop)]
pub struct StdSink<T: Write + Drop> {
    pub writer: T,
    pub faults: u64,
}

impl<T: Write + Drop> StdSink<T> {
    /// No fault is counted yet.
    pub fn create(writer: T) -> StdSink<T>
        ensures { result ≡ record { writer = writer; faults = 0 } }
    {
        StdSink { writer, faults: 0 }
    }
}

impl<T: Write + Drop> Sink for StdSink<T> {
    ghost written = { λ s. T.contents s.writer };

    ghost faults = { λ s. s.faults };

    fn write(&mut self, piece: &[u8]) -> Result<usize, Failed>
        requires { CanRise self.old.faults }
        ensures within { IfOk result (λ n. n ≤ length piece.now) }
        ensures some { IfOk result (λ n. 0 < length piece.now → 0 < n) }
        ensures appended { IfOk result (λ n. Appends (T.contents self.old.writer) (T.contents self.new.writer) (take n piece.now)) }
        ensures kept { OnErr result (Keeps (T.contents self.old.writer) (T.contents self.new.writer)) }
        ensures counted { CountsFaults self.old.faults self.new.faults result }
        ensures by_one { OnErr result (self.new.faults ≡ self.old.faults + 1) }
    {
        if piece.is_empty() {
            return Ok(0);
        }
        match write_retrying(&mut self.writer, piece) {
            Ok(n) if n > 0 => Ok(n),
            _ => Err(fail(&mut self.faults)),
        }
    }
}

/// One write, tried again where a signal interrupts it; 2^64 - 1 interruptions in a row are an error too.
fn write_retrying<T: Write>(writer: &mut T, piece: &[u8]) -> io::Result<usize>
    ensures within { IfOk result (λ n. n ≤ length piece.now) }
    ensures appended { IfOk result (λ n. Appends (T.contents writer.old) (T.contents writer.new) (take n piece.now)) }
    ensures kept { OnErr result (Keeps (T.contents writer.old) (T.contents writer.new)) }
    ensures retried { IfErr result (λ error. error_kind error ≢ ErrorKind.Interrupted) }
{
    for _ in 0..u64::MAX {
        match writer.write(piece) {
            Ok(n) => return Ok(n),
            Err(error) if is_interrupted(&error) => {}
            Err(error) => return Err(error),
        }
    }
    Err(io::Error::from(ErrorKind::TimedOut))
}

/// A signal came before anything was read or written.
fn is_interrupted(error: &io::Error) -> bool
    ensures { IsTrue result ↔ (error_kind error.now ≡ ErrorKind.Interrupted) }
{
    error.kind() == ErrorKind::Interrupted
}

/// Counts a fault.
fn fail(faults: &mut u64) -> Failed
    requires { CanRise faults.old }
    ensures { faults.new ≡ faults.old + 1 }
{
    *faults += 1;
    Failed
}
