//! A whole input read, and a whole text written.

ghost use Rattle.std.specs.Prelude.{◌≡◌, ◌<◌, ◌≤◌, ◌↔◌, length, IfOk, OnOk, OnErr, IsErr, IsErrOf, IfSome};
ghost use Rattle.std.specs.Io.KnownBytes.{Appends, Consumes, IsAtEnd};
ghost use Rattle.kmem_io.specs.Streams.{CanRise, CountsFaults, AppendsFront};

use super::{Failed, Sink, Source};
use std::alloc::{AllocError, Global};

/// Why an input wasn't read whole.
#[derive(Clone, Copy, Debug, PartialEq, Eq)]
pub enum ReadAllError {
    Read,
    TooLong,
    NoMemory,
}

impl From<Failed> for ReadAllError {
    ghost use Rattle.kmem_io.specs.declared.whole.ReadAllError.TheVariants.{Read};

    ghost from_gives = { λ _ e. e ≡ Read };

    fn from(_e: Failed) -> ReadAllError {
        ReadAllError::Read
    }
}

impl From<AllocError> for ReadAllError {
    ghost use Rattle.kmem_io.specs.declared.whole.ReadAllError.TheVariants.{NoMemory};

    ghost from_gives = { λ _ e. e ≡ NoMemory };

    fn from(_e: AllocError) -> ReadAllError {
        ReadAllError::NoMemory
    }
}

/// Reads to the end of input, of which `limit` bytes at most are taken. Linear in the input.
pub fn read_all<R: Source>(
    alloc: Global,
    input: &mut R,
    limit: usize,
) -> Result<Vec<u8>, ReadAllError>
    requires { CanRise (R.faults input.old) }

    // All that was left is read, and it is within the limit.
    ensures bytes { IfOk result (λ bytes. Consumes (R.left input.old) (R.left input.new) bytes.items) }
    ensures end { OnOk result (IsAtEnd (R.left input.new)) }
    ensures within { IfOk result (λ bytes. length bytes.items ≤ limit) }

    ensures failed { IsErrOf result ReadAllError.Read ↔ (R.faults input.old < R.faults input.new) }
    ensures unfailed { OnOk result (R.faults input.new ≡ R.faults input.old) }
    ensures too_long { IsErrOf result ReadAllError.TooLong → IfSome (R.left input.old) (λ bytes. limit < length bytes) }
{
    let mut bytes = Vec::new(alloc);
    let mut chunk = [0u8; 4096];
    'reading: loop {
        let n = input.read(&mut chunk)?;
        if n == 0 {
            return Ok(bytes);
        }
        if n > limit - bytes.len() {
            return Err(ReadAllError::TooLong);
        }
        bytes.extend_from_slice(&chunk[..n])?;
    }
}

/// Writes all bytes, in as many calls as the sink wants, and stops at its first fault.
pub fn write_all<W: Sink>(out: &mut W, bytes: &[u8]) -> Result<(), Failed>
    requires { CanRise (W.faults out.old) }
    ensures whole { OnOk result (Appends (W.written out.old) (W.written out.new) bytes.now) }
    ensures front { AppendsFront (W.written out.old) (W.written out.new) bytes.now }
    ensures counted { CountsFaults (W.faults out.old) (W.faults out.new) result }
{
    let mut at = 0;
    while at < bytes.len() {
        at += out.write(&bytes[at..])?;
    }
    Ok(())
}
