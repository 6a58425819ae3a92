//! `check`: an input that has a script and a printed run.

ghost use Rattle.std.specs.Prelude.{◌≡◌, ◌≢◌, ◌<◌, ◌≤◌, ◌↔◌, length, IfOk, OnOk, IfErr, IfSome, IsErrOf};
ghost use Rattle.std.specs.Io.KnownBytes.{Appends, Keeps, Consumes, IsAtEnd};
ghost use Rattle.kmem_io.specs.Streams.{CanRise, AppendsFront};
ghost use Rattle.run_check.specs.Verdicts.{IsLegal, IsToldHistory, IsDueFault, IsDueOrFree, IsCounted, IsDue, IsFineButForStreams, legal_text};
ghost use Rattle.run_check.specs.Readings.{IsReadFault};

use crate::fault::Fault;
use crate::judging::judge;
use kmem_io::{Failed, ReadAllError, Sink, Source, read_all, write_all};
use std::alloc::Global;

/// The most bytes that an input may have: 16 MiB.
const MAX_INPUT: usize = 16_777_216;

/// Reads a script and a printed run to their end, and says `legal` where the run has no illegal line. n log n in the input.
pub fn check<R: Source, W: Sink>(
    alloc: Global,
    workers: u32,
    input: &mut R,
    out: &mut W,
) -> Result<(), Fault>
    requires workers { workers ≤ 16 }
    requires input { CanRise (R.faults input.old) }
    requires out { CanRise (W.faults out.old) }

    // What is written: that the run is legal, which is so exactly where it tells a history of its script, line by line.
    ensures legal { OnOk result (IfSome (R.left input.old) (λ bytes. IsLegal workers bytes × Appends (W.written out.old) (W.written out.new) legal_text)) }
    ensures history { OnOk result (IfSome (R.left input.old) (λ bytes. IsToldHistory workers bytes)) }
    ensures end { OnOk result (IsAtEnd (R.left input.new)) }

    // When each fault comes.
    ensures read { IsErrOf result Fault.Read ↔ (R.faults input.old < R.faults input.new) }
    ensures write { IsErrOf result Fault.Write ↔ (W.faults out.old < W.faults out.new) }
    ensures fault { IfErr result (λ fault. fault ≢ Fault.Read → fault ≢ Fault.Write → IfSome (R.left input.old) (λ bytes. IsDueOrFree workers bytes fault)) }
    ensures counted { IfErr result IsCounted }
    ensures due { IfSome (R.left input.old) (λ bytes. (due : Fault) → IsDueFault workers bytes due → IsDue result due) }
    ensures fine { IfSome (R.left input.old) (λ bytes. IsLegal workers bytes → IsFineButForStreams result) }

    // What a fault leaves.
    ensures front { IsErrOf result Fault.Write → IfSome (R.left input.old) (λ bytes. IsLegal workers bytes)
        × AppendsFront (W.written out.old) (W.written out.new) legal_text }
    ensures untouched { IfErr result (λ fault. fault ≢ Fault.Write → Keeps (W.written out.old) (W.written out.new)) }
{
    let bytes = read_input(alloc, input)?;
    judge(alloc, workers, &bytes)?;
    match write_all(out, b"legal\n") {
        Ok(()) => Ok(()),
        Err(Failed) => Err(Fault::Write),
    }
}

/// All bytes of an input of at most 16 MiB.
pub fn read_input<R: Source>(alloc: Global, input: &mut R) -> Result<Vec<u8>, Fault>
    requires { CanRise (R.faults input.old) }
    ensures bytes { IfOk result (λ bytes. Consumes (R.left input.old) (R.left input.new) bytes.items) }
    ensures end { OnOk result (IsAtEnd (R.left input.new)) }
    ensures within { IfOk result (λ bytes. length bytes.items ≤ 16777216) }
    ensures read { IsErrOf result Fault.Read ↔ (R.faults input.old < R.faults input.new) }
    ensures fault { IfErr result (λ fault. IsReadFault (R.left input.old) fault) }
{
    match read_all(alloc, input, MAX_INPUT) {
        Ok(bytes) => Ok(bytes),
        Err(ReadAllError::Read) => Err(Fault::Read),
        Err(ReadAllError::TooLong) => Err(Fault::Limit),
        Err(ReadAllError::NoMemory) => Err(Fault::NoMemory),
    }
}
