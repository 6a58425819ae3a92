//! `one`: all lines in the order of the file, on one thread.

ghost use Rattle.std.specs.Prelude.{◌≡◌, ◌≢◌, ◌*◌, ◌<◌, ◌≤◌, ◌↔◌, ℕ, Some, IfOk, OnOk, IfErr, IsOk, IsOkAnd, IsErrOf, IfSome};
ghost use Rattle.std.specs.Io.KnownBytes.{Appends, Keeps, IsAtEnd};
ghost use Rattle.kmem_io.specs.Streams.{CanRise, AppendsFront};
ghost use Rattle.kmem_text.specs.Grammar.{script_of, first_bad_of};
ghost use Rattle.run_check.specs.Verdicts.{IsDue, IsFineButForStreams};
ghost use Rattle.run_one.specs.Answers.{one_answer, IfBadScript, IsTextOfHistory};

use crate::opened::OpenOne;
use kmem_io::{Failed, ReadAllError, Sink, Source, read_all};
use kmem_text::{ScriptError, read_script};
use run_check::Fault;
use std::alloc::Global;

/// The most bytes that an input may have: 16 MiB.
const MAX_INPUT: usize = 16_777_216;

/// Reads a script to its end, and appends the reply to each of its commands and a line feed, and with `every` the report. Nothing is
/// written before all memory is taken. With `every` there is a settle after each command whose number, counted from 1, is a multiple of it,
/// and a last one at the end; 0 stands for the last one alone.
pub fn serve_one<R: Source, W: Sink>(
    alloc: Global,
    slabs: u32,
    chunks: u32,
    every: Option<u32>,
    input: &mut R,
    out: &mut W,
) -> Result<(), Fault>
    requires slabs { (0 < slabs) × (slabs ≤ 4096) }
    requires chunks { (0 < chunks) × (chunks ≤ 64) }
    requires buffers { slabs * chunks ≤ 65536 }
    requires input { CanRise (R.faults input.old) }
    requires out { CanRise (W.faults out.old) }

    // What is written for the bytes that were left, all of which are read: the text of `one`, which is that of a history.
    ensures text { OnOk result (IfSome (R.left input.old) (λ bytes.
        IsOkAnd (one_answer slabs chunks every bytes) (λ text.
        Appends (W.written out.old) (W.written out.new) text × IsTextOfHistory slabs chunks (script_of 16 bytes) text))) }
    ensures end { OnOk result (IsAtEnd (R.left input.new)) }

    // When each fault comes.
    ensures read { IsErrOf result Fault.Read ↔ (R.faults input.old < R.faults input.new) }
    ensures limit { IsErrOf result Fault.Limit →
        IfSome (R.left input.old) (λ bytes. IsErrOf (one_answer slabs chunks every bytes) Fault.Limit) }
    ensures bad_script { IfErr result (λ fault. IfBadScript fault (λ line check. IfSome (R.left input.old) (λ bytes.
        IsErrOf (one_answer slabs chunks every bytes) (Fault.BadScript line check)))) }
    ensures first_bad { IfErr result (λ fault. IfBadScript fault (λ line check. IfSome (R.left input.old) (λ bytes.
        first_bad_of 16 bytes ≡ Some (line, check)))) }
    ensures counted { IfErr result (λ fault. IfBadScript fault (λ line check. 1 ≤ line)) }
    ensures none_illegal { IfErr result (λ fault. (line : ℕ) → fault ≢ Fault.Illegal line) }
    ensures write { IsErrOf result Fault.Write ↔ (W.faults out.old < W.faults out.new) }
    ensures due { IfSome (R.left input.old) (λ bytes. (due : Fault) → IsErrOf (one_answer slabs chunks every bytes) due →
        IsDue result due) }
    ensures fine { IfSome (R.left input.old) (λ bytes. IsOk (one_answer slabs chunks every bytes) → IsFineButForStreams result) }

    // What a fault leaves.
    ensures front { IsErrOf result Fault.Write → IfSome (R.left input.old) (λ bytes.
        IsOkAnd (one_answer slabs chunks every bytes) (λ text. AppendsFront (W.written out.old) (W.written out.new) text)) }
    ensures untouched { IfErr result (λ fault. fault ≢ Fault.Write → Keeps (W.written out.old) (W.written out.new)) }
{
    let bytes = match read_all(alloc, input, MAX_INPUT) {
        Ok(bytes) => bytes,
        Err(ReadAllError::Read) => return Err(Fault::Read),
        Err(ReadAllError::TooLong) => return Err(Fault::Limit),
        Err(ReadAllError::NoMemory) => return Err(Fault::NoMemory),
    };
    let script = match read_script(alloc, &bytes, 16) {
        Ok(script) => script,
        Err(ScriptError::BadLine { line, fault }) => return Err(Fault::BadScript { line, fault }),
        Err(ScriptError::TooMany) => return Err(Fault::Limit),
        Err(ScriptError::NoMemory) => return Err(Fault::NoMemory),
    };
    let Ok(run) = OpenOne::create(alloc, slabs, chunks, every, script) else {
        return Err(Fault::NoMemory);
    };
    match run.go(out) {
        Ok(()) => Ok(()),
        Err(Failed) => Err(Fault::Write),
    }
}
