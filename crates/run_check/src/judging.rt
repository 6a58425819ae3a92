//! Whether the run in an input is legal for its script.

ghost use Rattle.std.specs.Prelude.{◌≡◌, ◌⊎◌, ◌≤◌, length, None, OnOk, IfOk, IfErr};
ghost use Rattle.kmem_text.specs.Grammar.{script_of, first_bad_of};
ghost use Rattle.kmem_text.specs.Scripts.{plain, IsScript};
ghost use Rattle.run_check.specs.Verdicts.{IsLegal, IsToldHistory, IsDueOrFree, IsCounted};
ghost use Rattle.run_check.specs.Scripts.{IsScriptFault};

use crate::fault::Fault;
use crate::parts::cut_script;
use crate::walking::check_run;
use kmem_text::{Script, ScriptError, read_script};
use std::alloc::Global;

/// Goes through an input: its script up to the line `=== run`, and then the run.
pub fn judge(alloc: Global, workers: u32, bytes: &[u8]) -> Result<(), Fault>
    requires workers { workers ≤ 16 }
    requires size { length bytes.now ≤ 16777216 }
    ensures legal { OnOk result (IsLegal workers bytes.now) }
    ensures history { OnOk result (IsToldHistory workers bytes.now) }
    ensures due { IfErr result (λ fault. IsDueOrFree workers bytes.now fault) }
    ensures counted { IfErr result IsCounted }
{
    let (script, mut lines) = cut_script(bytes);
    let script = script_in(alloc, workers, script)?;
    check_run(alloc, workers, &script, &mut lines)
}

/// The script that these bytes spell, for workers 1 to `workers`. n log n in their number.
pub fn script_in(alloc: Global, workers: u32, bytes: &[u8]) -> Result<Script, Fault>
    requires workers { workers ≤ 16 }
    requires size { length bytes.now ≤ 16777216 }
    ensures script { IfOk result (λ script. script_of workers bytes.now ≡ plain script) }
    ensures good { OnOk result (first_bad_of workers bytes.now ≡ None) }
    ensures whole { IfOk result (λ script. IsScript workers (plain script)) }
    ensures fault { IfErr result (λ fault. IsScriptFault workers bytes.now fault) }
{
    match read_script(alloc, bytes, workers) {
        Ok(script) => Ok(script),
        Err(ScriptError::BadLine { line, fault }) => Err(Fault::BadScript { line, fault }),
        Err(ScriptError::TooMany) => Err(Fault::Limit),
        Err(ScriptError::NoMemory) => Err(Fault::NoMemory),
    }
}
