//! An input read into a script.

ghost use Rattle.std.specs.Prelude.{◌≡◌, ◌≤◌, length, None, IfOk, OnOk, IfErr};
ghost use Rattle.kmem_text.specs.Faults.{Explains};
ghost use Rattle.kmem_text.specs.Grammar.{script_of, first_bad_of};
ghost use Rattle.kmem_text.specs.Scripts.{plain, IsScript};

use super::lines::spelled_lines;
use super::{LineFault, Script};
use std::alloc::{AllocError, AllocFailed, Global};

/// Why an input is no script.
#[derive(Clone, Copy, Debug, PartialEq, Eq)]
pub enum ScriptError {
    /// The first line outside the grammar, counted from 1, and its first failing check.
    BadLine { line: u32, fault: LineFault },
    /// Every line is good, and there are more than 100,000 commands.
    TooMany,
    NoMemory,
}

impl From<AllocError> for ScriptError {
    ghost use Rattle.kmem_text.specs.declared.script.ScriptError.TheVariants.{NoMemory};

    ghost from_gives = { λ _ e. e ≡ NoMemory };

    fn from(_e: AllocError) -> ScriptError {
        ScriptError::NoMemory
    }
}

impl<T: Drop> From<AllocFailed<T>> for ScriptError {
    ghost use Rattle.kmem_text.specs.declared.script.ScriptError.TheVariants.{NoMemory};

    ghost from_gives = { λ _ e. e ≡ NoMemory };

    fn from(_e: AllocFailed<T>) -> ScriptError {
        ScriptError::NoMemory
    }
}

/// The script that an input spells, for workers 1 to `workers`. n log n in its length.
pub fn read_script(alloc: Global, bytes: &[u8], workers: u32) -> Result<Script, ScriptError>
    requires workers { workers ≤ 16 }
    requires size { length bytes.now ≤ 16777216 }
    ensures script { IfOk result (λ script. script_of workers bytes.now ≡ plain script) }
    ensures good { OnOk result (first_bad_of workers bytes.now ≡ None) }
    ensures whole { IfOk result (λ script. IsScript workers (plain script)) }
    ensures error { IfErr result (λ error. Explains error (first_bad_of workers bytes.now) (length (script_of workers bytes.now).lines)) }
{
    let lines = spelled_lines(alloc, bytes, workers)?;
    let script = Script::from_lines(alloc, &lines)?;
    Ok(script)
}
