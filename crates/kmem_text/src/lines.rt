//! An input cut into lines, and what each of them spells.

ghost use Rattle.std.specs.Prelude.{◌≡◌, ◌==◌, ◌<◌, ◌≤◌, ◌∷◌, ◌++◌, ◌-◌, ℕ, List, [], length, take, drop, None, IfOk, OnOk, IfErr, position};
ghost use Rattle.std.specs.List.{slice_split};
ghost use Rattle.kmem_text.specs.Grammar.{lines_of, spelled_lines, first_bad_of};
ghost use Rattle.kmem_text.specs.Faults.{Explains};

use super::spelling::{Spelled, SpelledLine, spelled_of};
use super::tokens::{MOST_TOKENS, fill_tokens};
use super::{LINE_FEED, ScriptError};
use std::alloc::{AllocError, Global};

/// The most commands that a script may have.
const MAX_COMMANDS: usize = 100_000;

/// The commands that the lines of an input spell. At most one more than a script may have is kept.
pub fn spelled_lines(
    alloc: Global,
    bytes: &[u8],
    workers: u32,
) -> Result<Vec<SpelledLine>, ScriptError>
    requires { length bytes.now ≤ 16777216 }
    ensures lines { IfOk result (λ lines. lines.items ≡ spelled_lines workers (lines_of bytes.now)) }
    ensures good { OnOk result (first_bad_of workers bytes.now ≡ None) }
    ensures few { IfOk result (λ lines. length lines.items ≤ 100000) }
    ensures error { IfErr result (λ error. Explains error (first_bad_of workers bytes.now)
        (length (spelled_lines workers (lines_of bytes.now)))) }
{
    let mut lines = Vec::new(alloc);
    let mut tokens = Vec::with_capacity(alloc, MOST_TOKENS)?;
    let mut rest = bytes;
    let mut number = 0u32;
    'cutting: while !rest.is_empty() {
        let (line, behind) = cut_line(rest);
        rest = behind;
        number += 1;
        fill_tokens(line, &mut tokens);
        match spelled_of(&tokens, workers) {
            Ok(Some(SpelledLine { worker, command })) => keep(
                &mut lines,
                SpelledLine { worker, command },
            )?,
            Ok(None) => {}
            Err(fault) => return Err(ScriptError::BadLine {
                line: number,
                fault,
            }),
        }
    }
    if lines.len() <= MAX_COMMANDS {
        Ok(lines)
    } else {
        Err(ScriptError::TooMany)
    }
}

/// Adds a line, but for those past the first that is too many.
fn keep(lines: &mut Vec<SpelledLine>, line: SpelledLine) -> Result<(), AllocError>
    requires { length lines.old.items ≤ 100001 }
    ensures { OnOk result (lines.new.items ≡ take 100001 (lines.old.items ++ line ∷ [])) }
{
    let SpelledLine { worker, command } = line;
    if lines.len() <= MAX_COMMANDS {
        lines.push(SpelledLine { worker, command })?;
    }
    Ok(())
}

/// The first line of an input that isn't empty, and what stands behind its line feed.
pub fn cut_line(bytes: &[u8]) -> (&[u8], &[u8])
    requires { 0 < length bytes.now }
    ensures lines { lines_of bytes.now ≡ result.0.now ∷ lines_of result.1.now }
    ensures shorter { length result.1.now < length bytes.now }
    ensures behind { result.1.now ≡ drop (length bytes.now - length result.1.now) bytes.now }
    // where something stands behind it, the line is one whatever stands there
    ensures whole { 0 < length result.1.now → (more : List ℕ) →
        lines_of (take (length bytes.now - length result.1.now) bytes.now ++ more) ≡ result.0.now ∷ lines_of more }
{
    match line_feed(bytes) {
        Some(end) => (&bytes[..end], &bytes[end + 1..]),
        None => (bytes, &[]),
    }
}

/// Where the first line feed stands.
fn line_feed(bytes: &[u8]) -> Option<usize>
    ensures { result ≡ position (λ byte. byte == LINE_FEED) bytes.now }
{
    bytes.iter().position(|byte| *byte == LINE_FEED)
}
