//! What one line of a script spells.

ghost use Rattle.std.specs.Prelude.{◌≡◌, map};
ghost use Rattle.kmem_text.specs.Grammar.{spelled_of, holds_command, line_of};
ghost use Rattle.kmem_text.specs.Words.{command_of};

use super::words::{CommandWord, further_of, word_of};
use super::{COMMENT_SIGN, Name, Tag, Value, number_within};

/// The first check of a line that fails, in the order of the checks.
#[derive(Clone, Copy, Debug, PartialEq, Eq)]
pub enum LineFault {
    Worker,
    Command,
    Words,
    Name,
    Value,
    Tag,
}

/// A command whose names are spelled out.
#[derive(Clone, Copy, Debug, PartialEq, Eq)]
pub enum Spelled {
    Put(Name, Value),
    Get(Name),
    Del(Name),
    First,
    Next(Name),
    Count,
    Link(Name, Name),
    Hold(Tag, Name),
    Read(Tag),
    Write(Tag, Value),
    Drop(Tag),
    Fix(Name),
    Loose(Name),
}

/// A line whose names are spelled out.
#[derive(Clone, Copy, Debug, PartialEq, Eq)]
pub struct SpelledLine {
    pub worker: u32,
    pub command: Spelled,
}

/// What the tokens of a line spell, if they hold a command.
pub fn spelled_of(tokens: &[&[u8]], workers: u32) -> Result<Option<SpelledLine>, LineFault>
    ensures { result ≡ spelled_of workers (map (λ token. token.now) tokens.now) }
{
    if !holds_command(tokens) {
        return Ok(None);
    }
    let line = line_of(tokens, workers)?;
    Ok(Some(line))
}

/// Blank lines and comments hold none.
fn holds_command(tokens: &[&[u8]]) -> bool
    ensures { result ≡ holds_command (map (λ token. token.now) tokens.now) }
{
    match tokens {
        [] => false,
        [token, ..] => !token.starts_with(&[COMMENT_SIGN]),
    }
}

/// The worker and the command of these tokens, or the first check that fails.
fn line_of(tokens: &[&[u8]], workers: u32) -> Result<SpelledLine, LineFault>
    ensures { result ≡ line_of workers (map (λ token. token.now) tokens.now) }
{
    let [worker, tokens @ ..] = tokens else {
        return Err(LineFault::Worker);
    };
    let Some(worker) = number_within(worker, 1, workers) else {
        return Err(LineFault::Worker);
    };
    let command = command_of(tokens)?;
    Ok(SpelledLine { worker, command })
}

fn command_of(tokens: &[&[u8]]) -> Result<Spelled, LineFault>
    ensures { result ≡ command_of (map (λ token. token.now) tokens.now) }
{
    let [token, further @ ..] = tokens else {
        return Err(LineFault::Command);
    };
    let Some(word) = word_of(token) else {
        return Err(LineFault::Command);
    };
    further_of(word, further)
}
