//! The words of commands, and the tokens that each takes.

ghost use Rattle.std.specs.Prelude.{◌≡◌, map};
ghost use Rattle.kmem_text.specs.Words.{name_of, value_of, tag_of, alone, only, two, word_of, further_of};
ghost use Rattle.kmem_text.specs.Texts.{is_within};
ghost use Rattle.kmem_text.specs.declared.spelling.Spelled.TheVariants as spelled;

use super::spelling::{LineFault, Spelled};
use super::{Name, Tag, Value};

/// The first word of a command.
#[derive(Clone, Copy, Debug, PartialEq, Eq)]
pub enum CommandWord {
    Put,
    Get,
    Del,
    First,
    Next,
    Count,
    Link,
    Hold,
    Read,
    Write,
    Drop,
    Fix,
    Loose,
}

/// The word that a token is.
pub fn word_of(token: &[u8]) -> Option<CommandWord>
    ensures { result ≡ word_of token.now }
{
    if token == b"put".as_slice() {
        Some(CommandWord::Put)
    } else if token == b"get".as_slice() {
        Some(CommandWord::Get)
    } else if token == b"del".as_slice() {
        Some(CommandWord::Del)
    } else if token == b"first".as_slice() {
        Some(CommandWord::First)
    } else if token == b"next".as_slice() {
        Some(CommandWord::Next)
    } else if token == b"count".as_slice() {
        Some(CommandWord::Count)
    } else if token == b"link".as_slice() {
        Some(CommandWord::Link)
    } else if token == b"hold".as_slice() {
        Some(CommandWord::Hold)
    } else if token == b"read".as_slice() {
        Some(CommandWord::Read)
    } else if token == b"write".as_slice() {
        Some(CommandWord::Write)
    } else if token == b"drop".as_slice() {
        Some(CommandWord::Drop)
    } else if token == b"fix".as_slice() {
        Some(CommandWord::Fix)
    } else if token == b"loose".as_slice() {
        Some(CommandWord::Loose)
    } else {
        None
    }
}

/// The command of a word and the tokens behind it.
pub fn further_of(word: CommandWord, tokens: &[&[u8]]) -> Result<Spelled, LineFault>
    ensures { result ≡ further_of word (map (λ token. token.now) tokens.now) }
{
    match word {
        CommandWord::Put => put_of(tokens),
        CommandWord::Get => Ok(Spelled::Get(one_name(tokens)?)),
        CommandWord::Del => Ok(Spelled::Del(one_name(tokens)?)),
        CommandWord::First => alone(Spelled::First, tokens),
        CommandWord::Next => Ok(Spelled::Next(one_name(tokens)?)),
        CommandWord::Count => alone(Spelled::Count, tokens),
        CommandWord::Link => link_of(tokens),
        CommandWord::Hold => hold_of(tokens),
        CommandWord::Read => Ok(Spelled::Read(one_tag(tokens)?)),
        CommandWord::Write => write_of(tokens),
        CommandWord::Drop => Ok(Spelled::Drop(one_tag(tokens)?)),
        CommandWord::Fix => Ok(Spelled::Fix(one_name(tokens)?)),
        CommandWord::Loose => Ok(Spelled::Loose(one_name(tokens)?)),
    }
}

fn put_of(tokens: &[&[u8]]) -> Result<Spelled, LineFault>
    ensures { result ≡ two name_of value_of spelled.Put (map (λ token. token.now) tokens.now) }
{
    let [name, value] = tokens else {
        return Err(LineFault::Words);
    };
    let name = name_of(name)?;
    let value = value_of(value)?;
    Ok(Spelled::Put(name, value))
}

fn link_of(tokens: &[&[u8]]) -> Result<Spelled, LineFault>
    ensures { result ≡ two name_of name_of spelled.Link (map (λ token. token.now) tokens.now) }
{
    let [name, other] = tokens else {
        return Err(LineFault::Words);
    };
    let name = name_of(name)?;
    let other = name_of(other)?;
    Ok(Spelled::Link(name, other))
}

fn hold_of(tokens: &[&[u8]]) -> Result<Spelled, LineFault>
    ensures { result ≡ two tag_of name_of spelled.Hold (map (λ token. token.now) tokens.now) }
{
    let [tag, name] = tokens else {
        return Err(LineFault::Words);
    };
    let tag = tag_of(tag)?;
    let name = name_of(name)?;
    Ok(Spelled::Hold(tag, name))
}

fn write_of(tokens: &[&[u8]]) -> Result<Spelled, LineFault>
    ensures { result ≡ two tag_of value_of spelled.Write (map (λ token. token.now) tokens.now) }
{
    let [tag, value] = tokens else {
        return Err(LineFault::Words);
    };
    let tag = tag_of(tag)?;
    let value = value_of(value)?;
    Ok(Spelled::Write(tag, value))
}

/// The command, if no token stands behind it.
fn alone(command: Spelled, tokens: &[&[u8]]) -> Result<Spelled, LineFault>
    ensures { result ≡ alone command (map (λ token. token.now) tokens.now) }
{
    match tokens {
        [] => Ok(command),
        _ => Err(LineFault::Words),
    }
}

fn one_name(tokens: &[&[u8]]) -> Result<Name, LineFault>
    ensures { result ≡ only name_of (map (λ token. token.now) tokens.now) }
{
    let [name] = tokens else {
        return Err(LineFault::Words);
    };
    name_of(name)
}

fn one_tag(tokens: &[&[u8]]) -> Result<Tag, LineFault>
    ensures { result ≡ only tag_of (map (λ token. token.now) tokens.now) }
{
    let [tag] = tokens else {
        return Err(LineFault::Words);
    };
    tag_of(tag)
}

fn name_of(token: &[u8]) -> Result<Name, LineFault>
    ensures { result ≡ name_of token.now }
{
    Name::from_bytes(token).ok_or(LineFault::Name)
}

fn value_of(token: &[u8]) -> Result<Value, LineFault>
    ensures { result ≡ value_of token.now }
{
    Value::from_bytes(token).ok_or(LineFault::Value)
}

fn tag_of(token: &[u8]) -> Result<Tag, LineFault>
    ensures { result ≡ tag_of token.now }
{
    match token {
        [digit] if is_tag_digit(*digit) => Ok(Tag::new(*digit - b'0')),
        _ => Err(LineFault::Tag),
    }
}

fn is_tag_digit(byte: u8) -> bool
    ensures { result ≡ is_within 48 55 byte }
{
    matches!(byte, b'0'..=b'7')
}
