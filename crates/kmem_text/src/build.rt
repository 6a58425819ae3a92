//! The one way in which a script is made: of lines whose names are spelled out.

ghost use Rattle.std.specs.Prelude.{◌≡◌, ◌<◌, ◌≤◌, ◌^◌, true, List, ℕ, length, map, All, IfOk, OnOk};
ghost use Rattle.std.specs.List.{flat_map, fold, AllByRecursion};
ghost use Rattle.std.specs.BTreeSet.{insert_key};
ghost use Rattle.std.specs.List.Sorted.{IsStrictlySortedBy};
ghost use Rattle.std.specs.Cmp.Lexicographic.{slice_cmp};
ghost use Rattle.std.specs.Ordering.{nat_cmp};
ghost use Rattle.kmem_text.specs.Grammar.{script_of_lines, in_order, place_of, placed, named, IsAmongNames, IsWithinNames, IsWithinTags};
ghost use Rattle.kmem_text.specs.Texts.{is_name, is_value};
ghost use Rattle.kmem_text.specs.Layout.{IsGoodCommand};
ghost use Rattle.kmem_text.specs.Scripts.{plain, IsScript, IsWorker, IsWithValue};

use super::spelling::{Spelled, SpelledLine};
use super::{Command, Line, Name, NameId, Script, Tag, Value};
use std::alloc::{AllocError, Global};
use std::collections::BTreeSet;

impl Script {
    /// The script of these lines. n log n in their number.
    pub fn from_lines(alloc: Global, lines: &[SpelledLine]) -> Result<Script, AllocError>
        requires { length lines.now ≤ 100000 }
        ensures script { IfOk result (λ script. script_of_lines lines.now ≡ plain script) }
        ensures whole { IfOk result (λ script. (most : ℕ) → All (λ line. IsWorker most line.worker) lines.now →
            IsScript most (plain script)) }
    {
        law_good_lines(lines);
        let names = names_of(alloc, lines)?;
        let lines = placed_lines(alloc, lines, &names)?;
        Ok(Script { names, lines })
    }
}

/// The names of these lines, in the order of their bytes, each once.
fn names_of(alloc: Global, lines: &[SpelledLine]) -> Result<Vec<Name>, AllocError>
    ensures names { IfOk result (λ names. names.items ≡ in_order (flat_map (λ line. named line.command) lines.now)) }
    ensures sorted { IfOk result (λ names. IsStrictlySortedBy (slice_cmp nat_cmp) names.items) }
{
    let mut names = BTreeSet::new(alloc);
    for line in lines {
        insert_named(&mut names, &line.command)?;
    }
    names.into_iter().collect(alloc)
}

/// Puts in the names of a command.
fn insert_named(names: &mut BTreeSet<Name>, command: &Spelled) -> Result<(), AllocError>
    ensures { OnOk result (names.new.keys ≡ fold (insert_key (slice_cmp nat_cmp)) names.old.keys (named command.now)) }
{
    match command {
        Spelled::Put(name, _)
        | Spelled::Get(name)
        | Spelled::Del(name)
        | Spelled::Next(name)
        | Spelled::Hold(_, name)
        | Spelled::Fix(name)
        | Spelled::Loose(name) => {
            names.insert(*name)?;
        }
        Spelled::Link(name, other) => {
            names.insert(*name)?;
            names.insert(*other)?;
        }
        Spelled::First
        | Spelled::Count
        | Spelled::Read(_)
        | Spelled::Write(_, _)
        | Spelled::Drop(_) => {}
    }
    Ok(())
}

/// The lines, with each name as its place.
fn placed_lines(
    alloc: Global,
    lines: &[SpelledLine],
    names: &[Name],
) -> Result<Vec<Line>, AllocError>
    requires sorted { IsStrictlySortedBy (slice_cmp nat_cmp) names.now }
    requires few { length names.now < 2 ^ 32 }
    requires there { All (λ line. AllByRecursion (IsAmongNames names.now) (named line.command)) lines.now }
    ensures within { IfOk result (λ placed_lines. All (λ line. IsWithinNames (length names.now) line.command) placed_lines.items) }
    ensures tags { IfOk result (λ placed_lines. All (λ line. IsWithinTags line.command) placed_lines.items) }
    ensures values { IfOk result (λ placed_lines. All (λ line. IsWithValue line.command) placed_lines.items) }
    ensures lines { IfOk result (λ placed_lines. placed_lines.items
        ≡ map (λ line. record { worker = line.worker; command = placed names.now line.command }) lines.now) }
{
    let mut placed_lines = Vec::with_capacity(alloc, lines.len())?;
    for line in lines {
        let command = placed(&line.command, names);
        placed_lines.push(Line {
            worker: line.worker,
            command,
        })?;
    }
    Ok(placed_lines)
}

fn placed(command: &Spelled, names: &[Name]) -> Command
    requires sorted { IsStrictlySortedBy (slice_cmp nat_cmp) names.now }
    requires few { length names.now < 2 ^ 32 }
    requires there { AllByRecursion (IsAmongNames names.now) (named command.now) }
    ensures command { result ≡ placed names.now command.now }
    ensures within { IsWithinNames (length names.now) result }
    ensures tags { IsWithinTags result }
    ensures values { IsWithValue result }
{
    law_good(command);
    match command {
        Spelled::Put(name, value) => Command::Put(place_of(names, name), *value),
        Spelled::Get(name) => Command::Get(place_of(names, name)),
        Spelled::Del(name) => Command::Del(place_of(names, name)),
        Spelled::First => Command::First,
        Spelled::Next(name) => Command::Next(place_of(names, name)),
        Spelled::Count => Command::Count,
        Spelled::Link(name, other) => Command::Link(place_of(names, name), place_of(names, other)),
        Spelled::Hold(tag, name) => Command::Hold(*tag, place_of(names, name)),
        Spelled::Read(tag) => Command::Read(*tag),
        Spelled::Write(tag, value) => Command::Write(*tag, *value),
        Spelled::Drop(tag) => Command::Drop(*tag),
        Spelled::Fix(name) => Command::Fix(place_of(names, name)),
        Spelled::Loose(name) => Command::Loose(place_of(names, name)),
    }
}

/// A command's names are names, its value is a value, and its tag is a tag, as their types are.
fn law_good(command: &Spelled)
    ensures { IsGoodCommand command.now }
{
    match command {
        Spelled::Put(name, value) => {
            law_name(name);
            law_value(value);
        }
        Spelled::Get(name)
        | Spelled::Del(name)
        | Spelled::Next(name)
        | Spelled::Fix(name)
        | Spelled::Loose(name) => law_name(name),
        Spelled::Link(name, other) => {
            law_name(name);
            law_name(other);
        }
        Spelled::Hold(tag, name) => {
            law_tag(tag);
            law_name(name);
        }
        Spelled::Write(tag, value) => {
            law_tag(tag);
            law_value(value);
        }
        Spelled::Read(tag) | Spelled::Drop(tag) => law_tag(tag),
        Spelled::First | Spelled::Count => {}
    }
}

/// So are those of all these lines.
fn law_good_lines(lines: &[SpelledLine])
    ensures { All (λ line. IsGoodCommand line.command) lines.now }
{
    for line in lines {
        law_good(&line.command);
    }
}

fn law_name(name: &Name)
    ensures { is_name name.now ≡ true }
{
    let _ = name.as_bytes();
}

fn law_value(value: &Value)
    ensures { is_value value.now ≡ true }
{
    let _ = value.as_bytes();
}

fn law_tag(tag: &Tag)
    ensures { tag.now < 8 }
{
    let _ = tag.number();
}

/// The place of a name that is there. By binary search.
fn place_of(names: &[Name], name: &Name) -> NameId
    requires sorted { IsStrictlySortedBy (slice_cmp nat_cmp) names.now }
    requires few { length names.now < 2 ^ 32 }
    requires there { IsAmongNames names.now name.now }
    ensures place { result ≡ place_of names.now name.now }
    ensures within { result.0 < length names.now }
{
    match names.binary_search(name) {
        Ok(place) => NameId(place as u32),
        Err(_) => unreachable!(),
    }
}
