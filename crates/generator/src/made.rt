//! Scripts made from a seed.

ghost use Rattle.std.specs.Prelude.{◌≡◌, ◌+◌, ◌<◌, ◌≤◌, ◌%◌, ◌∷◌, None, IfOk};
ghost use Rattle.std.specs.Fmt.{decimal};
ghost use Rattle.kmem_text.specs.Grammar.{first_bad_of, script_of};
ghost use Rattle.kmem_text.specs.Scripts.{plain, IsScript};
ghost use Rattle.generator.specs.Lines.{script_text};
ghost use Rattle.generator.specs.Made.{made, made_lines, made_command, rare_command, made_name};

use super::draws::Draws;
use super::room::put;
use itoa::Buffer;
use kmem_text::{Name, Script, Spelled, SpelledLine, Tag, Value, law_written};
use std::alloc::{AllocError, Global};

/// The script of a seed. n log n in the number of commands.
pub fn generate(alloc: Global, seed: u64, workers: u32, commands: u32) -> Result<Script, AllocError>
    requires workers { (1 ≤ workers) × (workers ≤ 16) }
    requires commands { commands ≤ 100000 }
    ensures script { IfOk result (λ script. plain script ≡ made seed workers commands) }
    ensures whole { IfOk result (λ script. IsScript workers (plain script)) }
    ensures good { IfOk result (λ script. first_bad_of workers (script_text (plain script)) ≡ None) }
    ensures read { IfOk result (λ script. script_of workers (script_text (plain script)) ≡ plain script) }
{
    law_written();
    let lines = made_lines(alloc, seed, workers, commands)?;
    let script = Script::from_lines(alloc, &lines)?;
    Ok(script)
}

fn made_lines(
    alloc: Global,
    seed: u64,
    workers: u32,
    commands: u32,
) -> Result<Vec<SpelledLine>, AllocError>
    requires { (1 ≤ workers) × (workers ≤ 16) }
    ensures lines { IfOk result (λ lines. lines.items ≡ made_lines seed workers commands) }
{
    let mut draws = Draws::new(seed);
    let mut lines = Vec::with_capacity(alloc, commands as usize)?;
    for i in 0..commands {
        let chosen = draws.next();
        let first = draws.next();
        let second = draws.next();
        lines.push(SpelledLine {
            worker: 1 + i % workers,
            command: made_command(chosen, first, second),
        })?;
    }
    Ok(lines)
}

/// The command of three draws.
fn made_command(chosen: u64, first: u64, second: u64) -> Spelled
    ensures { result ≡ made_command chosen first second }
{
    match chosen % 16 {
        0..=4 => Spelled::Put(made_name(first), made_value(b'v', second % 1_000_000)),
        5..=7 => Spelled::Get(made_name(first)),
        8 | 9 => Spelled::Del(made_name(first)),
        10 => Spelled::Next(made_name(first)),
        11 => Spelled::Link(made_name(first), made_name(second)),
        12 => Spelled::Hold(made_tag(second), made_name(first)),
        13 => Spelled::Read(made_tag(first)),
        14 => Spelled::Drop(made_tag(first)),
        _ => rare_command(first, second),
    }
}

fn rare_command(first: u64, second: u64) -> Spelled
    ensures { result ≡ rare_command first second }
{
    match second % 4 {
        0 => Spelled::Fix(made_name(first)),
        1 => Spelled::Loose(made_name(first)),
        2 => Spelled::Count,
        _ => Spelled::Write(made_tag(first), made_value(b'w', second / 4 % 1000)),
    }
}

fn made_tag(draw: u64) -> Tag
    ensures { result ≡ draw % 8 }
{
    Tag::new((draw % 8) as u8)
}

/// The letter `n` and three digits.
fn made_name(draw: u64) -> Name
    ensures { result ≡ made_name draw }
{
    let number = (draw % 256) as u8;
    let text = [
        b'n',
        b'0' + number / 100,
        b'0' + number / 10 % 10,
        b'0' + number % 10,
    ];
    Name::from_bytes(&text).unwrap()
}

/// A letter and a number.
fn made_value(letter: u8, number: u64) -> Value
    requires letter { (97 ≤ letter) × (letter ≤ 122) }
    requires number { number < 1000000 }
    ensures { result ≡ letter ∷ decimal number }
{
    let mut digits = Buffer::new();
    let digits = digits.format(number).as_bytes();
    let mut text = [letter; 21];
    let len = put(&mut text, 1, digits);
    Value::from_bytes(&text[..len]).unwrap()
}
