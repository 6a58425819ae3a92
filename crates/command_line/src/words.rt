//! The words after the program's name, read by `clap`.

ghost use Rattle.std.specs.Prelude.{◌≡◌, ◌≤◌, map, option_map, Some, IfSome, IfOk, codes};
ghost use Rattle.std.specs.List.{list_all};
ghost use Rattle.kmem_text.specs.Numbers.{number_within};
ghost use Rattle.kmem_model.specs.Words.{bounded, IsInRange};
ghost use Rattle.clap.specs.Words.{first_value, found_of, rows_of, subcommand_rows_of};
ghost use Rattle.command_line.specs.CommandLine.{is_plain_word, one_in, check_in, plan_named, program_found};
ghost use Rattle.command_line.specs.Programs.{program_of, IsInRangeOf};

use crate::commands::whole_command;
use crate::gen_words::gen_in;
use crate::program::Program;
use crate::run_words::run_in;
use clap::ArgMatches;
use clap::error::ErrorKind;
use kmem_model::Plan;
use kmem_text::number_within;
use std::alloc::{AllocError, Global};

/// The program of the words, if they have one.
pub fn program_of(alloc: Global, words: &[&str]) -> Result<Option<Program>, AllocError>
    ensures program { IfOk result (λ program. program ≡ program_of (map (λ word. word.now) words.now)) }
    ensures ranges { IfOk result (λ program. IfSome program IsInRangeOf) }
{
    if !are_plain(words) {
        return Ok(None);
    }
    match whole_command(alloc)?.try_get_matches_from(words) {
        Ok(matches) => Ok(program_found(&matches)),
        Err(error) => match error.kind() {
            ErrorKind::OutOfMemory => Err(AllocError),
            _ => Ok(None),
        },
    }
}

/// No word begins with `-`.
fn are_plain(words: &[&str]) -> bool
    ensures { result ≡ list_all is_plain_word (map (λ word. word.now) words.now) }
{
    words.iter().all(|word| is_plain(word))
}

fn is_plain(word: &str) -> bool
    ensures { result ≡ is_plain_word word.now }
{
    match word.as_bytes() {
        [] => true,
        [first, ..] => *first != b'-',
    }
}

/// The program of the values that were found.
fn program_found(matches: &ArgMatches<'_>) -> Option<Program>
    ensures program { result ≡ program_found (subcommand_rows_of matches.now) }
    ensures ranges { IfSome result IsInRangeOf }
{
    let (name, given) = matches.subcommand()?;
    if name == "run" {
        run_in(given)
    } else if name == "gen" {
        gen_in(given)
    } else {
        Some(Program::Plain(plan_named(name, given)?))
    }
}

fn plan_named(name: &str, given: &ArgMatches<'_>) -> Option<Plan>
    ensures plan { result ≡ plan_named name.now (rows_of (found_of given.now)) }
    ensures ranges { IfSome result IsInRange }
{
    if name == "one" {
        one_in(given)
    } else if name == "check" {
        check_in(given)
    } else {
        None
    }
}

fn one_in(given: &ArgMatches<'_>) -> Option<Plan>
    ensures plan { result ≡ one_in (first_value (found_of given.now) (codes "slabs")) (first_value (found_of given.now) (codes "chunks"))
        (first_value (found_of given.now) (codes "every")) }
    ensures ranges { IfSome result IsInRange }
{
    let slabs = given.get_str("slabs")?;
    let chunks = given.get_str("chunks")?;
    one_of(slabs, chunks, given.get_str("every"))
}

fn one_of(slabs: &str, chunks: &str, every: Option<&str>) -> Option<Plan>
    ensures plan { result ≡ one_in (Some slabs.now) (Some chunks.now) (option_map (λ word. word.now) every.entry) }
    ensures ranges { IfSome result IsInRange }
{
    match every {
        None => bounded(size_of(slabs, 4096), size_of(chunks, 64), None),
        Some(every) => {
            let every = number_within(every.as_bytes(), 0, 100_000)?;
            bounded(size_of(slabs, 4096), size_of(chunks, 64), Some(every))
        }
    }
}

fn check_in(given: &ArgMatches<'_>) -> Option<Plan>
    ensures plan { result ≡ check_in (first_value (found_of given.now) (codes "workers")) }
    ensures ranges { IfSome result IsInRange }
{
    let workers = given.get_str("workers")?;
    Some(Plan::Check(number_within(workers.as_bytes(), 1, 16)?))
}

// A number of slabs, or of buffers on a slab.
fn size_of(word: &str, most: u32) -> Option<u32>
    ensures { result ≡ number_within 1 most word.now }
{
    number_within(word.as_bytes(), 1, most)
}

// So many slabs of so many buffers, at most 65,536 in all.
fn bounded(slabs: Option<u32>, chunks: Option<u32>, every: Option<u32>) -> Option<Plan>
    requires slabs { IfSome slabs (λ n. (1 ≤ n) × (n ≤ 4096)) }
    requires chunks { IfSome chunks (λ n. (1 ≤ n) × (n ≤ 64)) }
    requires every { IfSome every (λ n. n ≤ 100000) }
    ensures plan { result ≡ bounded slabs chunks every }
    ensures ranges { IfSome result IsInRange }
{
    let slabs = slabs?;
    let chunks = chunks?;
    if slabs * chunks <= 65_536 {
        Some(Plan::One(slabs, chunks, every))
    } else {
        None
    }
}
