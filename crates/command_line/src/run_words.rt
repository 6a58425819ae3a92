//! The words of `run`.

ghost use Rattle.std.specs.Prelude.{◌≡◌, ◌≤◌, option_map, Some, IfSome, codes};
ghost use Rattle.kmem_text.specs.Numbers.{number_within};
ghost use Rattle.clap.specs.Words.{first_value, found_of};
ghost use Rattle.command_line.specs.Programs.{running, running_by, IsInRangeOf};
ghost use Rattle.command_line.specs.CommandLine.{run_in};

use crate::program::Program;
use clap::ArgMatches;
use kmem_text::number_within;

/// The program of the values that were found.
pub(crate) fn run_in(given: &ArgMatches<'_>) -> Option<Program>
    ensures program { result ≡ run_in (first_value (found_of given.now) (codes "slabs")) (first_value (found_of given.now) (codes "chunks"))
        (first_value (found_of given.now) (codes "workers")) (first_value (found_of given.now) (codes "scans"))
        (first_value (found_of given.now) (codes "desperate")) }
    ensures ranges { IfSome result IsInRangeOf }
{
    let slabs = given.get_str("slabs")?;
    let chunks = given.get_str("chunks")?;
    let workers = given.get_str("workers")?;
    let scans = given.get_str("scans")?;
    run_of(slabs, chunks, workers, scans, given.get_str("desperate"))
}

fn run_of(
    slabs: &str,
    chunks: &str,
    workers: &str,
    scans: &str,
    last: Option<&str>,
) -> Option<Program>
    ensures program { result ≡ run_in (Some slabs.now) (Some chunks.now) (Some workers.now) (Some scans.now)
        (option_map (λ word. word.now) last.entry) }
    ensures ranges { IfSome result IsInRangeOf }
{
    match last {
        None => running_by(slabs, chunks, workers, scans, false),
        Some(word) => {
            if word == "desperate" {
                running_by(slabs, chunks, workers, scans, true)
            } else {
                None
            }
        }
    }
}

fn running_by(
    slabs: &str,
    chunks: &str,
    workers: &str,
    scans: &str,
    desperate: bool,
) -> Option<Program>
    ensures program { result ≡ running_by slabs.now chunks.now workers.now scans.now desperate }
    ensures ranges { IfSome result IsInRangeOf }
{
    let slabs = number_up_to(slabs, 4096);
    let chunks = number_up_to(chunks, 64);
    let workers = number_up_to(workers, 16);
    let scans = number_up_to(scans, 1000);
    running(slabs, chunks, workers, scans, desperate)
}

fn number_up_to(word: &str, most: u32) -> Option<u32>
    ensures number { result ≡ number_within 1 most word.now }
    ensures range { IfSome result (λ n. (1 ≤ n) × (n ≤ most)) }
{
    number_within(word.as_bytes(), 1, most)
}

// So many slabs of so many buffers, at most 65,536 in all, with so many workers and scans.
fn running(
    slabs: Option<u32>,
    chunks: Option<u32>,
    workers: Option<u32>,
    scans: Option<u32>,
    desperate: bool,
) -> Option<Program>
    requires slabs { IfSome slabs (λ n. (1 ≤ n) × (n ≤ 4096)) }
    requires chunks { IfSome chunks (λ n. (1 ≤ n) × (n ≤ 64)) }
    requires workers { IfSome workers (λ n. (1 ≤ n) × (n ≤ 16)) }
    requires scans { IfSome scans (λ n. (1 ≤ n) × (n ≤ 1000)) }
    ensures program { result ≡ running slabs chunks workers scans desperate }
    ensures ranges { IfSome result IsInRangeOf }
{
    let slabs = slabs?;
    let chunks = chunks?;
    let workers = workers?;
    let scans = scans?;
    if slabs * chunks <= 65_536 {
        Some(Program::Run {
            slabs,
            chunks,
            workers,
            scans,
            desperate,
        })
    } else {
        None
    }
}
