//! The words of `gen`.

ghost use Rattle.std.specs.Prelude.{◌≡◌, ◌≤◌, IfSome, codes};
ghost use Rattle.kmem_text.specs.Numbers.{number_within};
ghost use Rattle.clap.specs.Words.{first_value, found_of};
ghost use Rattle.command_line.specs.Programs.{making, IsInRangeOf};
ghost use Rattle.command_line.specs.CommandLine.{gen_in};

use crate::program::Program;
use clap::ArgMatches;
use kmem_text::number_within;

/// The program of the values that were found.
pub(crate) fn gen_in(given: &ArgMatches<'_>) -> Option<Program>
    ensures program { result ≡ gen_in (first_value (found_of given.now) (codes "seed")) (first_value (found_of given.now) (codes "workers"))
        (first_value (found_of given.now) (codes "commands")) }
    ensures ranges { IfSome result IsInRangeOf }
{
    let seed = given.get_str("seed")?;
    let workers = given.get_str("workers")?;
    let commands = given.get_str("commands")?;
    making(
        number_between(seed, 0, 999_999_999),
        number_between(workers, 1, 16),
        number_between(commands, 1, 60_000),
    )
}

fn number_between(word: &str, least: u32, most: u32) -> Option<u32>
    ensures number { result ≡ number_within least most word.now }
    ensures range { IfSome result (λ n. (least ≤ n) × (n ≤ most)) }
{
    number_within(word.as_bytes(), least, most)
}

// A script of so many commands for so many workers, from this seed.
fn making(seed: Option<u32>, workers: Option<u32>, commands: Option<u32>) -> Option<Program>
    requires seed { IfSome seed (λ n. n ≤ 999999999) }
    requires workers { IfSome workers (λ n. (1 ≤ n) × (n ≤ 16)) }
    requires commands { IfSome commands (λ n. (1 ≤ n) × (n ≤ 60000)) }
    ensures program { result ≡ making seed workers commands }
    ensures ranges { IfSome result IsInRangeOf }
{
    Some(Program::Gen {
        seed: seed?,
        workers: workers?,
        commands: commands?,
    })
}
