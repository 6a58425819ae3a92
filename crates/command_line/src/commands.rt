//! The command line, as `clap` has it: subcommands with positional arguments, without help and version.

ghost use Rattle.std.specs.Prelude.{◌≡◌, IfOk, false, codes};
ghost use Rattle.clap.specs.Words.{app_of, rule_of, new_app};
ghost use Rattle.clap.specs.Simple.{on_top};
ghost use Rattle.command_line.specs.CommandLine.{whole_app, one_app, check_app, run_app, gen_app, needed, bare, IsLocal};

use clap::{Arg, Command};
use std::alloc::{AllocError, Global};

/// All words of the program.
pub fn whole_command<'a>(alloc: Global) -> Result<Command<'a>, AllocError>
    ensures { IfOk result (λ command. app_of command ≡ whole_app) }
{
    let one = one_command(alloc)?;
    let check = check_command(alloc)?;
    let run = run_command(alloc)?;
    let made = gen_command(alloc)?;
    let whole = bare_command(alloc)
        .subcommand(one)?
        .subcommand(check)?
        .subcommand(run)?
        .subcommand(made)?;
    Ok(whole)
}

/// A subcommand has to be there; there is no help and no version.
fn bare_command<'a>(alloc: Global) -> Command<'a>
    ensures { app_of result ≡ on_top bare (new_app (codes "kmemrun")) }
{
    Command::new(alloc, "kmemrun")
        .no_binary_name(true)
        .disable_help_flag(true)
        .disable_help_subcommand(true)
        .disable_version_flag(true)
        .subcommand_required(true)
}

/// An argument that has to be there.
fn needed<'a>(alloc: Global, id: &'a str) -> Arg<'a>
    ensures rule { rule_of result ≡ needed id.entry.now }
    ensures local { result.global ≡ false }
{
    Arg::new(alloc, id).required(true)
}

/// `one S C` and `one S C EVERY`.
fn one_command<'a>(alloc: Global) -> Result<Command<'a>, AllocError>
    ensures app { IfOk result (λ command. app_of command ≡ one_app) }
    ensures local { IfOk result IsLocal }
{
    let one = Command::new(alloc, "one")
        .arg(needed(alloc, "slabs"))?
        .arg(needed(alloc, "chunks"))?
        .arg(Arg::new(alloc, "every"))?;
    Ok(one)
}

/// `check W`.
fn check_command<'a>(alloc: Global) -> Result<Command<'a>, AllocError>
    ensures app { IfOk result (λ command. app_of command ≡ check_app) }
    ensures local { IfOk result IsLocal }
{
    let check = Command::new(alloc, "check").arg(needed(alloc, "workers"))?;
    Ok(check)
}

/// `run S C W SCANS` and `run S C W SCANS desperate`.
fn run_command<'a>(alloc: Global) -> Result<Command<'a>, AllocError>
    ensures app { IfOk result (λ command. app_of command ≡ run_app) }
    ensures local { IfOk result IsLocal }
{
    let run = Command::new(alloc, "run")
        .arg(needed(alloc, "slabs"))?
        .arg(needed(alloc, "chunks"))?
        .arg(needed(alloc, "workers"))?
        .arg(needed(alloc, "scans"))?
        .arg(Arg::new(alloc, "desperate"))?;
    Ok(run)
}

/// `gen SEED W N`.
fn gen_command<'a>(alloc: Global) -> Result<Command<'a>, AllocError>
    ensures app { IfOk result (λ command. app_of command ≡ gen_app) }
    ensures local { IfOk result IsLocal }
{
    let made = Command::new(alloc, "gen")
        .arg(needed(alloc, "seed"))?
        .arg(needed(alloc, "workers"))?
        .arg(needed(alloc, "commands"))?;
    Ok(made)
}
