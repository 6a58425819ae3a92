//! `kmemrun`: record commands over an allocator whose slabs are consolidated.
#![tactic(auto)]

ghost use Rattle.std.specs.Prelude.{◌≡◌, map, string_bytes, IfOk, IfErr};
ghost use Rattle.kmem_io.specs.Streams.{CanRise};
ghost use Rattle.command_line.specs.Programs.{program_of};
ghost use Rattle.kmemrun.specs.Runs.{stream, IsRunOrWanting, IsRefusal};

mod fault;
mod status;
mod top;

use kmem_io::{Gate, Sink, Source, StdSink, StdSource};
use status::{Ended, Ending};
use std::alloc::{AllocError, Global};
use std::process::ExitCode;
use std::rt::Env;
use std::sync::Wait;
use std::thread::Threads;
use std::{env, io};
use top::{answer, top};

/// The program's own gate, which holds nobody.
struct Open;

impl Gate for Open {
    fn before(&self, _worker: u32, _command: u32) {}
}

fn main(rt: HostRuntime) -> ExitCode {
    let mut input = StdSource::create(rt.stdin());
    let mut out = StdSink::create(rt.stdout());
    let mut err = StdSink::create(rt.stderr());
    let status = match arguments(&rt, rt.alloc()) {
        Ok(words) => run(&rt, rt.alloc(), &words, &mut input, &mut out, &mut err).status,
        Err(ending) => answer(ending, &mut err),
    };
    status.exit_code()
}

/// The words after the program's name. Words that aren't text have no plan.
fn arguments<R: Env + AllocGlobal>(rt: &R, alloc: Global) -> Result<Vec<String>, Ending>
    ensures { IfErr result IsRefusal }
{
    match env::args(rt) {
        Ok(given) => Ok(given.skip(1).collect(alloc)?),
        Err(error) if error.kind() == io::ErrorKind::OutOfMemory => Err(Ending::from(AllocError)),
        Err(_) => Err(Ending::Usage),
    }
}

/// Carries out the words, or ends at once where memory for them is wanting.
fn run<T: Wait + Threads + Sync, R: Source, W: Sink, E: Sink>(
    rt: &T,
    alloc: Global,
    given: &[String],
    input: &mut R,
    out: &mut W,
    err: &mut E,
) -> Ended
    requires input { CanRise (R.faults input.old) }
    requires out { CanRise (W.faults out.old) }
    requires err { CanRise (E.faults err.old) }
    ensures { IsRunOrWanting (program_of (map string_bytes given.now))
        (stream R.left R.faults input.old input.new) (stream W.written W.faults out.old out.new)
        (stream E.written E.faults err.old err.new) result.status result.ran }
{
    match as_words(alloc, given) {
        Ok(words) => top(rt, alloc, &words, input, out, err, &Open),
        Err(error) => Ended {
            status: answer(Ending::from(error), err),
            ran: None,
        },
    }
}

fn as_words(alloc: Global, given: &[String]) -> Result<Vec<&str>, AllocError>
    ensures { IfOk result (λ words. map (λ word. word.now) words.items ≡ map string_bytes given.now) }
{
    let mut words = Vec::with_capacity(alloc, given.len())?;
    for word in given {
        words.push(word.as_str())?;
    }
    Ok(words)
}

#[cfg(test)]
mod tests;
