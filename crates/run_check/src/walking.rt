//! The lines of a printed run, one after the other.

ghost use Rattle.std.specs.Prelude.{◌≡◌, ◌≤◌, ◌+◌, length, OnOk, IfErr};
ghost use Rattle.kmem_text.specs.Scripts.{plain, IsScript};
ghost use Rattle.kmem_model.specs.Checked.{StandUpTo, IsFirstRefused, TellsHistory};
ghost use Rattle.run_check.specs.Cursor.{lines_in};
ghost use Rattle.run_check.specs.Faults.{IfIllegal};

use crate::fault::Fault;
use crate::history::replay;
use crate::lines::Lines;
use crate::plain_map::PlainMap;
use crate::replies::read_replies;
use kmem_model::law_history;
use kmem_text::{Script, law_reread};
use std::alloc::Global;

/// Goes through the lines of a run, from `=== run` to `=== report`.
pub fn check_run(
    alloc: Global,
    workers: u32,
    script: &Script,
    lines: &mut Lines<'_>,
) -> Result<(), Fault>
    requires workers { workers ≤ 16 }
    requires script { IsScript workers (plain script.now) }
    ensures stand { OnOk result (StandUpTo workers (plain script.now) (lines_in lines.old.rest.now)
        (4 + length script.now.lines.items + length script.now.lines.items)) }
    ensures tells { OnOk result (TellsHistory workers (plain script.now) (lines_in lines.old.rest.now)) }
    ensures illegal { IfErr result (λ fault. IfIllegal fault (λ line.
        IsFirstRefused workers (plain script.now) (lines_in lines.old.rest.now) lines.old.taken line)) }
{
    law_reread();
    law_history();
    lines.expect(b"=== run")?;
    lines.expect(b"=== replies")?;
    let mut shares = read_replies(alloc, script, workers, lines)?;
    lines.expect(b"=== history")?;
    let mut map = PlainMap::create(alloc, script.names.len(), workers)?;
    replay(&mut map, &mut shares, lines, script.lines.len())?;
    lines.expect(b"=== report")
}
