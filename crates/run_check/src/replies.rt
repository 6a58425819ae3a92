//! The replies part, pass by pass.

ghost use Rattle.std.specs.Prelude.{◌≡◌, ◌+◌, ◌<◌, ◌≤◌, ◌^◌, ℕ, length, All, IfOk, IfErr};
ghost use Rattle.std.specs.List.Sorted.{IsStrictlySortedBy};
ghost use Rattle.std.specs.Cmp.Lexicographic.{slice_cmp};
ghost use Rattle.std.specs.Ordering.{nat_cmp};
ghost use Rattle.kmem_model.specs.Checked.{asked_in_turn};
ghost use Rattle.run_check.specs.Cursor.{lines_in};
ghost use Rattle.run_check.specs.Faults.{IfIllegal};
ghost use Rattle.run_check.specs.Told.{IsWithin, HasRead, StopsReading};
ghost use Rattle.run_check.specs.Shares.{told_in, IsShareWithin};

use crate::fault::Fault;
use crate::lines::Lines;
use crate::share::Share;
use crate::told::{Told, read_share};
use kmem_text::Script;
use std::alloc::Global;

/// The replies to all commands, read off the lines in the order in which a run prints them.
pub fn read_replies(
    alloc: Global,
    script: &Script,
    workers: u32,
    lines: &mut Lines<'_>,
) -> Result<Vec<Share>, Fault>
    requires sorted { IsStrictlySortedBy (slice_cmp nat_cmp) script.now.names.items }
    requires few { length script.now.names.items < 2 ^ 32 }
    requires workers { workers ≤ 16 }
    requires lines { length script.now.lines.items ≤ 100000 }
    requires within { All (λ line. IsWithin (length script.now.names.items) line.command) script.now.lines.items }
    ensures within { IfOk result (λ shares. All (IsShareWithin (length script.now.names.items)) shares.items) }
    ensures fresh { IfOk result (λ shares. All (λ share. share.next ≡ 0) shares.items) }
    ensures count { IfOk result (λ shares. length shares.items ≡ workers) }
    ensures read { IfOk result (λ shares. HasRead script.now.names.items (asked_in_turn workers script.now.lines.items)
        (told_in 0 shares.items) (lines_in lines.old.rest.now) (lines_in lines.new.rest.now)) }
    ensures taken { IfOk result (λ shares. lines.new.taken ≡ lines.old.taken + length (told_in 0 shares.items)) }
    ensures stops { IfErr result (λ fault. IfIllegal fault (λ line. (count : ℕ) × (line ≡ lines.old.taken + count + 1)
        × StopsReading script.now.names.items (asked_in_turn workers script.now.lines.items) (lines_in lines.old.rest.now) count)) }
{
    let mut shares = Vec::with_capacity(alloc, workers as usize)?;
    for pass in 0..workers {
        let told: Vec<Told> = read_share(alloc, script, pass, lines)?;
        shares.push(Share { told, next: 0 })?;
    }
    Ok(shares)
}
