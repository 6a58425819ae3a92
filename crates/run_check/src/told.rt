//! The replies part of a printed run.

ghost use Rattle.std.specs.Prelude.{◌≡◌, ◌↔◌, ◌+◌, ◌<◌, ◌≤◌, ◌^◌, ◌∷◌, ◌≢◌, ℕ, length, slice_get, Some, All, IfOk, IfErr};
ghost use Rattle.std.specs.List.Sorted.{IsStrictlySortedBy};
ghost use Rattle.std.specs.Cmp.Lexicographic.{slice_cmp};
ghost use Rattle.std.specs.Ordering.{nat_cmp};
ghost use Rattle.kmem_text.specs.ReplyRows.{IsReplyTo};
ghost use Rattle.kmem_text.specs.declared.command.Reply.{Reply};
ghost use Rattle.kmem_model.specs.RunLines.{reply_line};
ghost use Rattle.kmem_model.specs.History.{commands_of};
ghost use Rattle.kmem_model.specs.Checked.{asked_of_pass};
ghost use Rattle.run_check.specs.Cursor.{lines_in};
ghost use Rattle.run_check.specs.Told.{IsWithin, of_pass, asked_by_pass, HasRead, StopsReading};
ghost use Rattle.run_check.specs.Faults.{IfIllegal};

use crate::fault::Fault;
use crate::lines::Lines;
use crate::places::behind_place;
use kmem_text::{Command, Line, Reply, Script, read_reply};
use std::alloc::{AllocError, Global};

/// A command of a pass, its number among that pass's commands, counted from 1, and the reply that the replies part tells.
#[derive(Clone, Copy)]
pub struct Told {
    pub number: u32,
    pub command: Command,
    pub reply: Reply,
}

/// The replies to the commands of a pass, read off the lines in turn.
pub fn read_share(
    alloc: Global,
    script: &Script,
    pass: u32,
    lines: &mut Lines<'_>,
) -> Result<Vec<Told>, Fault>
    requires sorted { IsStrictlySortedBy (slice_cmp nat_cmp) script.now.names.items }
    requires few { length script.now.names.items < 2 ^ 32 }
    requires pass { pass < 16 }
    requires lines { length script.now.lines.items ≤ 100000 }
    requires within { All (λ line. IsWithin (length script.now.names.items) line.command) script.now.lines.items }
    ensures within { IfOk result (λ entries. All (λ t. IsWithin (length script.now.names.items) t.command) entries.items) }
    ensures read { IfOk result (λ entries. HasRead script.now.names.items (asked_of_pass script.now.lines.items pass)
        (of_pass pass entries.items) (lines_in lines.old.rest.now) (lines_in lines.new.rest.now)) }
    ensures taken { IfOk result (λ entries. lines.new.taken ≡ lines.old.taken + length entries.items) }
    ensures stops { IfErr result (λ fault. IfIllegal fault (λ line. (count : ℕ) × (line ≡ lines.old.taken + count + 1)
        × StopsReading script.now.names.items (asked_of_pass script.now.lines.items pass) (lines_in lines.old.rest.now) count)) }
{
    let commands = commands_of(alloc, &script.lines, pass + 1)?;
    read_each(alloc, script, pass, &commands, lines)
}

/// The commands of a worker, in their order.
fn commands_of(alloc: Global, lines: &[Line], worker: u32) -> Result<Vec<Command>, AllocError>
    ensures { IfOk result (λ commands. commands.items ≡ commands_of worker lines.now) }
{
    lines
        .iter()
        .filter(|line| line.worker == worker)
        .map(|line| line.command)
        .collect(alloc)
}

/// The replies to these commands of a pass, numbered from 1.
fn read_each(
    alloc: Global,
    script: &Script,
    pass: u32,
    commands: &[Command],
    lines: &mut Lines<'_>,
) -> Result<Vec<Told>, Fault>
    requires sorted { IsStrictlySortedBy (slice_cmp nat_cmp) script.now.names.items }
    requires few { length script.now.names.items < 2 ^ 32 }
    requires pass { pass < 16 }
    requires lines { length commands.now ≤ 100000 }
    requires within { All (IsWithin (length script.now.names.items)) commands.now }
    ensures within { IfOk result (λ entries. All (λ t. IsWithin (length script.now.names.items) t.command) entries.items) }
    ensures read { IfOk result (λ entries. HasRead script.now.names.items (asked_by_pass pass commands.now)
        (of_pass pass entries.items) (lines_in lines.old.rest.now) (lines_in lines.new.rest.now)) }
    ensures taken { IfOk result (λ entries. lines.new.taken ≡ lines.old.taken + length entries.items) }
    ensures stops { IfErr result (λ fault. IfIllegal fault (λ line. (count : ℕ) × (line ≡ lines.old.taken + count + 1)
        × StopsReading script.now.names.items (asked_by_pass pass commands.now) (lines_in lines.old.rest.now) count)) }
{
    let mut entries = Vec::with_capacity(alloc, commands.len())?;
    for index in 0..commands.len() {
        let Told {
            number,
            command,
            reply,
        } = read_told(script, pass + 1, index as u32 + 1, &commands[index], lines)?;
        entries.push(Told {
            number,
            command,
            reply,
        })?;
    }
    Ok(entries)
}

/// The entry of a command whose reply the next line tells.
fn read_told(
    script: &Script,
    worker: u32,
    number: u32,
    command: &Command,
    lines: &mut Lines<'_>,
) -> Result<Told, Fault>
    requires sorted { IsStrictlySortedBy (slice_cmp nat_cmp) script.now.names.items }
    requires few { length script.now.names.items < 2 ^ 32 }
    ensures asks { IfOk result (λ e. (e.number ≡ number) × (e.command ≡ command.now) × IsReplyTo (length script.now.names.items) e.command e.reply) }
    ensures line { IfOk result (λ e. lines_in lines.old.rest.now
        ≡ reply_line script.now.names.items (record { worker = worker; number = number; reply = e.reply }) ∷ lines_in lines.new.rest.now) }
    ensures taken { IfOk result (λ e. lines.new.taken ≡ lines.old.taken + 1) }
    ensures refused { IfErr result (λ fault. (fault ≡ Fault.Illegal (lines.old.taken + 1)) × ((reply : Reply) →
        IsReplyTo (length script.now.names.items) command.now reply → slice_get (lines_in lines.old.rest.now) 0
        ≢ Some (reply_line script.now.names.items (record { worker = worker; number = number; reply = reply })))) }
{
    let line_number = lines.number();
    let Some(line) = lines.next() else {
        return Err(Fault::Illegal { line: line_number });
    };
    match reply_told(script, worker, number, command, line) {
        Some(reply) => Ok(Told {
            number,
            command: *command,
            reply,
        }),
        None => Err(Fault::Illegal { line: line_number }),
    }
}

/// The reply to this command that the line tells.
fn reply_told(
    script: &Script,
    worker: u32,
    number: u32,
    command: &Command,
    line: &[u8],
) -> Option<Reply>
    requires sorted { IsStrictlySortedBy (slice_cmp nat_cmp) script.now.names.items }
    requires few { length script.now.names.items < 2 ^ 32 }
    ensures { (reply : Reply) → (result ≡ Some reply) ↔ (IsReplyTo (length script.now.names.items) command.now reply
        × (line.now ≡ reply_line script.now.names.items (record { worker = worker; number = number; reply = reply }))) }
{
    let text = behind_place(line, worker, number)?;
    read_reply(script, command, text)
}
