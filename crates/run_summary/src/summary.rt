//! The text of a summary.

ghost use Rattle.std.specs.Prelude.{◌≡◌, ◌+◌, ◌≤◌, ◌++◌, length, take, OnOk};
ghost use Rattle.std.specs.Io.KnownBytes.{Appends};
ghost use Rattle.kmem_io.specs.Streams.{CanRise, CountsFaults, AppendsFront};
ghost use Rattle.run_summary.specs.Summary.{summary_text};
ghost use Rattle.run_summary.specs.Counts.{counts_text};

use crate::counts::{Counts, count};
use crate::lines::put_line;
use kmem_io::{Failed, Sink, write_all};
use kmem_model::RecordEntry;

/// Writes the summary of a history: how many commands it has, how often each kind of reply came, and how many records live. Stops at the
/// first fault. Goes over the entries once, and takes no memory.
pub fn write_summary<W: Sink>(
    entries: &[(u32, RecordEntry)],
    live: u32,
    out: &mut W,
) -> Result<(), Failed>
    requires out { CanRise (W.faults out.old) }
    ensures whole { OnOk result (Appends (W.written out.old) (W.written out.new)
        (summary_text (length entries.now) entries.now live)) }
    ensures front { AppendsFront (W.written out.old) (W.written out.new) (summary_text (length entries.now) entries.now live) }
    ensures counted { CountsFaults (W.faults out.old) (W.faults out.new) result }
{
    let mut room = [0u8; 512];
    let end = put_summary(&mut room, entries, live);
    write_all(out, &room[..end])
}

/// Puts the summary at the front, and answers where it ends.
fn put_summary(room: &mut [u8], entries: &[(u32, RecordEntry)], live: u32) -> usize
    requires { 512 ≤ length room.old }
    ensures end { result ≤ 512 }
    ensures text { take result room.new ≡ summary_text (length entries.now) entries.now live }
{
    let end = put_line(room, 0, b"commands", entries.len() as u64);
    let end = put_counts(room, end, &count(entries));
    put_line(room, end, b"live", u64::from(live))
}

/// Puts the lines of the counts at a place, and answers where they end.
fn put_counts(room: &mut [u8], start: usize, counts: &Counts) -> usize
    requires { start + 351 ≤ length room.old }
    ensures end { result ≤ start + 351 }
    ensures text { take result room.new ≡ take start room.old ++ counts_text counts.now }
{
    let end = put_line(room, start, b"new", counts.created);
    let end = put_line(room, end, b"was", counts.was);
    let end = put_line(room, end, b"full", counts.full);
    let end = put_line(room, end, b"del", counts.gone);
    let end = put_line(room, end, b"val", counts.val);
    let end = put_line(room, end, b"none", counts.absent);
    let end = put_line(room, end, b"at", counts.found);
    let end = put_line(room, end, b"n", counts.numbers);
    let end = put_line(room, end, b"ok", counts.done);
    let end = put_line(room, end, b"taken", counts.taken);
    let end = put_line(room, end, b"many", counts.many);
    let end = put_line(room, end, b"used", counts.used);
    put_line(room, end, b"idle", counts.idle)
}
