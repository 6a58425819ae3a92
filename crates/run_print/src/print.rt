//! The replies of a history by worker, and its order.

ghost use Rattle.std.specs.Prelude.{◌≡◌, ◌+◌, ◌≤◌, ◌<◌, ◌++◌, ◌∷◌, [], List, ℕ, length, map, All, OnOk};
ghost use Rattle.std.specs.Io.KnownBytes.{Appends};
ghost use Rattle.std.specs.List.{range_with_len};
ghost use Rattle.kmem_io.specs.Streams.{CanRise, CountsFaults, AppendsFront};
ghost use Rattle.kmem_text.specs.Replies.{IsReplyWithinNames};
ghost use Rattle.kmem_model.specs.RunLines.{replies_at, place_line, reply_line, replies_to, by_worker, run_lines, as_lines};
ghost use Rattle.run_print.specs.Pages.{Carries, CarriesFront};
ghost use Rattle.run_print.specs.Printed.{reply_at, line_to, IsPrintable};

use crate::page::Page;
use kmem_io::{Failed, Sink};
use kmem_model::RecordEntry;
use kmem_text::Script;

/// Prints a history: the replies by worker and then the order of all commands, each part under a line of its own. The page has no text before,
/// and none afterwards. It stops at the first fault, takes no memory, and goes once over the entries for each worker and once more.
pub fn print_run<W: Sink>(
    script: &Script,
    workers: u32,
    entries: &[(u32, RecordEntry)],
    page: &mut Page,
    out: &mut W,
) -> Result<(), Failed>
    requires entries { IsPrintable (length script.now.names.items) entries.now }
    requires workers { workers ≤ 16 }
    requires page { page.old ≡ [] }
    requires out { CanRise (W.faults out.old) }
    ensures whole { OnOk result (Appends (W.written out.old) (W.written out.new)
        (as_lines (run_lines workers script.now.names.items (replies_at entries.now)))) }
    ensures front { AppendsFront (W.written out.old) (W.written out.new)
        (as_lines (run_lines workers script.now.names.items (replies_at entries.now))) }
    ensures none { OnOk result (page.new ≡ []) }
    ensures counted { CountsFaults (W.faults out.old) (W.faults out.new) result }
{
    print_head(b"=== replies\n", page, out)?;
    print_replies(script, workers, entries, page, out)?;
    print_head(b"=== history\n", page, out)?;
    print_places(entries, page, out)?;
    page.write_out(out)
}

// The line over a part.
fn print_head<W: Sink>(line: &[u8], page: &mut Page, out: &mut W) -> Result<(), Failed>
    requires short { length line.now ≤ 700 }
    requires out { CanRise (W.faults out.old) }
    ensures carried { OnOk result (Carries (W.written out.old) (W.written out.new) page.old page.new line.now) }
    ensures front { CarriesFront (W.written out.old) (W.written out.new) page.old [] }
    ensures counted { CountsFaults (W.faults out.old) (W.faults out.new) result }
{
    page.make_room(out)?;
    page.put(line);
    Ok(())
}

// The replies to each worker.
fn print_replies<W: Sink>(
    script: &Script,
    workers: u32,
    entries: &[(u32, RecordEntry)],
    page: &mut Page,
    out: &mut W,
) -> Result<(), Failed>
    requires entries { IsPrintable (length script.now.names.items) entries.now }
    requires workers { workers ≤ 16 }
    requires out { CanRise (W.faults out.old) }
    ensures carried { OnOk result (Carries (W.written out.old) (W.written out.new) page.old page.new
        (as_lines (map (reply_line script.now.names.items) (by_worker workers (replies_at entries.now))))) }
    ensures front { CarriesFront (W.written out.old) (W.written out.new) page.old
        (as_lines (map (reply_line script.now.names.items) (by_worker workers (replies_at entries.now)))) }
    ensures counted { CountsFaults (W.faults out.old) (W.faults out.new) result }
{
    for index in 0..workers {
        print_worker(script, index + 1, entries, page, out)?;
    }
    Ok(())
}

// The replies to one worker.
fn print_worker<W: Sink>(
    script: &Script,
    worker: u32,
    entries: &[(u32, RecordEntry)],
    page: &mut Page,
    out: &mut W,
) -> Result<(), Failed>
    requires entries { IsPrintable (length script.now.names.items) entries.now }
    requires out { CanRise (W.faults out.old) }
    ensures carried { OnOk result (Carries (W.written out.old) (W.written out.new) page.old page.new
        (as_lines (map (reply_line script.now.names.items) (replies_to (replies_at entries.now) worker)))) }
    ensures front { CarriesFront (W.written out.old) (W.written out.new) page.old
        (as_lines (map (reply_line script.now.names.items) (replies_to (replies_at entries.now) worker))) }
    ensures counted { CountsFaults (W.faults out.old) (W.faults out.new) result }
{
    for entry in entries {
        print_to(script, worker, entry, page, out)?;
    }
    Ok(())
}

// The line of an entry, where it is of that worker.
fn print_to<W: Sink>(
    script: &Script,
    worker: u32,
    entry: &(u32, RecordEntry),
    page: &mut Page,
    out: &mut W,
) -> Result<(), Failed>
    requires names { IsReplyWithinNames (length script.now.names.items) entry.now.1.reply }
    requires pass { entry.now.0 < 16 }
    requires out { CanRise (W.faults out.old) }
    ensures carried { OnOk result (Carries (W.written out.old) (W.written out.new) page.old page.new
        (line_to (reply_line script.now.names.items) worker entry.now)) }
    ensures front { CarriesFront (W.written out.old) (W.written out.new) page.old [] }
    ensures counted { CountsFaults (W.faults out.old) (W.faults out.new) result }
{
    if entry.0 + 1 == worker {
        return print_reply(script, entry, page, out);
    }
    Ok(())
}

// The line of one reply.
fn print_reply<W: Sink>(
    script: &Script,
    entry: &(u32, RecordEntry),
    page: &mut Page,
    out: &mut W,
) -> Result<(), Failed>
    requires names { IsReplyWithinNames (length script.now.names.items) entry.now.1.reply }
    requires pass { entry.now.0 < 16 }
    requires out { CanRise (W.faults out.old) }
    ensures carried { OnOk result (Carries (W.written out.old) (W.written out.new) page.old page.new
        (reply_line script.now.names.items (reply_at entry.now) ++ 10 ∷ [])) }
    ensures front { CarriesFront (W.written out.old) (W.written out.new) page.old [] }
    ensures counted { CountsFaults (W.faults out.old) (W.faults out.new) result }
{
    page.make_room(out)?;
    put_place(entry, page);
    page.put(b" ");
    page.put_reply(script, &entry.1.reply);
    page.put(b"\n");
    Ok(())
}

// The place of each entry.
fn print_places<W: Sink>(
    entries: &[(u32, RecordEntry)],
    page: &mut Page,
    out: &mut W,
) -> Result<(), Failed>
    requires passes { All (λ e. e.0 < 16) entries.now }
    requires out { CanRise (W.faults out.old) }
    ensures carried { OnOk result (Carries (W.written out.old) (W.written out.new) page.old page.new
        (as_lines (map place_line (replies_at entries.now)))) }
    ensures front { CarriesFront (W.written out.old) (W.written out.new) page.old (as_lines (map place_line (replies_at entries.now))) }
    ensures counted { CountsFaults (W.faults out.old) (W.faults out.new) result }
{
    for entry in entries {
        print_place(entry, page, out)?;
    }
    Ok(())
}

// The line of one place.
fn print_place<W: Sink>(
    entry: &(u32, RecordEntry),
    page: &mut Page,
    out: &mut W,
) -> Result<(), Failed>
    requires pass { entry.now.0 < 16 }
    requires out { CanRise (W.faults out.old) }
    ensures carried { OnOk result (Carries (W.written out.old) (W.written out.new) page.old page.new (place_line (reply_at entry.now) ++ 10 ∷ [])) }
    ensures front { CarriesFront (W.written out.old) (W.written out.new) page.old [] }
    ensures counted { CountsFaults (W.faults out.old) (W.faults out.new) result }
{
    page.make_room(out)?;
    put_place(entry, page);
    page.put(b"\n");
    Ok(())
}

// A worker and the number of its command.
fn put_place(entry: &(u32, RecordEntry), page: &mut Page)
    requires pass { entry.now.0 < 16 }
    requires room { length page.old + 21 ≤ 65536 }
    ensures text { page.new ≡ page.old ++ place_line (reply_at entry.now) }
    ensures room { length page.new ≤ length page.old + 21 }
{
    page.put_number(entry.0 + 1);
    page.put(b" ");
    page.put_number(entry.1.number);
}
