//! The whole report.

ghost use Rattle.std.specs.Prelude.{◌≡◌, ◌+◌, ◌*◌, ◌<◌, ◌≤◌, ◌++◌, length, take, OnOk};
ghost use Rattle.std.specs.Io.KnownBytes.{Appends};
ghost use Rattle.kmem_io.specs.Streams.{CanRise, CountsFaults, AppendsFront};
ghost use Rattle.kmem_model.specs.CacheState.{slab_at};
ghost use Rattle.kmem_model.specs.Report.{numbers_text, slab_text, slab_texts, part_text, report_text};
ghost use Rattle.kmem_report.specs.Reported.{reported};

use crate::lines::{put_moves_line, put_number_line, put_slab_line};
use kmem_buf::Kind;
use kmem_io::{Failed, Sink, write_all};
use object_cache::{ObjectCache, Tally};

/// Writes the report: a line that opens it, the counts, how the moves ended and how those of all settles did, and each listed slab. Stops
/// at
/// the first fault. Linear in the slabs, and takes no memory.
pub fn write_report<K: Kind, W: Sink>(
    live: u32,
    scans: u32,
    moves: &Tally,
    settled: &Tally,
    cache: &ObjectCache<K>,
    out: &mut W,
) -> Result<(), Failed>
    requires out { CanRise (W.faults out.old) }
    ensures whole { OnOk result (Appends (W.written out.old) (W.written out.new)
        (report_text (reported live scans moves.now settled.now cache.now.state))) }
    ensures front { AppendsFront (W.written out.old) (W.written out.new)
        (report_text (reported live scans moves.now settled.now cache.now.state)) }
    ensures counted { CountsFaults (W.faults out.old) (W.faults out.new) result }
{
    write_all(out, b"=== report\n")?;
    write_part(live, scans, moves, settled, cache, out)
}

/// Writes what follows the line that opens the report: the counts, and each listed slab.
pub fn write_part<K: Kind, W: Sink>(
    live: u32,
    scans: u32,
    moves: &Tally,
    settled: &Tally,
    cache: &ObjectCache<K>,
    out: &mut W,
) -> Result<(), Failed>
    requires out { CanRise (W.faults out.old) }
    ensures whole { OnOk result (Appends (W.written out.old) (W.written out.new)
        (part_text (reported live scans moves.now settled.now cache.now.state))) }
    ensures front { AppendsFront (W.written out.old) (W.written out.new)
        (part_text (reported live scans moves.now settled.now cache.now.state)) }
    ensures counted { CountsFaults (W.faults out.old) (W.faults out.new) result }
{
    let mut room = [0u8; 640];
    let at = put_numbers(&mut room, live, scans, moves, settled, cache);
    write_all(out, &room[..at])?;
    write_slabs(cache, out)
}

/// Puts the lines of the numbers at the front, and answers where they end.
fn put_numbers<K: Kind>(
    room: &mut [u8],
    live: u32,
    scans: u32,
    moves: &Tally,
    settled: &Tally,
    cache: &ObjectCache<K>,
) -> usize
    requires { 640 ≤ length room.old }
    ensures end { result ≤ 640 }
    ensures text { take result room.new ≡ numbers_text (reported live scans moves.now settled.now cache.now.state) }
{
    cache.law_whole();
    let buffers = cache.slabs() * cache.chunks();
    let at = put_number_line(room, 0, b"buffers", u64::from(buffers));
    let at = put_number_line(room, at, b"live", u64::from(live));
    let at = put_number_line(room, at, b"slabs", u64::from(cache.slab_count()));
    let at = put_number_line(room, at, b"free", u64::from(cache.free_count()));
    let at = put_number_line(room, at, b"scans", u64::from(scans));
    let at = put_number_line(room, at, b"begun", moves.begun);
    let at = put_moves_line(room, at, b"moves", moves);
    put_moves_line(room, at, b"settle", settled)
}

/// Writes a line for each listed slab.
fn write_slabs<K: Kind, W: Sink>(cache: &ObjectCache<K>, out: &mut W) -> Result<(), Failed>
    requires { CanRise (W.faults out.old) }
    ensures whole { OnOk result (Appends (W.written out.old) (W.written out.new) (slab_texts 0 cache.now.state.slabs)) }
    ensures front { AppendsFront (W.written out.old) (W.written out.new) (slab_texts 0 cache.now.state.slabs) }
    ensures counted { CountsFaults (W.faults out.old) (W.faults out.new) result }
{
    for slab in 0..cache.slabs() {
        write_slab(slab, cache, out)?;
    }
    Ok(())
}

/// Writes the line of a slab, if it is listed.
fn write_slab<K: Kind, W: Sink>(
    slab: u32,
    cache: &ObjectCache<K>,
    out: &mut W,
) -> Result<(), Failed>
    requires slab { slab < length cache.now.state.slabs }
    requires out { CanRise (W.faults out.old) }
    ensures whole { OnOk result (Appends (W.written out.old) (W.written out.new)
        (slab_text slab (slab_at cache.now.state.slabs slab))) }
    ensures front { AppendsFront (W.written out.old) (W.written out.new)
        (slab_text slab (slab_at cache.now.state.slabs slab)) }
    ensures counted { CountsFaults (W.faults out.old) (W.faults out.new) result }
{
    let Some(line) = cache.line(slab) else {
        return Ok(());
    };
    let mut room = [0u8; 96];
    let len = put_slab_line(&mut room, slab, line);
    write_all(out, &room[..len])
}
