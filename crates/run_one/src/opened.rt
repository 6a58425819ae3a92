//! A run of `one` that was opened.

ghost use Rattle.std.specs.Prelude.{◌≡◌, ◌+◌, ◌*◌, ◌<◌, ◌≤◌, ◌++◌, ◌∷◌, [], ℕ, All, length, take, IfOk, OnOk};
ghost use Rattle.std.specs.Io.KnownBytes.{Appends};
ghost use Rattle.kmem_io.specs.Streams.{CanRise, CountsFaults, AppendsFront};
ghost use Rattle.kmem_text.specs.Scripts.{plain, IsScript};
ghost use Rattle.kmem_text.specs.Replies.{reply_text, IsReplyWithinNames};
ghost use Rattle.kmem_model.specs.History.{IsFullExactly};
ghost use Rattle.kmem_model.specs.One.{buffers_of};
ghost use Rattle.kmem_model.specs.OneRun.{OneRun, replies, lines_run, reply_lines, history_of, one_output, one_text};
ghost use Rattle.run_one.specs.Answers.{IsTextOfHistory};
ghost use Rattle.run_one.specs.Bench.{Stands, RunsAt, IsGoodLine};
ghost use Rattle.run_one.specs.Pages.{MovesOut};

use crate::bench::Bench;
use kmem_io::{Failed, Sink, write_all};
use kmem_model::{law_one, law_one_step};
use kmem_text::{Reply, Script, write_reply};
use std::alloc::{AllocError, Global};
use std::marker::Model;

/// The room for replies between two writes.
const PAGE: usize = 65_536;

/// The most room that one reply and its line feed take.
const REPLY_ROOM: usize = 641;

/// A script with all that its run on one thread needs.
#[derive(Drop)]
pub struct OpenOne {
    slabs: u32,
    chunks: u32,
    every: Option<u32>,
    script: Script,
    bench: Bench,
    page: Vec<u8>,
}

impl Model for OpenOne {
    ghost use Rattle.kmem_text.specs.Scripts.{plain};
    ghost use Rattle.run_one.specs.Answers.{OneView};
    ghost use Rattle.run_one.specs.Opened.{IsOpenOne};

    ghost Value = { OneView };

    ghost view = { λ r. record { slabs = r.slabs; chunks = r.chunks; every = r.every; script = plain r.script } };

    ghost invariant = { λ r. IsOpenOne r.slabs r.chunks (plain r.script) r.bench r.page.items };
}

impl OpenOne {
    /// Takes all memory of a run of this script over so many slabs of so many buffers. With `every` there is a settle after each command whose
    /// number, counted from 1, is a multiple of it, and a last one at the end; 0 stands for the last one alone.
    pub fn create(
        alloc: Global,
        slabs: u32,
        chunks: u32,
        every: Option<u32>,
        script: Script,
    ) -> Result<OpenOne, AllocError>
        requires slabs { (0 < slabs) × (slabs ≤ 4096) }
        requires chunks { (0 < chunks) × (chunks ≤ 64) }
        requires buffers { slabs * chunks ≤ 65536 }
        requires script { IsScript 16 (plain script) }
        ensures { IfOk result (λ run. run ≡ record { slabs = slabs; chunks = chunks; every = every; script = plain script }) }
    {
        let bench = Bench::create(alloc, slabs, chunks, script.names.len() as u32)?;
        let page = vec![in alloc; 0u8; PAGE]?;
        Ok(OpenOne {
            slabs,
            chunks,
            every,
            script,
            bench,
            page,
        })
    }

    /// Carries out the script, and writes the replies and with `every` the report. Takes no memory. What is written is the text of a history.
    pub fn go<W: Sink>(self, out: &mut W) -> Result<(), Failed>
        requires out { CanRise (W.faults out.old) }
        ensures text { OnOk result (Appends (W.written out.old) (W.written out.new) (one_output self.slabs self.chunks self.every self.script)) }
        ensures history { OnOk result (IsTextOfHistory self.slabs self.chunks self.script
            (one_output self.slabs self.chunks self.every self.script)) }
        ensures front { AppendsFront (W.written out.old) (W.written out.new) (one_output self.slabs self.chunks self.every self.script) }
        ensures counted { CountsFaults (W.faults out.old) (W.faults out.new) result }
    {
        law_one();
        let OpenOne {
            slabs: _,
            chunks: _,
            every,
            script,
            mut bench,
            mut page,
        } = self;
        answer_script(&script, &mut bench, every, &mut page, out)
    }
}

/// Carries out the script, and writes the replies and with `every` the report.
fn answer_script<W: Sink>(
    script: &Script,
    bench: &mut Bench,
    every: Option<u32>,
    page: &mut [u8],
    out: &mut W,
) -> Result<(), Failed>
    requires names { length bench.old.heap.heap.names ≡ length script.now.names.items }
    requires within { All (IsGoodLine (length script.now.names.items)) script.now.lines.items }
    requires few { length script.now.lines.items ≤ 100000 }
    requires stands { Stands bench.old }
    requires page { 641 ≤ length page.old }
    requires out { CanRise (W.faults out.old) }
    ensures whole { OnOk result ((start : OneRun) → RunsAt start bench.old →
        Appends (W.written out.old) (W.written out.new)
        (one_text every script.now.names.items start script.now.lines.items)) }
    ensures full { OnOk result ((start : OneRun) → RunsAt start bench.old →
        IsFullExactly (buffers_of start.state.cache) start.state.map (history_of every 1 start [] script.now.lines.items)) }
    ensures front { (start : OneRun) → RunsAt start bench.old →
        AppendsFront (W.written out.old) (W.written out.new)
        (one_text every script.now.names.items start script.now.lines.items) }
    ensures counted { CountsFaults (W.faults out.old) (W.faults out.new) result }
{
    answer_lines(script, bench, every, page, out)?;
    if every.is_some() {
        bench.finish();
        bench.report(out)?;
    }
    Ok(())
}

/// Carries out the lines, and writes the replies as the page fills.
fn answer_lines<W: Sink>(
    script: &Script,
    bench: &mut Bench,
    every: Option<u32>,
    page: &mut [u8],
    out: &mut W,
) -> Result<(), Failed>
    requires names { length bench.old.heap.heap.names ≡ length script.now.names.items }
    requires within { All (IsGoodLine (length script.now.names.items)) script.now.lines.items }
    requires few { length script.now.lines.items ≤ 100000 }
    requires stands { Stands bench.old }
    requires page { 641 ≤ length page.old }
    requires out { CanRise (W.faults out.old) }
    ensures whole { OnOk result ((start : OneRun) → RunsAt start bench.old → Appends (W.written out.old) (W.written out.new)
        (reply_lines script.now.names.items (replies every 1 start script.now.lines.items))) }
    ensures front { (start : OneRun) → RunsAt start bench.old → AppendsFront (W.written out.old) (W.written out.new)
        (reply_lines script.now.names.items (replies every 1 start script.now.lines.items)) }
    ensures counted { CountsFaults (W.faults out.old) (W.faults out.new) result }
    ensures runs { OnOk result ((start : OneRun) → RunsAt start bench.old →
        RunsAt (lines_run every 1 start script.now.lines.items) bench.new) }
    ensures full { OnOk result ((start : OneRun) → RunsAt start bench.old →
        IsFullExactly (buffers_of start.state.cache) start.state.map (history_of every 1 start [] script.now.lines.items)) }
    ensures stands { Stands bench.new }
{
    law_one();
    law_one_step();
    let mut at = 0;
    for index in 0..script.lines.len() {
        at = make_room(page, at, out)?;
        let reply = bench.answer(every, index as u32 + 1, &script.lines[index]);
        at = put_line(script, &reply, page, at);
    }
    write_all(out, &page[..at])
}

/// Writes what stands in the page where there is no room behind it for one more reply, and answers where the next goes.
fn make_room<W: Sink>(page: &[u8], at: usize, out: &mut W) -> Result<usize, Failed>
    requires at { at ≤ length page.now }
    requires page { 641 ≤ length page.now }
    requires out { CanRise (W.faults out.old) }
    ensures room { IfOk result (λ kept. kept + 641 ≤ length page.now) }
    ensures moved { IfOk result (λ kept. MovesOut (W.written out.old) (W.written out.new) (take at page.now) (take kept page.now)) }
    ensures front { AppendsFront (W.written out.old) (W.written out.new) (take at page.now) }
    ensures counted { CountsFaults (W.faults out.old) (W.faults out.new) result }
{
    if page.len() - at >= REPLY_ROOM {
        return Ok(at);
    }
    write_all(out, &page[..at])?;
    Ok(0)
}

/// Puts a reply and a line feed into the page, and answers where they end.
fn put_line(script: &Script, reply: &Reply, page: &mut [u8], at: usize) -> usize
    requires room { at + 641 ≤ length page.old }
    requires names { IsReplyWithinNames (length script.now.names.items) reply.now }
    ensures end { result ≤ length page.new }
    ensures text { take result page.new ≡ take at page.old ++ (reply_text script.now.names.items reply.now ++ 10 ∷ []) }
{
    let len = write_reply(script, reply, &mut page[at..at + 640]);
    page[at + len] = b'\n';
    at + len + 1
}
