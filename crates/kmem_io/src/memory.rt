//! A source and a sink in memory, whose calls can be cut short and made to fail.

ghost use Rattle.std.specs.Prelude.{◌≡◌, ◌<◌, ◌≤◌, ◌+◌, ◌++◌, [], length, take, drop, Some, IfOk, OnErr, IsOk, IsErr, IsTrue, ◌↔◌};
ghost use Rattle.std.specs.Io.KnownBytes.{Appends, Consumes, Keeps, IsAtEnd};
ghost use Rattle.kmem_io.specs.Streams.{CanRise, CountsFaults};
ghost use Rattle.kmem_io.specs.Memory.{next_call, read_count, read_fails, write_count, write_fails, fails_at};

use super::{Failed, Sink, Source};
use std::alloc::{AllocError, Global};
use std::marker::Model;

/// A source over bytes that it keeps.
#[derive(Drop)]
pub struct MemSource {
    bytes: Vec<u8>,
    at: usize,
    step: usize,
    fail_at: Vec<u32>,
    calls: u64,
    faults: u64,
}

impl Model for MemSource {
    ghost use Rattle.std.specs.Prelude.{◌≤◌, vec_len, drop};
    ghost use Rattle.kmem_io.specs.Memory.{Reading};

    ghost Value = { Reading };

    ghost view = { λ s.
        record { left = drop s.at s.bytes.items; step = s.step; fail_at = s.fail_at.items; calls = s.calls; faults = s.faults } };

    ghost invariant = { λ s. (s.at ≤ vec_len s.bytes) × (1 ≤ s.step) };
}

impl MemSource {
    /// Gives `bytes`, at most `step` of them a call, and fails at the calls whose numbers, from 1, are in `fail_at`.
    pub fn create(
        alloc: Global,
        bytes: &[u8],
        step: usize,
        fail_at: &[u32],
    ) -> Result<MemSource, AllocError>
        requires { 1 ≤ step }
        ensures { IfOk result (λ s. s ≡ record { left = bytes.now; step = step; fail_at = fail_at.now; calls = 0; faults = 0 }) }
    {
        Ok(MemSource {
            bytes: bytes.to_vec(alloc)?,
            at: 0,
            step,
            fail_at: fail_at.to_vec(alloc)?,
            calls: 0,
            faults: 0,
        })
    }
}

impl Source for MemSource {
    ghost left = { λ s. Some s.left };

    ghost faults = { λ s. s.faults };

    fn read(&mut self, buffer: &mut [u8]) -> Result<usize, Failed>
        requires { CanRise self.old.faults }
        ensures within { IfOk result (λ n. n ≤ length buffer.new) }
        ensures given { IfOk result (λ n. Consumes (Some self.old.left) (Some self.new.left) (take n buffer.new)) }
        ensures end { IfOk result (λ n. n ≡ 0 → 0 < length buffer.new → IsAtEnd (Some self.new.left)) }
        ensures kept { OnErr result (Keeps (Some self.old.left) (Some self.new.left)) }
        ensures counted { CountsFaults self.old.faults self.new.faults result }

        // Exactly the listed calls fail, and each other call gives all that it can.
        ensures fails { IsErr result ↔ IsTrue (read_fails self.old) }
        ensures count { IfOk result (λ n. n ≡ read_count self.old (length buffer.new)) }
        ensures calls { self.new.calls ≡ next_call self.old.calls }
    {
        self.calls = self.calls.saturating_add(1);
        if is_listed(&self.fail_at, self.calls) {
            self.faults += 1;
            return Err(Failed);
        }
        let n = self.step.min(buffer.len()).min(self.bytes.len() - self.at);
        buffer[..n].copy_from_slice(&self.bytes[self.at..self.at + n]);
        self.at += n;
        Ok(n)
    }
}

/// The call's number is one of those that fail.
fn is_listed(fail_at: &[u32], call: u64) -> bool
    ensures { result ≡ fails_at fail_at.now call }
{
    fail_at.iter().any(|k| u64::from(*k) == call)
}

/// A sink over bytes that it keeps, in room that is taken when it is made.
#[derive(Drop)]
pub struct MemSink {
    bytes: Vec<u8>,
    room: usize,
    step: usize,
    fail_at: Vec<u32>,
    calls: u64,
    faults: u64,
}

impl Model for MemSink {
    ghost use Rattle.std.specs.Prelude.{◌≤◌, vec_len, vec_capacity};
    ghost use Rattle.kmem_io.specs.Memory.{Writing};

    ghost Value = { Writing };

    ghost view = { λ s.
        record { written = s.bytes.items; room = s.room; step = s.step; fail_at = s.fail_at.items; calls = s.calls; faults = s.faults } };

    ghost invariant = { λ s. (vec_len s.bytes ≤ s.room) × (s.room ≤ vec_capacity s.bytes) × (1 ≤ s.step) };
}

impl MemSink {
    /// Takes at most `step` bytes a call and `room` in all, and fails at the calls whose numbers, from 1, are in
    /// `fail_at`, and where more is offered than the room has.
    pub fn create(
        alloc: Global,
        room: usize,
        step: usize,
        fail_at: &[u32],
    ) -> Result<MemSink, AllocError>
        requires { 1 ≤ step }
        ensures { IfOk result (λ s. s ≡ record { written = []; room = room; step = step; fail_at = fail_at.now; calls = 0; faults = 0 }) }
    {
        Ok(MemSink {
            bytes: Vec::with_capacity(alloc, room)?,
            room,
            step,
            fail_at: fail_at.to_vec(alloc)?,
            calls: 0,
            faults: 0,
        })
    }

    /// What was written so far.
    pub fn bytes(&self) -> &[u8]
        ensures { result.now ≡ self.now.written }
    {
        self.bytes.as_slice()
    }
}

impl Sink for MemSink {
    ghost written = { λ s. Some s.written };

    ghost faults = { λ s. s.faults };

    fn write(&mut self, piece: &[u8]) -> Result<usize, Failed>
        requires { CanRise self.old.faults }
        ensures within { IfOk result (λ n. n ≤ length piece.now) }
        ensures some { IfOk result (λ n. 0 < length piece.now → 0 < n) }
        ensures appended { IfOk result (λ n. Appends (Some self.old.written) (Some self.new.written) (take n piece.now)) }
        ensures kept { OnErr result (Keeps (Some self.old.written) (Some self.new.written)) }
        ensures counted { CountsFaults self.old.faults self.new.faults result }

        // Exactly the listed calls fail, and those that offer more than the room has; each other call takes all that it can.
        ensures fails { IsErr result ↔ IsTrue (write_fails self.old (length piece.now)) }
        ensures count { IfOk result (λ n. n ≡ write_count self.old (length piece.now)) }
        ensures calls { self.new.calls ≡ next_call self.old.calls }
    {
        self.calls = self.calls.saturating_add(1);
        let left = self.room - self.bytes.len();
        if is_listed(&self.fail_at, self.calls) || !piece.is_empty() && left == 0 {
            self.faults += 1;
            return Err(Failed);
        }
        let n = self.step.min(piece.len()).min(left);
        self.bytes.extend_from_slice(&piece[..n]).unwrap();
        Ok(n)
    }
}
