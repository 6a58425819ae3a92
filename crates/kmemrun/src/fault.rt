//! The statuses of faults, and their lines on standard error.

ghost use Rattle.std.specs.Prelude.{◌≡◌, ◌+◌, ◌≤◌, ◌++◌, length, take};
ghost use Rattle.kmemrun.specs.Endings.{fault_status, fault_line, fault_word, bad_line_text, illegal_line_text};

use crate::status::Status;
use itoa::Buffer;
use kmem_text::LineFault;
use run_check::Fault;

pub fn fault_status(fault: &Fault) -> Status
    ensures { result ≡ fault_status fault.now }
{
    match fault {
        Fault::BadScript { line: _, fault: _ } => Status::BadScript,
        Fault::Read => Status::ReadFault,
        Fault::Write => Status::WriteFault,
        Fault::Limit => Status::Limit,
        Fault::NoMemory => Status::NoMemory,
        Fault::Illegal { line: _ } => Status::Illegal,
    }
}

/// Puts the line for standard error at the front of `room`, and answers its length.
pub fn write_fault_line(fault: &Fault, room: &mut [u8]) -> usize
    requires { 64 ≤ length room.old }
    ensures fits { result ≤ length room.new }
    ensures text { take result room.new ≡ fault_line fault.now }
{
    match fault {
        Fault::BadScript { line, fault } => write_bad_line(*line, *fault, room),
        Fault::Read => fill(room, 0, b"kmemrun: read fault\n"),
        Fault::Write => fill(room, 0, b"kmemrun: write fault\n"),
        Fault::Limit => fill(room, 0, b"kmemrun: limit\n"),
        Fault::NoMemory => fill(room, 0, b"kmemrun: no memory\n"),
        Fault::Illegal { line } => write_illegal_line(*line, room),
    }
}

/// The line of a run whose first illegal line, counted from 1, this is.
fn write_illegal_line(line: u32, room: &mut [u8]) -> usize
    requires { 64 ≤ length room.old }
    ensures fits { result ≤ length room.new }
    ensures text { take result room.new ≡ illegal_line_text line }
{
    let mut digits = Buffer::new();
    let at = fill(room, 0, b"kmemrun: illegal line ");
    let at = fill(room, at, digits.format(line).as_bytes());
    fill(room, at, b"\n")
}

/// The line of a script whose first bad line, counted from 1, and its first failing check these are.
fn write_bad_line(line: u32, fault: LineFault, room: &mut [u8]) -> usize
    requires { 64 ≤ length room.old }
    ensures fits { result ≤ length room.new }
    ensures text { take result room.new ≡ bad_line_text line fault }
{
    let mut digits = Buffer::new();
    let at = fill(room, 0, b"kmemrun: line ");
    let at = fill(room, at, digits.format(line).as_bytes());
    let at = fill(room, at, b": ");
    let at = fill(room, at, fault_word(fault));
    fill(room, at, b"\n")
}

fn fault_word(fault: LineFault) -> &'static [u8]
    ensures word { result.now ≡ fault_word fault }
    ensures short { length result.now ≤ 7 }
{
    match fault {
        LineFault::Worker => b"worker",
        LineFault::Command => b"command",
        LineFault::Words => b"words",
        LineFault::Name => b"name",
        LineFault::Value => b"value",
        LineFault::Tag => b"tag",
    }
}

/// Puts a piece at a place, and answers where it ends.
pub fn fill(room: &mut [u8], at: usize, piece: &[u8]) -> usize
    requires { at + length piece.now ≤ length room.old }
    ensures end { result ≡ at + length piece.now }
    ensures text { take result room.new ≡ take at room.old ++ piece.now }
{
    room[at..at + piece.len()].copy_from_slice(piece);
    at + piece.len()
}
